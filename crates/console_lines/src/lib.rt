// A line that comes in pieces: what is kept of it between two reads.
#![tactic(auto)]

ghost use Rattle.std.specs.Prelude.{◌+◌, ◌-◌, ◌≤◌, ◌≡◌, length, take, drop};
ghost use Rattle.console_lines.specs.Kept.{Kept};

use std::ops::Range;

// The part that is kept of an unfinished line: all of it up to 401 bytes. Of a longer one 401 bytes: those from its first
// word on, or its last ones where these have the beginning of that word or are blanks.
fn kept_of(line: &[u8]) -> Range<usize>
    ensures { (result.start ≤ result.end) × (result.end ≤ result.start + 401) × (result.end ≤ length line.now) × Kept line.now (take (result.end - result.start) (drop result.start line.now)) }
{
    if line.len() < 402 {
        return 0..line.len();
    }
    let word = console_words::skip_blanks(line, 0);
    let last = line.len() - 401;
    if word < last {
        return word..word + 401;
    }
    last..line.len()
}

// Moves what is kept of the unfinished line between two places to the front of the buffer, and gives its length.
pub fn keep(buf: &mut [u8], at: usize, end: usize) -> usize
    requires { (at ≤ end) × (end ≤ length buf.old) }
    ensures { (result ≤ 401) × (result ≤ length buf.old) × Kept (take (end - at) (drop at buf.old)) (take result buf.new) }
{
    let part = kept_of(&buf[at..end]);
    let from = at + part.start;
    let n = part.end - part.start;
    buf.copy_within(from..from + n, 0);
    n
}
