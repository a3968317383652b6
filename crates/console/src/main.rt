// The console: reads calls line by line from standard input and answers each on standard output.
#![tactic(auto)]

ghost use Rattle.std.specs.Prelude.{◌<◌, ◌≤◌, length};

use console_barge::WithBarge;
use console_session::Session;
use std::io::Read;
use std::rt::Files;

// What the console keeps, and the place of the first byte not yet obeyed.
#[derive(Clone, Copy)]
struct Place {
    all: WithBarge,
    at: usize,
}

// One line: a remark is passed over.
fn line_done(rt: &(impl Files + Print), before: WithBarge, line: &[u8]) -> WithBarge {
    let lines = before.session.lines.wrapping_add(1);
    let s = Session {
        lines,
        ..before.session
    };
    let a = console_barge::with_session(before, s);
    if console_parse::is_remark(line) {
        return a;
    }
    if 400 < line.len() {
        console_say::too_long(rt, lines);
        return a;
    }
    console_obey::obey(rt, a, line)
}

// Obeys the whole lines of the text.
fn obey_lines(rt: &(impl Files + Print), before: WithBarge, text: &[u8]) -> Place
    ensures { result.at ≤ length text.now }
{
    let mut a = before;
    let mut at = 0;
    // the step depends on the bytes: where the next line ends
    while a.session.going && at < text.len() {
        let to = console_words::find(text, at, b'\n');
        if to == text.len() {
            break;
        }
        a = line_done(rt, a, &text[at..to]);
        at = to + 1;
    }
    Place { all: a, at }
}

// Reads once into the buffer from `end` on. Gives the new end, the same one where the input has ended.
fn read_more(rt: &impl Print, input: &mut impl Read, buf: &mut [u8], end: usize) -> usize
    requires { end < length buf.old }
    ensures { (end ≤ result) × (result ≤ length buf.new) }
{
    let Ok(more) = input.read(&mut buf[end..]) else {
        let _ = println!(rt; "console: standard input can't be read any further");
        return end;
    };
    end + more
}

// After a read: what the console keeps, how many bytes of an unfinished line stand at the front of the buffer, whether to
// read again. No Option: what is kept is looked at after the last read too.
#[derive(Clone, Copy)]
struct After {
    all: WithBarge,
    kept: usize,
    more: bool,
}

// Reads once, obeys the lines that are whole now, and keeps what is left at the front.
fn turn(
    rt: &(impl Files + Print),
    input: &mut impl Read,
    before: WithBarge,
    buf: &mut [u8],
    kept: usize,
) -> After
    requires { (kept ≤ 401) × (401 < length buf.old) }
    ensures { result.kept ≤ 401 }
{
    let end = read_more(rt, input, buf, kept);
    if end == kept {
        return After {
            all: before,
            kept,
            more: false,
        };
    }
    let place = obey_lines(rt, before, &buf[..end]);
    let a = place.all;
    let left = console_lines::keep(buf, place.at, end);
    After {
        all: a,
        kept: left,
        more: a.session.going,
    }
}

// The end of the input: a last line without its end is obeyed; a list that has no `end` is not sent.
fn finish(rt: &(impl Files + Print), a: WithBarge, rest: &[u8]) {
    let mut last = a;
    if a.session.going && 0 < rest.len() {
        last = line_done(rt, a, rest);
    }
    if last.session.entries.begun {
        let _ = println!(rt; "list: not sent, there is no end");
    }
}

// Obeys lines as they come, until `quit` or the end of the input. A proved loop has to end, and nothing says that the input
// does: so the reads are counted, to a number that no run reaches.
fn converse(rt: &(impl Files + Print), input: &mut impl Read, buf: &mut [u8])
    requires { 401 < length buf.old }
{
    let mut a = console_barge::begin();
    let mut kept = 0;
    for _ in 0..u64::MAX {
        let done = turn(rt, input, a, buf, kept);
        a = done.all;
        kept = done.kept;
        if !done.more {
            finish(rt, a, &buf[..kept]);
            return;
        }
    }
    let lines = a.session.lines;
    let _ = println!(rt; "console: no reads are left; the lines after line {lines} are not read");
}

fn main(rt: HostRuntime) {
    let _ = println!(rt; "console: begin with fresh or load; help lists the calls, quit ends");
    let mut input = rt.stdin();
    let mut buf = [0u8; 4096];
    converse(&rt, &mut input, &mut buf);
}
