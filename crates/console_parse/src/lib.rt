// A line's words as names, numbers and sets of tiles.
#![tactic(auto)]

ghost use Rattle.std.specs.Prelude.{◌≡◌, true, ◌≤◌, min};
ghost use Rattle.console_words.specs.Text.{nth_word};
ghost use Rattle.console_parse.specs.Line.{ends_by, remark, number_at, numbers_of, only_numbers, arguments_of, TilesIn, SourcesIn, name_in};

// The fill tiles of a `fresh`.
#[derive(Clone, Copy, PartialEq, Eq)]
pub enum Sources {
    All,
    Set(u64),
}

// Whether the line's word with k words before it is `name`.
pub fn is(line: &[u8], k: usize, name: &[u8]) -> bool
    ensures { (result ≡ true → nth_word k line.now ≡ name.now) × (nth_word k line.now ≡ name.now → result ≡ true) }
{
    console_words::nth(line, k) == name
}

// Whether the line has at most k words.
pub fn ended(line: &[u8], k: usize) -> bool
    ensures { result ≡ ends_by k line.now }
{
    console_words::nth(line, k).is_empty()
}

// A line that says nothing: without words, or a remark.
pub fn is_remark(line: &[u8]) -> bool
    ensures { result ≡ remark (nth_word 0 line.now) }
{
    let word = console_words::nth(line, 0);
    if word.is_empty() {
        return true;
    }
    word[0] == b'#'
}

// The line's word with k words before it, as a number.
fn number(line: &[u8], k: usize) -> Option<u32>
    ensures { result ≡ number_at line.now k }
{
    console_words::number(console_words::nth(line, k))
}

// The `count` numbers from word `first` on, then zeros; none where a word is no number.
pub fn numbers_at(line: &[u8], first: usize, count: usize) -> Option<[u32; 4]>
    requires { (first ≤ 100) × (count ≤ 4) }
    ensures { result ≡ numbers_of line.now first count }
{
    let mut all = [0u32; 4];
    for k in 0..count {
        all[k] = number(line, first + k)?;
    }
    Some(all)
}

// The same, and nothing after them.
pub fn last_numbers(line: &[u8], first: usize, count: usize) -> Option<[u32; 4]>
    requires { (first ≤ 100) × (count ≤ 4) }
    ensures { result ≡ only_numbers line.now first count }
{
    if !ended(line, first + count) {
        return None;
    }
    numbers_at(line, first, count)
}

// The numbers after a call's name: as many as it takes, and nothing after them.
pub fn arguments(line: &[u8], count: usize) -> Option<[u32; 4]>
    requires { count ≤ 4 }
    ensures { result ≡ arguments_of line.now count }
{
    last_numbers(line, 1, count)
}

// Tiles with commas between them, as a set.
fn tile_list(word: &[u8]) -> Option<u64>
    ensures { TilesIn word.now result }
{
    let mut set: u64 = 0;
    let mut at = 0;
    // the step depends on the bytes: where the next comma stands
    loop {
        let to = console_words::find(word, at, b',');
        let t = console_words::number(&word[at..to])?;
        if 63 < t {
            return None;
        }
        set = sets::with(set, t as u8);
        if to == word.len() {
            return Some(set);
        }
        at = to + 1;
    }
}

// The tiles that the line's word with k words before it names.
pub fn tiles_at(line: &[u8], k: usize) -> Option<u64>
    ensures { TilesIn (nth_word k line.now) result }
{
    tile_list(console_words::nth(line, k))
}

// The fill tiles that the word with k words before it names: all, none, or tiles.
pub fn sources_at(line: &[u8], k: usize) -> Option<Sources>
    ensures { SourcesIn (nth_word k line.now) result }
{
    if is(line, k, b"all") {
        return Some(Sources::All);
    }
    if is(line, k, b"none") {
        return Some(Sources::Set(0));
    }
    let set = tiles_at(line, k)?;
    Some(Sources::Set(set))
}

// The eight bytes of a name, zero filled. A longer word is no name and gives zeros, which the library refuses by the same
// number.
fn letters(word: &[u8]) -> [u8; 8]
    ensures { result ≡ name_in word.now }
{
    let mut all = [0u8; 8];
    if 8 < word.len() {
        return all;
    }
    all[..word.len()].copy_from_slice(word);
    all
}

// The name that the line's word with k words before it writes.
pub fn name_at(line: &[u8], k: usize) -> [u8; 8]
    ensures { result ≡ name_in (nth_word k line.now) }
{
    letters(console_words::nth(line, k))
}

// The nearest number that fits; one line for each size, so no trait. What is cut off here is refused by the library with the same number as what was typed.
pub fn byte(x: u32) -> u8
    ensures { result ≡ min x 255 }
{
    x.min(255) as u8
}

pub fn short(x: u32) -> u16
    ensures { result ≡ min x 65535 }
{
    x.min(65535) as u16
}
