// What the console writes: numbers, refusals and texts in plain words.
#![tactic(auto)]

use floor::{Canister, Refusal};
use std::fmt;

// The refusals of the calls on a floor, in a few words.
const MEANINGS: [(Refusal, &str); 22] = [
    (Refusal::Grid, "W or H outside 1 to 8, or a single tile"),
    (
        Refusal::Sets,
        "not one to four hoppers, all on the floor, or a fill tile that is a hopper or no tile",
    ),
    (Refusal::Measure, "a measure breaks the rules"),
    (Refusal::NoTile, "tile not on the floor"),
    (Refusal::NotASource, "not a fill tile"),
    (Refusal::NumberZero, "canister number 0"),
    (Refusal::Outside, "a or b above U - l"),
    (Refusal::StopOfHopper, "a hopper can't be stopped"),
    (
        Refusal::ImageEnds,
        "the image ends too soon, or not where it should",
    ),
    (
        Refusal::OtherKind,
        "a record of another kind than the one due",
    ),
    (
        Refusal::RecordShape,
        "a record's length or a fixed byte is wrong",
    ),
    (
        Refusal::ImageMalformed,
        "the image's floor isn't well formed",
    ),
    (Refusal::Malformed, "the floor isn't well formed"),
    (Refusal::Stopped, "the tile is stopped"),
    (Refusal::Running, "the tile is running"),
    (Refusal::NumberUsed, "number not above the last booked"),
    (Refusal::TooClose, "too near a canister of the tile"),
    (Refusal::NoPlace, "no place on the tile"),
    (Refusal::ListTooLong, "more than 64 entries"),
    (Refusal::BadName, "not a name of 1 to 8 letters A to Z"),
    (Refusal::NameNotHeld, "no layout has that name"),
    (Refusal::LayoutsFull, "eight other names are held"),
];

// The words of a table for refusal n.
fn meaning(table: &[(Refusal, &'static str)], n: u8) -> Option<&'static str> {
    for (why, words) in table {
        if u8::from(*why) == n {
            return Some(*words);
        }
    }
    None
}

// A refused call, its meaning told in words of its own where `own` has some.
pub fn refused_as(rt: &impl Print, name: &str, n: u8, own: &[(Refusal, &'static str)]) {
    let words = meaning(own, n)
        .or(meaning(&MEANINGS, n))
        .unwrap_or("unknown");
    let _ = println!(rt; "{name}: refused {n}: {words}");
}

pub fn refused(rt: &impl Print, name: &str, n: u8) {
    refused_as(rt, name, n, &[]);
}

// A call where there is no floor.
pub fn no_floor(rt: &impl Print, name: &str) {
    let _ = println!(rt; "{name}: there is no floor; begin with fresh, load or take");
}

// Canisters, by their number.
pub fn canisters(n: u64) -> &'static str {
    if n == 1 { "canister" } else { "canisters" }
}

// Another floor, by the call named, where the floor has n canisters.
pub fn holds(rt: &impl Print, call: &str, n: u64) {
    let what = canisters(n);
    let _ = println!(rt; "{call}: the floor holds {n} {what}; {call}! gives it up");
}

// What was typed, up to 400 bytes, as it can be shown on a terminal.
#[derive(Clone, Copy)]
struct Typed<'a>(&'a [u8]);

impl fmt::Display for Typed<'_> {
    fn fmt<W: fmt::Write>(&self, f: &mut fmt::Formatter<W>) -> fmt::Result {
        for b in self.0.iter().take(400) {
            f.write_char(if (32..=126).contains(b) {
                char::from(*b)
            } else {
                '?'
            })?;
        }
        Ok(())
    }
}

// A line that can't be read, with its number.
pub fn unreadable(rt: &impl Print, at: u64, line: &[u8]) {
    let typed = Typed(line);
    let _ = println!(rt; "line {at}: cannot read: {typed}");
}

pub fn too_long(rt: &impl Print, at: u64) {
    let _ = println!(rt; "line {at}: cannot read: over 400 bytes");
}

// A canister as its number and its place.
#[derive(Clone, Copy)]
pub struct Placed(pub Canister);

impl fmt::Display for Placed {
    fn fmt<W: fmt::Write>(&self, f: &mut fmt::Formatter<W>) -> fmt::Result {
        let Canister { number, a, b } = self.0;
        write!(f, "{number} at ({a}, {b})")
    }
}

pub fn booked(rt: &impl Print, c: Canister, at: u32) {
    let placed = Placed(c);
    let _ = println!(rt; "book: {placed} on tile {at}");
}

// A tile that was stopped or repaired, and how it is now.
pub fn pressed(rt: &impl Print, call: &str, at: u32, now: &str) {
    let _ = println!(rt; "{call}: tile {at} {now}");
}

// A floor in a file of so many bytes, or in none: then the old file, if there is one, is as it was.
pub fn saved(rt: &impl Print, length: Option<u32>, path: &[u8]) {
    let typed = Typed(path);
    let _ = match length {
        Some(n) => println!(rt; "save: {n} bytes in {typed}"),
        None => println!(rt; "save: {typed} can't be written"),
    };
}

pub fn unread(rt: &impl Print, path: &[u8]) {
    let typed = Typed(path);
    let _ = println!(rt; "load: {typed} can't be read");
}

// The calls.
const HELP: [&str; 20] = [
    "help: fresh W H HOPPERS FILL U l r v   (FILL: all, none, or tiles as 0,2,3)",
    "      HOPPERS: a tile, or up to four as 0,3",
    "      fresh! with the same words: also where the floor holds canisters",
    "      book TILE NUMBER A B | stop TILE | repair TILE | round | rounds N | read TILE",
    "      book TILE NUMBER: at the free place with the lowest B, then the lowest A",
    "      keep NAME | recall NAME | forget NAME | layouts   (NAME: 1 to 8 letters A to Z)",
    "      list, then TILE NUMBER A B on a line each, then end: up to 64 bookings in one call",
    "      save FILE | load FILE | load! FILE   (load! also where the floor holds canisters)",
    "      plan: begins a plan anew | entry LABEL TILE [AFTER [AFTER]] | entries",
    "      offer: the lowest label that may be booked now | release LABEL: books it",
    "      put FLOOR: moves the floor to the barge, as its floor 0 to 3 | take FLOOR: moves it back",
    "      put! and take!: also where that gives up a floor that holds canisters",
    "      on FLOOR, then book, stop, repair or round: on the barge | allowance N | barge",
    "      show | throughput | help | quit | # a remark",
    "      why: of each tile that wasn't empty in the last round, that it moved or why it stood",
    "      throughput: closed rates in deliveries a round, over 256 rounds, and the open window",
    "      tile = column x H + row, from the south-west; rounds takes at most 100000",
    "      show: the north row first; of each tile its canisters, arrow and distance",
    "      XX stopped, - no arrow, -- no distance",
    "      a line has at most 400 bytes; a remark may have more",
];

pub fn help(rt: &impl Print) {
    for line in &HELP {
        let _ = println!(rt; "{line}");
    }
}
