// Floors made through the calls, and what is looked at on them.
ghost use Rattle.std.specs.Prelude.{◌<◌};

use floor::{Answer, Canister, Floor, Name, Reading, Report, Settings};

// "U 100, l 30, r 10", travel v, with the given fill set.
pub fn settings(columns: u8, rows: u8, hopper: u8, sources: u64, travel: u16) -> Settings {
    Settings {
        columns,
        rows,
        hoppers: sets::single(hopper),
        sources,
        width: 100,
        length: 30,
        gap: 10,
        travel,
    }
}

pub fn fresh(columns: u8, rows: u8, hopper: u8, sources: u64) -> Floor {
    calls::fresh(settings(columns, rows, hopper, sources, 20)).floor
}

// A set of hoppers.
pub fn several(columns: u8, rows: u8, hoppers: u64, sources: u64) -> Answer {
    calls::fresh(Settings {
        hoppers,
        ..settings(columns, rows, 0, sources, 20)
    })
}

pub fn canister(number: u32, a: u16, b: u16) -> Canister {
    Canister { number, a, b }
}

// What booking canister `number` at (a, b) answers.
pub fn book(f: Floor, tile: u32, number: u32, a: u16, b: u16) -> Answer {
    calls::book(f, tile, canister(number, a, b))
}

pub fn booked(f: Floor, tile: u32, number: u32, a: u16, b: u16) -> Floor {
    book(f, tile, number, a, b).floor
}

// The number that the booking is refused by.
pub fn booking(f: Floor, tile: u32, number: u32, a: u16, b: u16) -> u8 {
    book(f, tile, number, a, b).refusal
}

// The floor after a booking without a place.
pub fn anywhere(f: Floor, tile: u32, number: u32) -> Floor {
    calls::book_anywhere(f, tile, number).floor
}

// What a booking without a place answers: the refusal, and the place found.
pub fn found(f: Floor, tile: u32, number: u32) -> (u8, u16, u16) {
    let answer = calls::book_anywhere(f, tile, number);
    (answer.refusal, answer.a, answer.b)
}

// The name of one letter.
pub fn name(letter: u8) -> Name {
    Name {
        letters: [letter, 0, 0, 0, 0, 0, 0, 0],
    }
}

// The floor after its running tiles were kept under a name of one letter.
pub fn kept(f: Floor, letter: u8) -> Floor {
    calls::keep(f, name(letter)).floor
}

// n rounds.
pub fn rounds(mut f: Floor, n: u8) -> Floor {
    for _ in 0..n {
        f = calls::round(f).floor;
    }
    f
}

// The tile after n rounds.
fn reading(f: Floor, n: u8, tile: u32) -> Reading {
    calls::read(rounds(f, n), tile)
}

// What the round after n rounds reports.
fn report(f: Floor, n: u8) -> Report {
    calls::round(rounds(f, n)).report
}

// The number and the place of the tile's first canister after n rounds; zeros where there is none.
pub fn first(f: Floor, n: u8, tile: u32) -> (u32, u16, u16) {
    let Canister { number, a, b } = reading(f, n, tile).members[0];
    (number, a, b)
}

// How many canisters the tile has after n rounds.
pub fn held(f: Floor, n: u8, tile: u32) -> u8 {
    reading(f, n, tile).tile.count
}

pub fn distance(f: Floor, n: u8, tile: u32) -> u8 {
    reading(f, n, tile).tile.distance
}

pub fn arrow(f: Floor, n: u8, tile: u32) -> u8 {
    reading(f, n, tile).tile.next.code
}

// The first number that the round after n rounds delivers to the hopper with k before it; 0 where there is none.
pub fn delivered(f: Floor, n: u8, k: usize) -> u32
    requires { k < 4 }
{
    report(f, n).deliveries[k].numbers[0]
}

// What tile 1 grants in the round after n rounds.
pub fn grant(f: Floor, n: u8) -> u8 {
    report(f, n).grants[1]
}

// Why tiles 0, 1 and 2 stood in the round after n rounds, then the millimetres missing beside each.
pub fn stood(f: Floor, n: u8) -> ([u8; 3], [u16; 3]) {
    let Report {
        reasons: [x, y, z, ..],
        missing: [i, j, k, ..],
        ..
    } = report(f, n);
    ([x, y, z], [i, j, k])
}
