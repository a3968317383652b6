// What a floor, a tile, a round and layouts look like in the console's words.
#![tactic(auto)]

use console_say::{Placed, canisters};
use floor::{Canister, Counters, DISTANCE_NONE, Delivery, Layout, Reason, Settings, Side, Tile};
use std::fmt;

fn letter(side: Side) -> char {
    match side {
        Side::WEST => 'W',
        Side::SOUTH => 'S',
        Side::NORTH => 'N',
        Side::EAST => 'E',
        _ => '-',
    }
}

// The beginning of a line about a floor of the barge; nothing for the floor that is no barge's.
#[derive(Clone, Copy)]
pub struct On(pub Option<u32>);

impl fmt::Display for On {
    fn fmt<W: fmt::Write>(&self, f: &mut fmt::Formatter<W>) -> fmt::Result {
        match self.0 {
            Some(floor) => write!(f, "on {floor}: "),
            None => Ok(()),
        }
    }
}

// The numbers that one hopper took.
#[derive(Clone, Copy)]
struct Taken(Delivery);

impl fmt::Display for Taken {
    fn fmt<W: fmt::Write>(&self, f: &mut fmt::Formatter<W>) -> fmt::Result {
        for number in self.0.numbers.iter().take(usize::from(self.0.count)) {
            write!(f, " {number}")?;
        }
        Ok(())
    }
}

// Whether some hopper took something.
pub fn some(all: &[Delivery; 4]) -> bool {
    all.iter().any(|d| d.count != 0)
}

// What a round delivered: one line for the only hopper, or for each of several that took something, in tile order.
pub fn delivered(rt: &impl Print, on: On, at: u64, hoppers: u64, all: &[Delivery; 4]) {
    if !some(all) {
        let _ = println!(rt; "{on}round {at}: delivered none");
        return;
    }
    if sets::size(hoppers) <= 1 {
        let taken = Taken(all[0]);
        let _ = println!(rt; "{on}round {at}: delivered{taken}");
        return;
    }
    for (t, d) in (0..64).filter(|t| sets::holds(hoppers, *t)).zip(all) {
        if d.count != 0 {
            let taken = Taken(*d);
            let _ = println!(rt; "{on}round {at}: delivered at {t}:{taken}");
        }
    }
}

// A distance, or that there is none.
#[derive(Clone, Copy)]
struct Distance(u8);

impl fmt::Display for Distance {
    fn fmt<W: fmt::Write>(&self, f: &mut fmt::Formatter<W>) -> fmt::Result {
        match self.0 {
            DISTANCE_NONE => write!(f, "--"),
            n => write!(f, "{n}"),
        }
    }
}

// A tile with its canisters.
pub fn reading(rt: &impl Print, at: u32, tile: Tile, members: &[Canister; 16]) {
    let _ = print!(rt; "read: tile {at} ");
    if tile.running == 0 {
        let _ = print!(rt; "stopped, ");
    } else {
        let distance = Distance(tile.distance);
        let arrow = letter(tile.next);
        let turn = letter(tile.token);
        let _ = print!(rt; "running, distance {distance}, arrow {arrow}, turn {turn}, ");
    }
    let n = tile.count;
    let what = canisters(u64::from(n));
    let _ = print!(rt; "{n} {what}");
    for c in members.iter().take(usize::from(n)) {
        let placed = Placed(*c);
        let _ = print!(rt; ", {placed}");
    }
    let _ = println!(rt; "");
}

// The tiles of a set.
#[derive(Clone, Copy)]
struct Tiles(u64);

impl fmt::Display for Tiles {
    fn fmt<W: fmt::Write>(&self, f: &mut fmt::Formatter<W>) -> fmt::Result {
        let set = self.0;
        for (k, t) in (0..64).filter(|t| sets::holds(set, *t)).enumerate() {
            if 0 < k {
                write!(f, ", ")?;
            }
            write!(f, "{t}")?;
        }
        Ok(())
    }
}

// Another floor, by the call named.
pub fn made(rt: &impl Print, call: &str, s: Settings) {
    let Settings {
        columns,
        rows,
        hoppers,
        ..
    } = s;
    let tiles = Tiles(hoppers);
    let s = if 1 < sets::size(hoppers) { "s" } else { "" };
    let _ = println!(rt; "{call}: {columns} x {rows} tiles, hopper{s} {tiles}");
}

// A name: its bytes before the first zero.
#[derive(Clone, Copy)]
struct Letters([u8; 8]);

impl fmt::Display for Letters {
    fn fmt<W: fmt::Write>(&self, f: &mut fmt::Formatter<W>) -> fmt::Result {
        for b in self.0.iter().take_while(|b| **b != 0) {
            f.write_char(char::from(*b))?;
        }
        Ok(())
    }
}

// A call about a name that was accepted.
pub fn named(rt: &impl Print, call: &str, letters: [u8; 8]) {
    let name = Letters(letters);
    let _ = println!(rt; "{call}: {name} done");
}

// The layouts that are held: the name of each, from its number, and its tiles.
pub fn layouts(rt: &impl Print, all: &[Layout; 8]) {
    if all[0].name == 0 {
        let _ = println!(rt; "layouts: none");
    }
    for layout in all {
        if layout.name != 0 {
            let name = Letters(layout.name.to_be_bytes());
            let tiles = Tiles(layout.set);
            let _ = println!(rt; "layouts: {name} runs {tiles}");
        }
    }
}

// n rounds gone; `at` counts all since the floor was fresh.
pub fn rounds(rt: &impl Print, n: u32, at: u64) {
    let _ = println!(rt; "rounds: {n} done, now at round {at}");
}

// How many each hopper took; of several, each with its tile.
#[derive(Clone, Copy)]
struct Counted {
    hoppers: u64,
    delivered: [u32; 4],
}

impl fmt::Display for Counted {
    fn fmt<W: fmt::Write>(&self, f: &mut fmt::Formatter<W>) -> fmt::Result {
        let Counted { hoppers, delivered } = *self;
        if sets::size(hoppers) <= 1 {
            return write!(f, "{}", delivered[0]);
        }
        let tiles = (0..64).filter(|t| sets::holds(hoppers, *t));
        for (k, (t, n)) in tiles.zip(&delivered).enumerate() {
            if 0 < k {
                write!(f, ", ")?;
            }
            write!(f, "{n} at {t}")?;
        }
        Ok(())
    }
}

// The counters of a floor and its rounds, to the line's end.
pub fn counters(rt: &impl Print, c: Counters, hoppers: u64, round: u64) {
    let Counters {
        last,
        booked,
        delivered,
    } = c;
    let counted = Counted { hoppers, delivered };
    let _ = println!(rt; "last {last}, booked {booked}, delivered {counted}, round {round}");
}

// What the reasons say, but that of a missing gap, which has its millimetres.
const REASONS: [(Reason, &str); 3] = [
    (Reason::Stopped, "stood: stopped"),
    (Reason::NoArrow, "stood: no arrow"),
    (Reason::Turn, "stood: the turn ahead was another's"),
];

// Why tile t stood, one line; nothing of an empty tile, nor where no tile is. Gives whether there was a line.
fn why_tile(rt: &impl Print, t: usize, n: u8, lack: u16) -> bool {
    if n == 0 || n == u8::from(Reason::Empty) {
        return false;
    }
    if n == u8::from(Reason::NoGap) {
        let _ = println!(rt; "      tile {t} stood: no gap ahead, {lack} mm missing");
        return true;
    }
    let mut said = "moved";
    for (why, words) in &REASONS {
        if u8::from(*why) == n {
            said = *words;
        }
    }
    let _ = println!(rt; "      tile {t} {said}");
    true
}

// Why the tiles stood in round `at`, by its report.
pub fn why(rt: &impl Print, at: u64, reasons: &[u8; 64], missing: &[u16; 64]) {
    let _ = println!(rt; "why: in round {at}");
    let mut some = false;
    for (t, (n, lack)) in reasons.iter().zip(missing).enumerate() {
        some |= why_tile(rt, t, *n, *lack);
    }
    if !some {
        let _ = println!(rt; "      all tiles were empty");
    }
}
