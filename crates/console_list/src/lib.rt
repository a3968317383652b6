// A list of bookings as it is typed: its entries so far, and their answers told.
#![tactic(auto)]

ghost use Rattle.std.specs.Prelude.{◌≡◌};
ghost use Rattle.console_list.specs.Entries.{with_entry, no_entries};

use floor::{Booking, Canister};

// The first 64 entries typed (fixed memory: no heap), how many were typed (65: more than 64), and whether a list is begun.
#[derive(Clone, Copy)]
pub struct Entries {
    pub list: [Booking; 64],
    pub count: usize,
    pub begun: bool,
}

// No entries.
pub fn none(begun: bool) -> Entries
    ensures { result ≡ no_entries begun }
{
    let nothing = Booking {
        tile: 0,
        canister: Canister::ZERO,
        answer: 0,
    };
    Entries {
        list: [nothing; 64],
        count: 0,
        begun,
    }
}

// One more.
pub fn with_entry(e: Entries, b: Booking) -> Entries
    ensures { result ≡ with_entry e b }
{
    let mut next = e;
    let k = e.count;
    if k < 64 {
        next.list[k] = b;
        next.count = k + 1;
    } else {
        next.count = 65;
    }
    next
}

// An entry with its answer: the `at`th of the list.
fn tell_one(rt: &impl Print, at: u8, b: Booking) {
    let _ = print!(rt; "list {at}: ");
    if b.answer != 0 {
        console_say::refused(rt, "book", b.answer);
    } else {
        console_say::booked(rt, b.canister, b.tile);
    }
}

// The answers of the first n.
pub fn tell(rt: &impl Print, list: &[Booking; 64], n: usize) {
    if n == 0 {
        let _ = println!(rt; "list: no entries");
    }
    for (at, b) in (1..=64).zip(list).take(n) {
        tell_one(rt, at, *b);
    }
}
