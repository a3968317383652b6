// Whether every call that takes a floor refuses one that isn't well formed: 30 and the same floor, zeros for a reading
// and for a bound, the same bytes for a writing and for a page; a list of bookings answers 30 in every entry; a release
// gives the plan back too.
#![tactic(auto)]

use floor::{Answer, Booking, Canister, Floor, Placed, Reading, Report, Rounded, Tile};
use plan::{Entry, Plan, Released};
use trials_tally::{Tally, floors};

// A bound: 30, and zeros.
fn counts_nothing(f: Floor) -> bool {
    let r = calls::bound(f);
    (r.refusal, r.rounds, r.connected, r.unconnected) == (30, 0, 0, 0)
}

// Writing answers 30 and leaves the buffer.
fn unwritten(f: Floor) -> bool {
    let mut bytes = [7u8; 64];
    let w = image_calls::write(f, &mut bytes);
    (w.refusal, w.length, bytes) == (30, 0, [7; 64])
}

// So does the page, in a buffer that is too short as well.
fn unprinted(f: Floor) -> bool {
    let mut bytes = [7u8; 8];
    let w = page_call::page(f, &mut bytes);
    (w.refusal, w.length, bytes) == (30, 0, [7; 8])
}

// Whether a release is refused by that number, with zeros and the same floor and plan.
pub fn release_refuses(plan: Plan, floor: Floor, label: u32, refusal: u8) -> bool {
    plan_calls::release(plan, floor, label)
        == Released {
            floor,
            plan,
            number: 0,
            a: 0,
            b: 0,
            refusal,
        }
}

// A plan of one entry that waits: label 1, tile 1.
fn short_plan() -> Plan {
    let mut entries = [Entry::ZERO; 64];
    entries[0] = Entry {
        tile: 1,
        label: 1,
        ..Entry::ZERO
    };
    Plan { entries, count: 1 }
}

// A list of n bookings: the number that it is refused by, 30 in the first `written` entries, and the same floor.
fn list_refuses(f: Floor, n: usize, refusal: u8, written: usize) -> bool {
    let entry = Booking {
        tile: 1,
        canister: floors::canister(900, 0, 0),
        answer: 99,
    };
    let made = calls::book_places(f, [entry; 64], n);
    let mut due = [entry; 64];
    for b in due.iter_mut().take(written) {
        b.answer = 30;
    }
    made.refusal == refusal && made.list == due && made.floor == f
}

// Book with and without a place, lists of 5, 64 and 65 bookings, stop, repair, round, read, bound, write, page, keep,
// forget, recall and release.
pub fn all_refuse(f: Floor) -> bool {
    let refused = Answer {
        floor: f,
        refusal: 30,
    };
    let a = floors::name(b'A');
    floors::book(f, 1, 900, 0, 0) == refused
        && calls::stop(f, 1) == refused
        && calls::repair(f, 1) == refused
        && calls::keep(f, a) == refused
        && calls::forget(f, a) == refused
        && calls::recall(f, a) == refused
        && calls::book_anywhere(f, 1, 900)
            == Placed {
                floor: f,
                a: 0,
                b: 0,
                refusal: 30,
            }
        && calls::round(f)
            == Rounded {
                floor: f,
                report: Report::ZERO,
                refusal: 30,
            }
        && calls::read(f, 0)
            == Reading {
                refusal: 30,
                tile: Tile::ZERO,
                members: [Canister::ZERO; 16],
            }
        && counts_nothing(f)
        && unwritten(f)
        && unprinted(f)
        && list_refuses(f, 5, 0, 5)
        && list_refuses(f, 64, 0, 64)
        && list_refuses(f, 65, 42, 0)
        && release_refuses(short_plan(), f, 1, 30)
}

// A trial: the calls on the floor after this damage.
pub fn refused<F: FnOnce(&mut Floor)>(
    tally: &mut Tally<impl Print>,
    f: &Floor,
    name: &str,
    damage: F,
)
    requires { F.IsAlwaysCallable damage }
{
    let mut damaged = *f;
    damage(&mut damaged);
    tally.tell(
        format_args!("malformed, {name}"),
        all_refuse(damaged),
        "not 30 with the same floor from every call",
    );
}
