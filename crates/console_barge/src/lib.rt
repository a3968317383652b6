// A barge as it is typed: four floors, put there and taken from there, and their joint allowance.
#![tactic(auto)]

ghost use Rattle.std.specs.Prelude.{◌≡◌, ◌<◌};
ghost use Rattle.console_barge.specs.Aboard.{start_barge, session_set, barge_set, place_of, floor_set};

use barge::Barge;
use console_session::Session;
use floor::{Floor, Refusal};

// The session, the barge beside it, and how many rounds each floor of the barge went.
#[derive(Clone, Copy)]
pub struct WithBarge {
    pub session: Session,
    pub barge: Barge,
    pub rounds: [u64; 4],
}

// A barge without floors: a floor of zeros stands for one that isn't there.
pub fn begin() -> WithBarge
    ensures { result ≡ start_barge }
{
    WithBarge {
        session: console_session::begin(),
        barge: Barge {
            floors: [floor::zero_floor(); 4],
            allowance: 0,
        },
        rounds: [0; 4],
    }
}

// With the session changed.
pub fn with_session(a: WithBarge, session: Session) -> WithBarge
    ensures { result ≡ session_set a session }
{
    WithBarge { session, ..a }
}

// With the barge changed.
pub fn with_barge(a: WithBarge, barge: Barge) -> WithBarge
    ensures { result ≡ barge_set a barge }
{
    WithBarge { barge, ..a }
}

pub fn cannot(rt: &impl Print, a: WithBarge, line: &[u8]) -> WithBarge
    ensures { result ≡ a }
{
    console_say::unreadable(rt, a.session.lines, line);
    a
}

// Sets the allowance. The calls refuse one that isn't 1 to 4,032.
pub fn allowance(rt: &impl Print, a: WithBarge, line: &[u8]) -> WithBarge {
    let Some(n) = console_parse::arguments(line, 1) else {
        return cannot(rt, a, line);
    };
    let allowance = n[0];
    let _ = println!(rt; "allowance: {allowance}");
    let barge = Barge {
        allowance,
        ..a.barge
    };
    with_barge(a, barge)
}

// The place of a floor that the barge has; 0 for any other number.
pub fn place(floor: u32) -> usize
    ensures { (result ≡ place_of floor) × (result < 4) }
{
    if floor < 4 { floor as usize } else { 0 }
}

// With another floor, or none, in the barge.
fn with_floor(a: WithBarge, number: u32, floor: Floor) -> WithBarge
    ensures { result ≡ floor_set a number floor }
{
    let k = place(number);
    let mut barge = a.barge;
    barge.floors[k] = floor;
    let mut next = with_barge(a, barge);
    next.rounds[k] = 0;
    next
}

// A floor of the barge.
fn floor_at(barge: Barge, number: u32) -> Floor {
    let k = place(number);
    barge.floors[k]
}

// A floor number that isn't 0 to 3, or a floor that isn't there.
fn no_floor(rt: &impl Print, call: &str, floor: u32) {
    if 3 < floor {
        console_say::refused_as(rt, call, u8::from(Refusal::NoFloor), &[NO_FLOOR]);
    } else {
        let _ = println!(rt; "{call}: the barge hasn't that floor");
    }
}

// What refusal 49 says.
pub const NO_FLOOR: (Refusal, &str) = (Refusal::NoFloor, "floor number not 0 to 3");

// Whether a floor is there.
fn is_there(f: Floor) -> bool {
    f.settings.columns != 0
}

// The canisters on a floor.
fn held(f: Floor) -> u64 {
    console_session::held(f.counters)
}

// A floor of the barge that `put` doesn't give up.
fn holds(rt: &impl Print, floor: u32, n: u64) {
    let what = console_say::canisters(n);
    let _ = println!(rt; "put: floor {floor} of the barge holds {n} {what}; put! gives it up");
}

// Moves the console's floor to the barge. A floor there that holds canisters is given up by `put!` alone.
pub fn put(rt: &impl Print, a: WithBarge, line: &[u8], give_up: bool) -> WithBarge {
    let Some(n) = console_parse::arguments(line, 1) else {
        return cannot(rt, a, line);
    };
    let number = n[0];
    if !a.session.made {
        console_say::no_floor(rt, "put");
        return a;
    }
    if 3 < number {
        no_floor(rt, "put", number);
        return a;
    }
    let there = held(floor_at(a.barge, number));
    if 0 < there && !give_up {
        holds(rt, number, there);
        return a;
    }
    let _ = println!(rt; "put: now floor {number} of the barge");
    let without = console_session::without_floor(rt, a.session);
    let next = with_floor(a, number, a.session.floor);
    with_session(next, without)
}

// Moves a floor of the barge to the console. The console's own, if it holds canisters, is given up by `take!` alone.
pub fn take(rt: &impl Print, a: WithBarge, line: &[u8], give_up: bool) -> WithBarge {
    let Some(n) = console_parse::arguments(line, 1) else {
        return cannot(rt, a, line);
    };
    let number = n[0];
    let floor = floor_at(a.barge, number);
    if 3 < number || !is_there(floor) {
        no_floor(rt, "take", number);
        return a;
    }
    let here = held(a.session.floor);
    if 0 < here && !give_up {
        console_say::holds(rt, "take", here);
        return a;
    }
    console_show::made(rt, "take", floor.settings);
    let with = console_session::begun(rt, a.session, floor);
    let next = with_floor(a, number, floor::zero_floor());
    with_session(next, with)
}

// The canisters on all four floors.
fn total(floors: &[Floor; 4]) -> u64 {
    let mut all: u64 = 0;
    for f in floors {
        all = all.wrapping_add(held(*f));
    }
    all
}

// A floor of the barge, in a line.
fn tell(rt: &impl Print, k: usize, f: Floor, rounds: u64) {
    let _ = print!(rt; "barge: floor {k}: ");
    if is_there(f) {
        console_show::counters(rt, f.counters, f.settings.hoppers, rounds);
    } else {
        let _ = println!(rt; "none");
    }
}

// Tells the allowance, the joint total, and each floor's counters.
pub fn barge(rt: &impl Print, a: WithBarge, line: &[u8]) -> WithBarge
    ensures { result ≡ a }
{
    if !console_parse::ended(line, 1) {
        return cannot(rt, a, line);
    }
    let allowance = a.barge.allowance;
    let aboard = total(&a.barge.floors);
    let _ = println!(rt; "barge: allowance {allowance}, aboard {aboard}");
    for (k, (f, rounds)) in a.barge.floors.iter().zip(&a.rounds).enumerate() {
        tell(rt, k, *f, *rounds);
    }
    a
}
