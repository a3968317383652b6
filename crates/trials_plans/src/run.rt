// A plan run to its end: what is offered is released, and where nothing is, a round's report is handed in.
use floor::Floor;
use plan::{Entry, Plan};
use trials_tally::{Tally, floors};

// An entry with tile 0.
pub fn entry(label: u8, first: u8, second: u8, stage: u8, number: u32) -> Entry {
    Entry {
        tile: 0,
        number,
        label,
        first,
        second,
        stage,
    }
}

pub fn waiting(label: u8, first: u8, second: u8) -> Entry {
    entry(label, first, second, plan::WAITING, 0)
}

// The first `count` of four entries; the places after them hold what no plan may hold.
pub fn plan_of(count: u32, a: Entry, b: Entry, c: Entry, d: Entry) -> Plan {
    let mut entries = [entry(200, 200, 1, 7, 5); 64];
    entries[0] = a;
    entries[1] = b;
    entries[2] = c;
    entries[3] = d;
    Plan { entries, count }
}

// 4 after 2 and 3, both of them after 1.
pub fn diamond() -> Plan {
    plan_of(
        4,
        waiting(4, 2, 3),
        waiting(3, 1, 0),
        waiting(1, 0, 0),
        waiting(2, 1, 1),
    )
}

// The plan, the floor, and the labels released so far as decimals: no heap, so no list of any length.
#[derive(Clone, Copy)]
struct Run {
    floor: Floor,
    plan: Plan,
    released: u64,
}

fn with_label(released: u64, label: u8) -> u64 {
    released % 1000000000 * 10 + u64::from(label)
}

// One step, in place: a run takes 9,480 bytes.
fn step(r: &mut Run) {
    let label = plan_calls::offer(r.plan).label;
    if label == 0 {
        let round = calls::round(r.floor);
        r.floor = round.floor;
        r.plan = plan_calls::report(r.plan, round.report).plan;
    } else {
        let answer = plan_calls::release(r.plan, r.floor, u32::from(label));
        r.floor = answer.floor;
        r.plan = answer.plan;
        r.released = with_label(r.released, label);
    }
}

// The stage and the number of an entry.
pub fn told(e: Entry) -> (u8, u32) {
    (e.stage, e.number)
}

// After n steps: what was released, the four entries, and how many were delivered.
fn shown(start: Run, n: u8) -> (u64, [(u8, u32); 4], u32) {
    let mut r = start;
    for _ in 0..n {
        step(&mut r);
    }
    let [a, b, c, d, ..] = r.plan.entries;
    (
        r.released,
        [a, b, c, d].map(told),
        r.floor.counters.delivered[0],
    )
}

pub fn all(tally: &mut Tally<impl Print>) {
    let start = Run {
        floor: floors::fresh(2, 1, 1, 1),
        plan: diamond(),
        released: 0,
    };
    tally.trial(
        "a plan of four: 1 alone is released first",
        shown(start, 2),
        (1, [(0, 0), (0, 0), (1, 1), (0, 0)], 0),
    );
    tally.trial(
        "run to its end: 1, then 2 and 3, then 4, all delivered",
        shown(start, 60),
        (1234, [(2, 4), (2, 3), (2, 1), (2, 2)], 4),
    );
}
