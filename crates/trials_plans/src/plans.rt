// What the calls of a plan refuse, and what they mark.
use crate::run::{diamond, entry, plan_of, told, waiting};
use floor::{Delivery, Floor, Report};
use malformed_calls::release_refuses;
use plan::{Entry, Plan};
use trials_tally::{Tally, floors};

// What an offer answers: the label, and the refusal.
fn offered(p: Plan) -> (u8, u8) {
    let o = plan_calls::offer(p);
    (o.label, o.refusal)
}

// The number of a refused release; none where anything else changed.
fn refused(p: Plan, f: Floor, label: u32) -> Option<u8> {
    let refusal = plan_calls::release(p, f, label).refusal;
    release_refuses(p, f, label, refusal).then_some(refusal)
}

// A report with nothing but a list for the second hopper.
fn report_of(count: u8, numbers: [u32; 4]) -> Report {
    let mut given = Report::ZERO;
    given.deliveries[1] = Delivery { numbers, count };
    given
}

// The number of a refused report; none where the plan changed.
fn unmarked(p: Plan, given: Report) -> Option<u8> {
    let answer = plan_calls::report(p, given);
    (answer.plan == p).then_some(answer.refusal)
}

// What an offer answers, and the numbers that release and report refuse the plan by.
type Thrice = ((u8, u8), Option<u8>, Option<u8>);

fn thrice(p: Plan) -> Thrice {
    let f = floors::fresh(2, 1, 1, 1);
    (offered(p), refused(p, f, 1), unmarked(p, Report::ZERO))
}

// What is due of a plan that every call refuses by this number.
fn by(refusal: u8) -> Thrice {
    ((0, refusal), Some(refusal), Some(refusal))
}

fn pair(a: Entry, b: Entry) -> Plan {
    plan_of(2, a, b, a, a)
}

fn unsound(tally: &mut Tally<impl Print>) {
    tally.trial(
        "30 from every call: 65 entries, a predecessor waiting or booked, one of two such labels, a number twice, an entry after itself",
        [
            thrice(plan_of(
                65,
                waiting(1, 0, 0),
                waiting(2, 0, 0),
                waiting(3, 0, 0),
                waiting(4, 0, 0),
            )),
            thrice(pair(waiting(1, 0, 0), entry(2, 1, 0, 1, 5))),
            thrice(pair(entry(1, 0, 0, 3, 6), entry(2, 0, 1, 2, 5))),
            thrice(plan_of(
                3,
                entry(70, 0, 0, 2, 6),
                entry(70, 0, 0, 0, 6),
                entry(2, 70, 0, 1, 5),
                waiting(4, 0, 0),
            )),
            thrice(pair(entry(1, 0, 0, 1, 6), entry(2, 0, 0, 255, 6))),
            thrice(pair(entry(2, 2, 0, 1, 6), waiting(1, 0, 0))),
        ],
        [by(30); 6],
    );
}

fn misfit(tally: &mut Tally<impl Print>) {
    tally.trial(
        "47 from every call: a label twice, 0, 65, a predecessor absent, not lower, a delivered entry after itself",
        [
            thrice(pair(waiting(1, 0, 0), waiting(1, 0, 0))),
            thrice(pair(waiting(1, 0, 0), waiting(0, 0, 0))),
            thrice(pair(waiting(1, 0, 0), waiting(65, 0, 0))),
            thrice(pair(waiting(1, 0, 0), waiting(3, 2, 0))),
            thrice(pair(waiting(1, 0, 2), waiting(2, 0, 0))),
            thrice(pair(entry(2, 2, 0, 2, 6), waiting(1, 0, 0))),
        ],
        [by(47); 6],
    );
}

fn offers(tally: &mut Tally<impl Print>) {
    let one = waiting(1, 0, 0);
    tally.trial(
        "offered: the lowest that is ready; none while its predecessor is booked, and at the end",
        [
            offered(diamond()),
            offered(pair(waiting(64, 0, 0), waiting(63, 0, 0))),
            offered(pair(entry(1, 0, 0, 1, 9), waiting(2, 1, 0))),
            offered(pair(entry(1, 0, 0, 2, 9), waiting(2, 1, 1))),
            offered(pair(entry(1, 0, 0, 2, 9), entry(2, 1, 0, 2, 9))),
            offered(plan_of(0, one, one, one, one)),
        ],
        [(1, 0), (63, 0), (0, 0), (2, 0), (0, 0), (0, 0)],
    );
}

// The last number booked is 7.
fn seventh() -> Floor {
    floors::booked(floors::fresh(2, 1, 1, 1), 0, 7, 35, 35)
}

fn unready(tally: &mut Tally<impl Print>) {
    let p = plan_of(
        4,
        waiting(1, 0, 0),
        waiting(2, 1, 0),
        entry(3, 0, 0, 1, 7),
        entry(4, 0, 0, 2, 8),
    );
    let f = seventh();
    tally.trial(
        "release: 48 for a label that waits for another, is booked, delivered, or in no entry, 257 too",
        [2, 3, 4, 5, 0, 257].map(|label| refused(p, f, label)),
        [Some(48); 6],
    );
}

// A plan of one entry on that tile, and one after it.
fn on_tile(tile: u32) -> Plan {
    let first = Entry {
        tile,
        ..waiting(1, 0, 0)
    };
    pair(first, waiting(2, 1, 0))
}

fn bookings(tally: &mut Tally<impl Print>) {
    let f = seventh();
    let stopped = calls::stop(f, 0).floor;
    let last = floors::booked(floors::fresh(2, 1, 1, 1), 0, 4294967295, 35, 35);
    tally.trial(
        "release: 4, 5, 31 and 40 of its booking; 33 with no number left, before 40",
        [
            refused(on_tile(2), f, 1),
            refused(on_tile(1), f, 1),
            refused(on_tile(0), stopped, 1),
            refused(on_tile(0), f, 1),
            refused(on_tile(0), last, 1),
        ],
        [4, 5, 31, 40, 33].map(Some),
    );
}

fn numbers(tally: &mut Tally<impl Print>) {
    let f = seventh();
    let zero = pair(waiting(1, 0, 0), entry(2, 0, 0, 1, 0));
    let above = pair(waiting(1, 0, 0), entry(2, 0, 0, 1, 8));
    let last = pair(waiting(1, 0, 0), entry(2, 0, 0, 1, 7));
    let mut malformed = f;
    malformed.settings.gap = 0;
    malformed.settings.rows = 9;
    tally.trial(
        "release: 30 for a booked number 0 or above the last, and on a malformed floor; an offer and a report take them",
        (
            [
                refused(zero, f, 1),
                refused(above, f, 1),
                refused(last, f, 1),
                refused(last, malformed, 48),
            ],
            offered(zero),
            unmarked(above, Report::ZERO),
        ),
        ([30, 30, 40, 30].map(Some), (1, 0), Some(0)),
    );
}

// The entries 1 and 2 after a report.
fn marked(p: Plan, given: Report) -> [(u8, u32); 2] {
    let [first, second, ..] = plan_calls::report(p, given).plan.entries;
    [first, second].map(told)
}

fn reports(tally: &mut Tally<impl Print>) {
    let p = pair(entry(1, 0, 0, 1, 5), entry(2, 0, 0, 9, 6));
    let none = pair(entry(1, 0, 0, 1, 0), entry(2, 0, 0, 0, 6));
    tally.trial(
        "report: what it lists is marked, not what stands behind its count, nor zero filling, nor an entry that waits; five for a hopper are 30",
        (
            [
                marked(p, report_of(2, [5, 6, 0, 0])),
                marked(p, report_of(2, [9, 6, 5, 0])),
                marked(p, report_of(0, [5, 6, 0, 0])),
                marked(none, report_of(3, [6, 7, 8, 0])),
                marked(none, report_of(4, [6, 7, 8, 0])),
            ],
            unmarked(p, report_of(5, [5, 6, 0, 0])),
        ),
        (
            [
                [(2, 5), (2, 6)],
                [(1, 5), (2, 6)],
                [(1, 5), (9, 6)],
                [(1, 0), (0, 6)],
                [(2, 0), (0, 6)],
            ],
            Some(30),
        ),
    );
}

pub fn all(tally: &mut Tally<impl Print>) {
    unsound(tally);
    misfit(tally);
    offers(tally);
    unready(tally);
    bookings(tally);
    numbers(tally);
    reports(tally);
}
