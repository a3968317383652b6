// Trials of a barge through the compiled calls: every call on each floor, the allowance, and the other three floors.
#![tactic(auto)]

ghost use Rattle.std.specs.Prelude.{◌<◌};

use barge::Barge;
use floor::{Canister, Floor, zero_floor};
use trials_tally::floors::canister;
use trials_tally::{Tally, floors};

// Whether two floors have the same image. Not `==`: this tries too that both can be written.
fn same(x: Floor, y: Floor) -> bool {
    let mut first = [0u8; 128];
    let mut second = [0u8; 128];
    let a = image_calls::write(x, &mut first);
    let b = image_calls::write(y, &mut second);
    a.refusal == 0 && b.refusal == 0 && first == second
}

// A refusal, and which floors are as they were.
type Told = (u8, [bool; 4]);

fn told(refusal: u8, now: Barge, was: Barge) -> Told {
    let [a, b, c, d] = now.floors;
    let [f, g, h, i] = was.floors;
    (refusal, [same(a, f), same(b, g), same(c, h), same(d, i)])
}

// What is due of a call on each floor: accepted, and the other three are as they were.
const ALONE: [Told; 4] = [
    (0, [false, true, true, true]),
    (0, [true, false, true, true]),
    (0, [true, true, false, true]),
    (0, [true, true, true, false]),
];

// Floors 1 and 2 hold canister 9 at (0, 0) on tile 0, floor 3 canister 7 at (35, 35), which leaves no place; floor 0 is
// empty.
fn some(allowance: u32) -> Barge {
    let f = floors::fresh(2, 1, 1, 1);
    let one = floors::booked(f, 0, 9, 0, 0);
    let blocked = floors::booked(f, 0, 7, 35, 35);
    Barge {
        floors: [f, one, one, blocked],
        allowance,
    }
}

// Every floor holds canister 5, which the next round delivers.
fn near(allowance: u32) -> Barge {
    let f = floors::booked(floors::fresh(2, 1, 1, 1), 0, 5, 70, 0);
    Barge {
        floors: [f; 4],
        allowance,
    }
}

fn book(b: Barge, floor: u32, tile: u32, c: Canister) -> u8 {
    barge_calls::book(b, floor, tile, c).refusal
}

fn anywhere(b: Barge, floor: u32, number: u32) -> u8 {
    barge_calls::book_anywhere(b, floor, 0, number).refusal
}

fn stop(b: Barge, floor: u32) -> u8 {
    barge_calls::stop(b, floor, 0).refusal
}

fn repair(b: Barge, floor: u32) -> u8 {
    barge_calls::repair(b, floor, 0).refusal
}

fn round(b: Barge, floor: u32) -> u8 {
    barge_calls::round(b, floor).refusal
}

// One function for each call: with the calls passed in, each would still take its own answer apart, of three types.
fn booked(floor: u32) -> Told {
    let b = near(5);
    let answer = barge_calls::book(b, floor, 0, canister(10, 0, 40));
    told(answer.refusal, answer.barge, b)
}

fn placed(floor: u32) -> Told {
    let b = near(5);
    let answer = barge_calls::book_anywhere(b, floor, 0, 10);
    told(answer.refusal, answer.barge, b)
}

// The place that a booking without one tells, beside (0, 0) and where there is none.
fn place(floor: u32) -> (u16, u16) {
    let answer = barge_calls::book_anywhere(some(9), floor, 0, 10);
    (answer.a, answer.b)
}

// The barge with tile 0 of a floor stopped.
fn idle(floor: u32) -> Barge {
    barge_calls::stop(some(1), floor, 0).barge
}

fn stopped(floor: u32) -> Told {
    let b = some(1);
    let answer = barge_calls::stop(b, floor, 0);
    told(answer.refusal, answer.barge, b)
}

fn repaired(floor: u32) -> Told {
    let b = idle(floor);
    let answer = barge_calls::repair(b, floor, 0);
    told(answer.refusal, answer.barge, b)
}

fn moved(floor: u32) -> Told {
    let b = near(1);
    let answer = barge_calls::round(b, floor);
    told(answer.refusal, answer.barge, b)
}

// The first number that a round on the floor delivers.
fn delivery(floor: u32) -> u32 {
    let report = barge_calls::round(near(1), floor).report;
    report.deliveries[0].numbers[0]
}

// Every call on each floor: bookings below the allowance, the others above it.
fn each(tally: &mut Tally<impl Print>) {
    let all = [0, 1, 2, 3];
    tally.trial(
        "a booking on each floor changes that floor alone",
        all.map(booked),
        ALONE,
    );
    tally.trial(
        "a booking without a place, with the place told",
        (all.map(placed), place(1), place(3)),
        (ALONE, (40, 0), (0, 0)),
    );
    tally.trial(
        "a stop; a second one is 31",
        (all.map(stopped), stop(idle(2), 2), stop(idle(2), 1)),
        (ALONE, 31, 0),
    );
    tally.trial(
        "a repair; of another floor's tile 32",
        (all.map(repaired), repair(idle(2), 1)),
        (ALONE, 32),
    );
    tally.trial(
        "a round, with what that floor delivers",
        (all.map(moved), delivery(1), delivery(4)),
        (ALONE, 5, 0),
    );
}

// Three are aboard.
fn limits(tally: &mut Tally<impl Print>) {
    let c = canister(10, 0, 40);
    let at = some(3);
    let above = some(2);
    tally.trial(
        "one below the allowance a booking of either sort is accepted; at it 50, on the empty floor too",
        [
            book(some(4), 0, 0, c),
            anywhere(some(4), 1, 10),
            book(at, 0, 0, c),
            book(at, 2, 0, c),
            anywhere(at, 0, 10),
            anywhere(at, 1, 10),
        ],
        [0, 0, 50, 50, 50, 50],
    );
    tally.trial(
        "above it 50 for bookings of either sort; stop, repair and round are as on a lone floor",
        [
            book(above, 0, 0, c),
            anywhere(above, 1, 10),
            stop(above, 0),
            repair(above, 0),
            round(above, 1),
        ],
        [50, 50, 0, 32, 0],
    );
    tally.trial(
        "4, 5, 6, 33, 34 and 40 come before 50",
        [
            book(at, 1, 2, c),
            book(at, 1, 1, c),
            book(at, 1, 0, canister(0, 0, 40)),
            book(at, 1, 0, canister(9, 0, 40)),
            book(at, 1, 0, canister(10, 39, 39)),
            anywhere(at, 3, 10),
        ],
        [4, 5, 6, 33, 34, 40],
    );
}

fn delivered(tally: &mut Tally<impl Print>) {
    let c = canister(10, 0, 40);
    let full = near(4);
    let fewer = barge_calls::round(full, 2);
    let more = barge_calls::book(fewer.barge, 1, 0, c);
    tally.trial(
        "four aboard, four allowed: 50; after a delivery a booking is accepted, the next is 50",
        [
            book(full, 1, 0, c),
            fewer.refusal,
            more.refusal,
            book(more.barge, 1, 0, canister(11, 40, 40)),
            anywhere(more.barge, 0, 11),
        ],
        [50, 0, 0, 50, 50],
    );
}

// A barge whose floor `k` is malformed.
fn malformed(k: usize) -> Barge
    requires { k < 4 }
{
    let mut b = Barge {
        floors: [floors::fresh(2, 1, 1, 1); 4],
        allowance: 9,
    };
    b.floors[k] = zero_floor();
    b
}

fn wrong(tally: &mut Tally<impl Print>) {
    let c = canister(10, 0, 40);
    let b = some(9);
    tally.trial(
        "a floor's number from 4 on is 49 and not cut; 30 comes before it",
        [
            book(b, 4, 0, c),
            anywhere(b, 256, 10),
            stop(b, 65536),
            repair(b, 4294967292),
            round(b, 4294967295),
            round(some(0), 4),
        ],
        [49, 49, 49, 49, 49, 30],
    );
    tally.trial(
        "an allowance of 0 and of 4,033 is 30, of 1 and of 4,032 is not",
        [
            round(some(0), 0),
            round(some(1), 0),
            round(some(4032), 0),
            round(some(4033), 0),
            stop(some(0), 0),
            book(some(4294967295), 0, 0, c),
        ],
        [30, 0, 0, 30, 30, 30],
    );
    tally.trial(
        "one malformed floor is 30, whichever it is and whichever is named",
        [
            book(malformed(0), 1, 0, c),
            anywhere(malformed(1), 0, 10),
            stop(malformed(2), 3),
            repair(malformed(3), 2),
            round(malformed(3), 3),
            round(malformed(0), 4),
        ],
        [30; 6],
    );
}

fn main(rt: HostRuntime) {
    let mut tally = Tally::new(&rt);
    each(&mut tally);
    limits(&mut tally);
    delivered(&mut tally);
    wrong(&mut tally);
    tally.end();
}
