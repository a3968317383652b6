// Bookings without a place, through the compiled calls.
use floor::{Floor, Settings};
use trials_tally::floors::{anywhere, found};
use trials_tally::{Tally, floors};

// What bookings of the numbers 5, 6 and 7 on tile 0 answer, one after another.
fn three(f: Floor) -> [(u8, u16, u16); 3] {
    let g = anywhere(f, 0, 5);
    let h = anywhere(g, 0, 6);
    [found(f, 0, 5), found(g, 0, 6), found(h, 0, 7)]
}

// The lowest b, then the lowest a.
fn places(tally: &mut Tally<impl Print>) {
    let empty = floors::fresh(2, 1, 1, 1);
    tally.trial(
        "without a place: (0, 0) on an empty tile, then (40, 0), then (0, 40)",
        three(empty),
        [(0, 0, 0), (0, 40, 0), (0, 0, 40)],
    );
    tally.trial(
        "beside (31, 5): (0, 45), then (40, 45), then 40",
        three(floors::booked(empty, 0, 4, 31, 5)),
        [(0, 0, 45), (0, 40, 45), (40, 0, 0)],
    );
}

// The place found holds the canister, and the tile counts it.
fn held(tally: &mut Tally<impl Print>) {
    let empty = floors::fresh(2, 1, 1, 1);
    let f = anywhere(floors::booked(empty, 0, 4, 35, 30), 0, 5);
    let full = floors::booked(empty, 0, 4, 35, 35);
    tally.trial(
        "a place at b = U - l; beside (35, 35) there is none, 40",
        (
            floors::booking(f, 0, 6, 0, 70),
            floors::held(f, 0, 0),
            found(full, 0, 5),
            floors::held(anywhere(full, 0, 5), 0, 0),
        ),
        (34, 2, (40, 0, 0), 1),
    );
}

// The number that a booking without a place is refused by.
fn refusal(f: Floor, tile: u32, number: u32) -> u8 {
    let (refusal, ..) = found(f, tile, number);
    refusal
}

// 4, 5, 6, 31, 33, 40, each where the next holds too.
fn refusals(tally: &mut Tally<impl Print>) {
    let f = floors::booked(floors::fresh(2, 1, 1, 1), 0, 4, 35, 35);
    let stopped = calls::stop(f, 0).floor;
    tally.trial(
        "without a place: 4, 5, 6, 31, 33, 40 in this order",
        [
            refusal(stopped, 2, 0),
            refusal(stopped, 1, 0),
            refusal(stopped, 0, 0),
            refusal(stopped, 0, 4),
            refusal(f, 0, 4),
            refusal(f, 0, 5),
        ],
        [4, 5, 6, 31, 33, 40],
    );
}

// A tile is filled with sixteen, place by place; the seventeenth is 40.
fn sixteen(tally: &mut Tally<impl Print>) {
    let empty = calls::fresh(Settings {
        length: 21,
        gap: 0,
        ..floors::settings(2, 1, 1, 1, 20)
    })
    .floor;
    let f = (1..16).fold(empty, |f, number| anywhere(f, 0, number));
    let full = anywhere(f, 0, 16);
    tally.trial(
        "l 21, r 0: the sixteenth at (63, 63), the next is 40",
        (
            found(f, 0, 16),
            found(full, 0, 17),
            floors::held(full, 0, 0),
        ),
        ((0, 63, 63), (40, 0, 0), 16),
    );
}

pub fn all(tally: &mut Tally<impl Print>) {
    places(tally);
    held(tally);
    refusals(tally);
    sixteen(tally);
}
