// Document 01's trials on small floors, through the compiled calls.
use floor::Settings;
use trials_tally::{Tally, floors};

// W 2, hopper 1: canister 5 at (a, 0) on tile 0, and the rounds up to its delivery, with x, y and z in the place of a.
fn one_canister(tally: &mut Tally<impl Print>, name: &str, a: u16, [x, y, z]: [u16; 3]) {
    let f = floors::booked(floors::fresh(2, 1, 1, 1), 0, 5, a, 0);
    tally.trial(
        name,
        (
            floors::first(f, 1, 0),
            floors::first(f, 2, 0),
            floors::first(f, 3, 0),
            floors::delivered(f, 2, 0),
            floors::delivered(f, 3, 0),
            floors::held(f, 4, 0),
        ),
        ((5, x, 0), (5, y, 0), (5, z, 0), 0, 5, 0),
    );
}

fn deliveries(tally: &mut Tally<impl Print>) {
    one_canister(
        tally,
        "W 2, canister at a = 0, delivered in round 4",
        0,
        [20, 40, 60],
    );
    one_canister(
        tally,
        "W 2, canister at a = 10, delivered in round 4",
        10,
        [30, 50, 70],
    );
}

fn bookings(tally: &mut Tally<impl Print>) {
    let empty = floors::fresh(2, 1, 1, 1);
    let f = floors::booked(empty, 0, 5, 0, 0);
    let beside = floors::booked(f, 0, 6, 40, 0);
    tally.trial(
        "beside (0, 0): (39, 39) is 34, (40, 0) accepted",
        [
            floors::booking(f, 0, 6, 39, 39),
            floors::booking(f, 0, 6, 40, 0),
            floors::held(beside, 0, 0),
        ],
        [34, 0, 2],
    );
    tally.trial(
        "a = 70 accepted, 71 is 7",
        [
            floors::booking(empty, 0, 5, 70, 0),
            floors::booking(empty, 0, 5, 71, 0),
        ],
        [0, 7],
    );
}

// W 2, hopper 1 and this travel.
fn travelling(travel: u16) -> Settings {
    floors::settings(2, 1, 1, 1, travel)
}

// v 10, r 0 and the given l.
fn short(length: u16) -> Settings {
    Settings {
        length,
        gap: 0,
        ..travelling(10)
    }
}

fn measures(tally: &mut Tally<impl Print>) {
    tally.trial(
        "v 29 accepted, v 30 is 3",
        [travelling(29), travelling(30)].map(|s| calls::fresh(s).refusal),
        [0, 3],
    );
    tally.trial(
        "v 10, r 0: l 20 is 3, l 21 accepted",
        [short(20), short(21)].map(|s| calls::fresh(s).refusal),
        [3, 0],
    );
}

fn westward(tally: &mut Tally<impl Print>) {
    let f = floors::booked(floors::fresh(3, 1, 0, 6), 2, 5, 5, 0);
    tally.trial(
        "W 3, hopper 0: after two rounds on tile 1 at (70, 0)",
        (floors::first(f, 2, 1), floors::held(f, 2, 2)),
        ((5, 70, 0), 0),
    );
}

fn distances(tally: &mut Tally<impl Print>) {
    let f = floors::rounds(floors::fresh(4, 1, 0, 14), 3);
    tally.trial(
        "W 4, hopper 0: settled distances 0, 1, 2, 3",
        [0, 1, 2, 3].map(|tile| floors::distance(f, 0, tile)),
        [0, 1, 2, 3],
    );
    let answer = calls::stop(f, 1);
    let cut = answer.floor;
    tally.trial(
        "tile 1 stopped: none and 3, then none and none",
        [
            answer.refusal,
            floors::distance(cut, 0, 1),
            floors::distance(cut, 1, 2),
            floors::distance(cut, 1, 3),
            floors::distance(cut, 2, 2),
            floors::distance(cut, 2, 3),
        ],
        [0, 255, 255, 3, 255, 255],
    );
}

fn ties_and_turns(tally: &mut Tally<impl Print>) {
    let square = floors::fresh(2, 2, 3, 7);
    tally.trial(
        "W 2, H 2, hopper 3: tile 0's arrow is north",
        floors::arrow(square, 3, 0),
        3,
    );
    let f = floors::booked(floors::fresh(3, 1, 1, 5), 0, 5, 0, 0);
    let both = floors::booked(f, 2, 6, 0, 0);
    tally.trial(
        "W 3, hopper 1: grants west, then east",
        [floors::grant(both, 0), floors::grant(both, 1)],
        [1, 4],
    );
}

// Document 02's [6].
fn reasons(tally: &mut Tally<impl Print>) {
    let f = floors::booked(floors::fresh(3, 1, 1, 5), 0, 5, 0, 0);
    let both = floors::booked(f, 2, 6, 0, 0);
    tally.trial(
        "W 3, hopper 1: tile 0 moves, tile 2 waits for its turn",
        floors::stood(both, 0),
        ([6, 2, 4], [0, 0, 0]),
    );
    let g = floors::booked(floors::fresh(3, 1, 2, 3), 0, 5, 0, 0);
    let row = floors::booked(g, 1, 6, 0, 0);
    tally.trial(
        "W 3, hopper 2: tile 0 has no arrow yet",
        floors::stood(row, 0),
        ([3, 6, 2], [0, 0, 0]),
    );
    tally.trial(
        "then no gap, 20 missing",
        floors::stood(row, 1),
        ([5, 6, 2], [20, 0, 0]),
    );
}

// "The fresh W 2 floor has an image of 64 bytes"; by [9] one byte is still 9.
fn image(tally: &mut Tally<impl Print>) {
    let mut bytes = [7u8; 64];
    let one = image_calls::load(&bytes[..1]);
    let three = image_calls::load(&bytes[..3]);
    let written = image_calls::write(floors::fresh(2, 1, 1, 1), &mut bytes);
    let whole = image_calls::load(&bytes);
    tally.trial(
        "W 2: an image of 64 bytes, one and three bytes are 9",
        (
            written.refusal,
            written.length,
            whole.refusal,
            one.refusal,
            three.refusal,
        ),
        (0, 64, 0, 9, 9),
    );
}

// [9]: "Zero bytes now load the standard floor, fresh: W 4, H 4, hopper 10, fill tile 4, U 1,000, l 250, r 50, v 200."
fn blank(tally: &mut Tally<impl Print>) {
    let mut bytes = [7u8; 204];
    let empty = image_calls::load(&bytes[..0]);
    let s = empty.floor.settings;
    let written = image_calls::write(empty.floor, &mut bytes);
    tally.trial(
        "zero bytes load 4 x 4, hopper 10, fill tile 4",
        (
            empty.refusal,
            s.columns,
            s.rows,
            s.hoppers,
            s.sources,
            written.length,
        ),
        (0, 4, 4, 1024, 16, 204),
    );
    tally.trial(
        "with U 1000, l 250, r 50, v 200",
        [s.width, s.length, s.gap, s.travel],
        [1000, 250, 50, 200],
    );
}

pub fn all(tally: &mut Tally<impl Print>) {
    deliveries(tally);
    bookings(tally);
    measures(tally);
    westward(tally);
    distances(tally);
    ties_and_turns(tally);
    reasons(tally);
    image(tally);
    blank(tally);
}
