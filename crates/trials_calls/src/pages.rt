// The page, through the compiled call.
use trials_tally::{Tally, floors};

// The request's example, in a buffer with two bytes more.
fn fresh(tally: &mut Tally<impl Print>) {
    let mut bytes = [b'.'; 20];
    let written = page_call::page(floors::fresh(2, 1, 1, 1), &mut bytes);
    tally.trial(
        "W 2: the page of 18 bytes, the two bytes after it stay",
        (
            written.refusal,
            written.length,
            bytes == *b"| 0 - --| 0 -  0|\n..",
        ),
        (0, 18, true),
    );
}

fn short(tally: &mut Tally<impl Print>) {
    let mut bytes = [b'.'; 17];
    let written = page_call::page(floors::fresh(2, 1, 1, 1), &mut bytes);
    tally.trial(
        "W 2: a buffer of 17 bytes is 43",
        (
            written.refusal,
            written.length,
            bytes == *b".................",
        ),
        (43, 0, true),
    );
}

// Settled, then tile 1, in the north-west, stopped, and a canister on tile 0, in the south-west.
fn square(tally: &mut Tally<impl Print>) {
    let f = floors::rounds(floors::fresh(2, 2, 3, 7), 3);
    let g = floors::booked(calls::stop(f, 1).floor, 0, 5, 0, 0);
    let mut bytes = [7u8; 36];
    let written = page_call::page(g, &mut bytes);
    tally.trial(
        "W 2, H 2, tile 1 stopped: the page has the north row first",
        (
            written.refusal,
            written.length,
            bytes == *b"| 0 - XX| 0 -  0|\n| 1 N  2| 0 N  1|\n",
        ),
        (0, 36, true),
    );
}

pub fn all(tally: &mut Tally<impl Print>) {
    fresh(tally);
    short(tally);
    square(tally);
}
