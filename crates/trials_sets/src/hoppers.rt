// Floors with several hoppers, through the compiled calls.
ghost use Rattle.std.specs.Prelude.{◌<◌};

use floor::Floor;
use trials_tally::floors::delivered;
use trials_tally::{Tally, floors};

fn fresh(columns: u8, rows: u8, hoppers: u64, sources: u64) -> Floor {
    floors::several(columns, rows, hoppers, sources).floor
}

// How many were delivered after n rounds to the hopper with k hoppers before it.
fn came(f: Floor, n: u8, k: usize) -> u32
    requires { k < 4 }
{
    floors::rounds(f, n).counters.delivered[k]
}

// No hopper passes anything on to the one beside it.
fn beside(tally: &mut Tally<impl Print>) {
    let one = floors::booked(fresh(4, 1, 6, 9), 0, 5, 0, 0);
    let f = floors::booked(one, 3, 6, 10, 0);
    tally.trial(
        "W 4, hoppers 1 and 2: each takes from its side",
        (
            [0, 1, 2, 3].map(|tile| floors::arrow(f, 1, tile)),
            delivered(f, 3, 0),
            delivered(f, 0, 1),
        ),
        ([4, 0, 0, 1], 5, 6),
    );
}

fn between(tally: &mut Tally<impl Print>) {
    let row = floors::booked(fresh(3, 1, 5, 2), 1, 5, 30, 30);
    let column = floors::booked(fresh(1, 3, 5, 2), 1, 5, 30, 30);
    tally.trial(
        "between hoppers 0 and 2: west in a row, south in a column",
        [row, column].map(|f| (floors::arrow(f, 1, 1), delivered(f, 1, 0), came(f, 2, 1))),
        [(1, 5, 0), (2, 5, 0)],
    );
}

fn together(tally: &mut Tally<impl Print>) {
    let one = floors::booked(fresh(4, 1, 9, 6), 1, 5, 70, 0);
    let f = floors::booked(one, 2, 6, 0, 0);
    tally.trial(
        "W 4, hoppers 0 and 3: round 4 delivers at both",
        [
            delivered(f, 2, 0),
            delivered(f, 2, 1),
            delivered(f, 3, 0),
            delivered(f, 3, 1),
            came(f, 4, 0),
            came(f, 4, 1),
        ],
        [0, 0, 5, 6, 1, 1],
    );
}

fn nothing_else(tally: &mut Tally<impl Print>) {
    let all = floors::several(2, 2, 15, 0);
    let f = all.floor;
    tally.trial(
        "W 2, H 2, four hoppers: a fill tile is 2, a booking 5, a stop 8",
        [
            all.refusal,
            floors::several(2, 2, 15, 8).refusal,
            floors::booking(f, 3, 5, 0, 0),
            calls::stop(f, 3).refusal,
            calls::round(f).refusal,
            floors::distance(f, 1, 3),
        ],
        [0, 2, 5, 8, 0, 0],
    );
}

// Tile 2 is as near to both. Canister 5 heads west until tile 1 stops.
fn cut_off(tally: &mut Tally<impl Print>) {
    let f = floors::booked(fresh(5, 1, 17, 14), 2, 5, 30, 0);
    let cut = calls::stop(floors::rounds(f, 2), 1).floor;
    tally.trial(
        "W 5, hoppers 0 and 4: tile 1 stopped, 5 is delivered at 4",
        (
            floors::arrow(f, 2, 2),
            floors::first(cut, 0, 2),
            floors::arrow(cut, 1, 2),
            delivered(cut, 7, 1),
            came(cut, 8, 0),
            came(cut, 8, 1),
        ),
        (1, (5, 10, 0), 4, 5, 0, 1),
    );
}

// 5 was delivered to hopper 0, 6 is still on tile 1.
fn image(tally: &mut Tally<impl Print>) {
    let one = floors::booked(fresh(3, 1, 5, 2), 1, 5, 10, 0);
    let f = floors::rounds(floors::booked(one, 1, 6, 60, 40), 1);
    let mut bytes = [7u8; 94];
    let mut again = [9u8; 94];
    let written = image_calls::write(f, &mut bytes);
    let loaded = image_calls::load(&bytes);
    let second = image_calls::write(loaded.floor, &mut again);
    tally.trial(
        "W 3, hoppers 0 and 2: an image of 94 bytes, loaded again",
        (
            written.length,
            loaded.refusal,
            second.length,
            bytes == again,
            came(loaded.floor, 0, 0),
            floors::first(loaded.floor, 1, 1),
        ),
        (94, 0, 94, true, 1, (6, 20, 40)),
    );
}

pub fn all(tally: &mut Tally<impl Print>) {
    beside(tally);
    between(tally);
    together(tally);
    nothing_else(tally);
    cut_off(tally);
    image(tally);
}
