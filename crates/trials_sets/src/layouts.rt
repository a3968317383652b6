// Named layouts, through the compiled calls.
use floor::{Floor, Name};
use trials_tally::floors::{kept, name};
use trials_tally::{Tally, floors};

fn stopped(f: Floor, tile: u32) -> Floor {
    calls::stop(f, tile).floor
}

fn recalled(f: Floor, letter: u8) -> Floor {
    calls::recall(f, name(letter)).floor
}

fn forgotten(f: Floor, letter: u8) -> Floor {
    calls::forget(f, name(letter)).floor
}

fn keeping(f: Floor, x: Name) -> u8 {
    calls::keep(f, x).refusal
}

fn recalling(f: Floor, x: Name) -> u8 {
    calls::recall(f, x).refusal
}

fn forgetting(f: Floor, x: Name) -> u8 {
    calls::forget(f, x).refusal
}

fn runs(f: Floor, tile: u32) -> u8 {
    calls::read(f, tile).tile.running
}

// The first letter and the set of each of the first two layouts.
fn first_two(f: Floor) -> [(u8, u64); 2] {
    let [x, y, ..] = f.layouts;
    [x, y].map(|layout| (layout.name.to_be_bytes()[0], layout.set))
}

// W 4, H 1, hopper 3, canister 5 on tile 0, four rounds gone.
fn row() -> Floor {
    floors::rounds(floors::booked(floors::fresh(4, 1, 3, 1), 0, 5, 0, 0), 4)
}

// Tile 1 stops under B. A recall of A repairs it: it runs, its arrow is none; tile 2 keeps its own.
fn again(tally: &mut Tally<impl Print>) {
    let f = stopped(kept(row(), b'A'), 1);
    let g = recalled(kept(f, b'B'), b'A');
    tally.trial(
        "A keeps all, B all but tile 1: each recalled",
        [
            runs(g, 1),
            floors::distance(g, 0, 1),
            floors::distance(g, 0, 2),
            runs(recalled(g, b'B'), 1),
            runs(recalled(g, b'B'), 2),
            floors::distance(g, 1, 1),
        ],
        [1, 255, 1, 0, 1, 2],
    );
}

// Canisters and counters never go back: 5 has moved on and 6 is booked since A was kept.
fn onward(tally: &mut Tally<impl Print>) {
    let f = floors::booked(floors::rounds(kept(row(), b'A'), 2), 0, 6, 0, 40);
    let g = recalled(stopped(f, 1), b'A');
    tally.trial(
        "a recall leaves canisters and counters",
        (
            g.counters.last,
            g.counters.booked,
            floors::first(g, 0, 0),
            floors::held(g, 0, 0),
            floors::held(f, 0, 0),
            recalling(g, name(b'A')),
        ),
        (6, 2, (6, 0, 40), 1, 1, 0),
    );
}

// Eight names, the last first.
fn full(f: Floor) -> Floor {
    b"HGFEDCBA".iter().fold(f, |f, letter| kept(f, *letter))
}

fn numbers(tally: &mut Tally<impl Print>) {
    let f = full(row());
    let bad = Name {
        letters: *b"A\0B\0\0\0\0\0",
    };
    tally.trial(
        "layouts: bad names 44, not held 45, a ninth 46",
        [
            keeping(f, bad),
            recalling(f, name(0)),
            recalling(f, name(b'I')),
            forgetting(f, name(b'I')),
            keeping(f, name(b'I')),
            keeping(f, name(b'H')),
        ],
        [44, 44, 45, 45, 46, 0],
    );
}

// B is kept first, then A, which stands before it; A is replaced, then forgotten.
fn order(tally: &mut Tally<impl Print>) {
    let f = kept(kept(row(), b'B'), b'A');
    let g = kept(stopped(f, 1), b'A');
    let h = forgotten(g, b'A');
    tally.trial(
        "layouts by rising name: kept, replaced, forgotten",
        [f, g, h].map(first_two),
        [
            [(b'A', 15), (b'B', 15)],
            [(b'A', 13), (b'B', 15)],
            [(b'B', 15), (0, 0)],
        ],
    );
}

// A place is free again.
fn freed(tally: &mut Tally<impl Print>) {
    let g = forgotten(full(row()), b'D');
    let h = kept(g, b'I');
    tally.trial(
        "layouts: forgetting one of eight frees its place",
        (
            forgetting(g, name(b'D')),
            keeping(g, name(b'I')),
            keeping(h, name(b'D')),
            recalling(h, name(b'I')),
            first_two(h),
        ),
        (45, 0, 46, 0, [(b'A', 15), (b'B', 15)]),
    );
}

// The floor of 94 bytes with two hoppers, and two layouts of 20 bytes each.
fn image(tally: &mut Tally<impl Print>) {
    let fresh = floors::several(3, 1, 5, 2).floor;
    let one = floors::booked(fresh, 1, 5, 10, 0);
    let f = floors::rounds(floors::booked(one, 1, 6, 60, 40), 1);
    let g = kept(stopped(kept(f, b'A'), 1), b'B');
    let mut bytes = [7u8; 134];
    let mut again = [9u8; 134];
    let written = image_calls::write(g, &mut bytes);
    let loaded = image_calls::load(&bytes);
    let more = image_calls::write(loaded.floor, &mut again);
    tally.trial(
        "two layouts: an image of 134 bytes, loaded again",
        (
            written.length,
            loaded.refusal,
            more.length,
            bytes == again,
            first_two(loaded.floor),
        ),
        (134, 0, 134, true, [(b'A', 7), (b'B', 5)]),
    );
}

pub fn all(tally: &mut Tally<impl Print>) {
    again(tally);
    onward(tally);
    numbers(tally);
    order(tally);
    freed(tally);
    image(tally);
}
