// A floor with three hoppers, and what makes it malformed.
use floor::Floor;
use malformed_calls::refused;
use trials_tally::{Tally, floors};

// W 3, H 2, hoppers 0, 1 and 5, canisters 3 and 4 on tile 2, the only fill tile; two rounds gone, in which hopper 0
// took 3.
pub fn sound_floor() -> Floor {
    let f = floors::several(3, 2, 35, 4).floor;
    let g = floors::booked(f, 2, 3, 10, 0);
    floors::rounds(floors::booked(g, 2, 4, 60, 40), 2)
}

// The calls accept it.
fn accepted(tally: &mut Tally<impl Print>, f: Floor) {
    tally.trial(
        "the floor with three hoppers: accepted",
        (
            floors::booking(f, 2, 900, 70, 0),
            calls::stop(f, 2).refusal,
            calls::stop(f, 1).refusal,
            calls::round(f).refusal,
            f.counters.delivered[0],
            floors::first(f, 0, 2),
        ),
        (0, 0, 8, 0, 1, (4, 20, 40)),
    );
}

// The set of hoppers, and what follows from it.
fn sets(tally: &mut Tally<impl Print>, f: &Floor) {
    // tiles 3 and 4 too: each has distance 0 and no arrow
    refused(tally, f, "five hoppers", |g| {
        g.settings.hoppers = 59;
        g.tiles[3].distance = 0;
        g.tiles[3].next.code = 0;
        g.tiles[4].distance = 0;
        g.tiles[4].next.code = 0;
    });
    // the three as ordinary tiles without a distance, and nothing delivered
    refused(tally, f, "no hopper", |g| {
        g.settings.hoppers = 0;
        g.tiles[0].distance = 255;
        g.tiles[1].distance = 255;
        g.tiles[5].distance = 255;
        g.counters.booked = 1;
        g.counters.delivered[0] = 0;
    });
    refused(
        tally,
        f,
        "a hopper off the floor",
        |g| g.settings.hoppers = 1152921504606847011,
    );
    refused(
        tally,
        f,
        "the second hopper in the fill set",
        |g| g.settings.sources = 6,
    );
    // the fourth place of the counters, with the total still right
    refused(tally, f, "a counter of no hopper not zero", |g| {
        g.counters.booked = 3;
        g.counters.delivered[3] = 1;
    });
}

// Tile 1.
fn second_hopper(tally: &mut Tally<impl Print>, f: &Floor) {
    refused(
        tally,
        f,
        "the second hopper stopped",
        |g| g.tiles[1].running = 0,
    );
    refused(
        tally,
        f,
        "the second hopper with distance 1",
        |g| g.tiles[1].distance = 1,
    );
    // canister 1, with the total still right
    refused(tally, f, "the second hopper with a canister", |g| {
        g.counters.booked = 3;
        g.tiles[1].count = 1;
        g.canisters[16].number = 1;
    });
    refused(
        tally,
        f,
        "the second hopper with an arrow",
        |g| g.tiles[1].next.code = 2,
    );
}

pub fn all(tally: &mut Tally<impl Print>, f: &Floor) {
    accepted(tally, *f);
    sets(tally, f);
    second_hopper(tally, f);
}
