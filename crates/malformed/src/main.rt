// Floors that aren't well formed: every call that takes a floor answers 30 and gives the same floor, zeros for a
// reading, the same bytes for a writing and for a page; a list of bookings answers 30 in every entry.
#![tactic(auto)]

use floor::Floor;
use malformed_calls::{all_refuse, refused};
use trials_tally::{Tally, floors};

// W 3, H 2, hopper 5, canisters 3 and 4 on tile 0, 7 on tile 1, three rounds gone.
fn sound_floor() -> Floor {
    let f = floors::fresh(3, 2, 5, 31);
    let g = floors::booked(f, 0, 3, 0, 0);
    let h = floors::booked(g, 0, 4, 60, 0);
    floors::rounds(floors::booked(h, 1, 7, 0, 30), 3)
}

// The floor before it is damaged: the calls accept it.
fn accepted(tally: &mut Tally<impl Print>, f: Floor) {
    tally.trial(
        "the floor before its damages: accepted",
        [
            floors::booking(f, 1, 900, 70, 70),
            calls::stop(f, 1).refusal,
            calls::round(f).refusal,
            calls::read(f, 1).refusal,
        ],
        [0; 4],
    );
}

fn tiles(tally: &mut Tally<impl Print>, f: &Floor) {
    refused(tally, f, "a count of 255", |g| g.tiles[0].count = 255);
    refused(tally, f, "an arrow of 200", |g| g.tiles[0].next.code = 200);
    refused(tally, f, "a turn of 200", |g| g.tiles[0].token.code = 200);
    refused(tally, f, "running 7", |g| g.tiles[0].running = 7);
    refused(tally, f, "a distance of C", |g| g.tiles[0].distance = 6);
    refused(
        tally,
        f,
        "a tile beyond C not zero",
        |g| g.tiles[60].running = 1,
    );
    refused(
        tally,
        f,
        "a turn that faces no tile",
        |g| g.tiles[0].token.code = 1,
    );
    refused(tally, f, "a stopped hopper", |g| g.tiles[5].running = 0);
    refused(
        tally,
        f,
        "a hopper without distance 0",
        |g| g.tiles[5].distance = 255,
    );
    refused(
        tally,
        f,
        "a stopped tile with its distance",
        |g| g.tiles[2].running = 0,
    );
}

fn canisters(tally: &mut Tally<impl Print>, f: &Floor) {
    refused(
        tally,
        f,
        "canisters out of order",
        |g| g.canisters[0].number = 5,
    );
    refused(tally, f, "number 0", |g| g.canisters[0].number = 0);
    refused(
        tally,
        f,
        "a number on two tiles",
        |g| g.canisters[16].number = 3,
    );
    refused(tally, f, "a place beyond U - l", |g| g.canisters[16].a = 71);
    refused(
        tally,
        f,
        "two canisters too near",
        |g| g.canisters[1].a = 39,
    );
    refused(
        tally,
        f,
        "an unused place not zero",
        |g| g.canisters[2].b = 1,
    );
    refused(
        tally,
        f,
        "a canister beyond C",
        |g| g.canisters[1023].number = 1,
    );
}

fn numbers(tally: &mut Tally<impl Print>, f: &Floor) {
    refused(tally, f, "booked off by one", |g| g.counters.booked = 4);
    refused(
        tally,
        f,
        "delivered off by one",
        |g| g.counters.delivered[0] = 1,
    );
    refused(tally, f, "last below a number", |g| g.counters.last = 6);
    refused(tally, f, "a side of 200 tiles", |g| g.settings.rows = 200);
    refused(
        tally,
        f,
        "the hopper in the fill set",
        |g| g.settings.sources = 63,
    );
    refused(tally, f, "v not below l", |g| g.settings.travel = 30);
}

// A refused fresh gives the all-zero floor, and every call refuses that.
fn zero(tally: &mut Tally<impl Print>) {
    let answer = calls::fresh(floors::settings(9, 1, 1, 1, 20));
    tally.tell(
        "malformed, the all-zero floor of a refused fresh",
        answer.refusal == 1 && all_refuse(answer.floor),
        "differs",
    );
}

fn main(rt: HostRuntime) {
    let mut tally = Tally::new(&rt);
    let f = sound_floor();
    accepted(&mut tally, f);
    tiles(&mut tally, &f);
    canisters(&mut tally, &f);
    numbers(&mut tally, &f);
    zero(&mut tally);
    tally.end();
}
