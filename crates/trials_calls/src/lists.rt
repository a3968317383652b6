// A list of bookings in one call, its entries by value.
use book_list::Listed;
use floor::{Booking, Floor};
use trials_tally::{Tally, floors};

// Canister `number` at (a, b) on a tile; 99 stands where the answer comes.
fn entry(tile: u32, number: u32, a: u16, b: u16) -> Booking {
    Booking {
        tile,
        canister: floors::canister(number, a, b),
        answer: 99,
    }
}

// Canister 5 at (0, 0) on tile 0, over and over.
fn alike() -> [Booking; 64] {
    [entry(0, 5, 0, 0); 64]
}

// Three of the first six are refused, each for another reason. W 2, hopper 1.
fn six() -> Listed {
    let mut list = alike();
    list[1] = entry(0, 6, 39, 39);
    list[2] = entry(0, 6, 40, 0);
    list[3] = entry(0, 6, 0, 40);
    list[4] = entry(1, 7, 0, 0);
    list[5] = entry(0, 8, 0, 40);
    calls::book_places(floors::fresh(2, 1, 1, 1), list, 6)
}

fn answers(tally: &mut Tally<impl Print>) {
    let [a, b, c, d, e, f, ..] = six().list;
    tally.trial(
        "a list of six: 34, 33 and 5 between accepted ones",
        [a, b, c, d, e, f].map(|booking| booking.answer),
        [0, 34, 0, 33, 5, 0],
    );
}

fn floor_of_six(tally: &mut Tally<impl Print>) {
    let Listed {
        floor,
        list,
        refusal,
    } = six();
    tally.trial(
        "its floor: canisters 5, 6 and 8",
        (
            refusal,
            floor.counters.last,
            floor.counters.booked,
            floors::held(floor, 0, 0),
            floors::first(floor, 0, 0),
            list[6].answer,
        ),
        (0, 8, 3, 3, (5, 0, 0), 99),
    );
}

// The call's number, the first and the last answer, and the counters.
fn last(f: Floor, n: usize) -> (u8, u8, u8, u32, u32) {
    let Listed {
        floor,
        list,
        refusal,
    } = calls::book_places(f, alike(), n);
    (
        refusal,
        list[0].answer,
        list[63].answer,
        floor.counters.booked,
        floor.counters.last,
    )
}

fn lengths(tally: &mut Tally<impl Print>) {
    let f = floors::fresh(2, 1, 1, 1);
    tally.trial(
        "64 entries: one booked, the others 33",
        last(f, 64),
        (0, 0, 33, 1, 5),
    );
    tally.trial(
        "65 entries: 42, and no answer written",
        last(f, 65),
        (42, 99, 99, 0, 0),
    );
}

pub fn all(tally: &mut Tally<impl Print>) {
    answers(tally);
    floor_of_six(tally);
    lengths(tally);
}
