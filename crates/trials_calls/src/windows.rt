// Throughput ([2]): windows of 256 rounds, through the compiled calls.
use floor::Floor;
use throughput::{FedValues, Throughput, deliveries_of, feed_values};
use trials_tally::{Tally, floors};

// What the last of n feeds of this count tells; n is at least 1.
fn fed(t: Throughput, count: u32, n: u16) -> FedValues {
    (1..n).fold(feed_values(t, count), |told, _| {
        feed_values(told.throughput, count)
    })
}

fn first(tally: &mut Tally<impl Print>) {
    let open = fed(throughput::empty(), 1, 255);
    let closed = feed_values(open.throughput, 1);
    let r = closed.throughput;
    tally.trial(
        "throughput: 255 rounds are open, the 256th closes with rate 1",
        (
            open.kind,
            open.rounds,
            closed.kind,
            deliveries_of(closed.rate),
            r.rounds,
            r.closed,
        ),
        (1, 255, 2, 256, 0, 1),
    );
    let least = fed(r, 0, 256).throughput;
    let most = fed(least, 4, 256).throughput;
    tally.trial(
        "throughput: the first close sets all three; then none, then four a round",
        [
            r.least,
            r.greatest,
            least.greatest,
            most.last,
            most.least,
            most.greatest,
        ]
        .map(deliveries_of),
        [256, 256, 256, 1024, 0, 1024],
    );
}

// The refusal of a count for a record, and whether the open window came back.
fn refusal(t: Throughput, count: u32) -> (u8, bool) {
    let told = feed_values(t, count);
    let r = told.throughput;
    (
        told.refusal,
        (r.rounds, r.deliveries, r.closed) == (t.rounds, t.deliveries, t.closed),
    )
}

// A record with this last rate, least 0 and greatest 4.
fn rated(last: f64, closed: u8) -> Throughput {
    Throughput {
        last,
        greatest: 4.0,
        closed,
        ..throughput::empty()
    }
}

fn window(rounds: u16, deliveries: u16) -> Throughput {
    Throughput {
        rounds,
        deliveries,
        ..throughput::empty()
    }
}

fn refusals(tally: &mut Tally<impl Print>) {
    tally.trial(
        "throughput: 41 for 5, 260 and 65540, 30 before it and by the open window",
        [
            refusal(throughput::empty(), 5),
            refusal(throughput::empty(), 260),
            refusal(window(256, 0), 5),
            refusal(window(1, 5), 0),
            refusal(window(1, 4), 0),
            refusal(throughput::empty(), 65540),
        ],
        [
            (41, true),
            (41, true),
            (30, true),
            (30, true),
            (0, false),
            (41, true),
        ],
    );
    tally.trial(
        "throughput: 30 for -0, 1/512, 1025/256, 5, a rate before the first close; 1/256 accepted",
        [
            refusal(rated(-0.0, 1), 0),
            refusal(rated(0.001953125, 1), 0),
            refusal(rated(4.00390625, 1), 0),
            refusal(rated(5.0, 1), 0),
            refusal(rated(0.0, 0), 0),
            refusal(rated(0.00390625, 1), 0),
        ],
        [
            (30, true),
            (30, true),
            (30, true),
            (30, true),
            (30, true),
            (0, false),
        ],
    );
}

// The record that followed the floor's first hopper for n rounds.
fn followed(mut f: Floor, n: u16) -> Throughput {
    let mut record = throughput::empty();
    for _ in 0..n {
        let answer = calls::round(f);
        let count = answer.report.deliveries[0].count;
        record = feed_values(record, u32::from(count)).throughput;
        f = answer.floor;
    }
    record
}

fn joined(tally: &mut Tally<impl Print>) {
    let one = floors::booked(floors::fresh(2, 1, 1, 1), 0, 5, 0, 0);
    let r = followed(floors::booked(one, 0, 6, 0, 40), 260);
    tally.trial(
        "W 2, two canisters: a window of 256 rounds with 2 deliveries, then 4 rounds",
        (
            [r.last, r.least, r.greatest].map(deliveries_of),
            r.rounds,
            r.deliveries,
            r.closed,
        ),
        ([2, 2, 2], 4, 0, 1),
    );
}

pub fn all(tally: &mut Tally<impl Print>) {
    first(tally);
    refusals(tally);
    joined(tally);
}
