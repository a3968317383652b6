// A full floor: 8 x 8 tiles, sixteen canisters on each but the hopper.
use floor::{Delivery, Floor, Rounded, Settings};
use trials_tally::{Tally, floors};

// d = 30 and (100 - 10) div 30 = 3: four places along each axis. The hopper is tile 27.
fn wide_floor() -> Floor {
    calls::fresh(Settings {
        columns: 8,
        rows: 8,
        hoppers: 1 << 27,
        sources: !(1 << 27),
        width: 100,
        length: 10,
        gap: 20,
        travel: 9,
    })
    .floor
}

// The wide floor with the numbers from 1 on booked, sixteen on each tile but the hopper, and how many were accepted. A
// number's tile and place follow from how many there are before it.
fn filled() -> (Floor, u32) {
    let mut f = wide_floor();
    let mut accepted: u32 = 0;
    for k in 0..1024u16 {
        let tile = k / 16;
        if tile != 27 {
            let answer = floors::book(
                f,
                u32::from(tile),
                u32::from(k) + 1,
                k % 4 * 30,
                k / 4 % 4 * 30,
            );
            accepted += u32::from(answer.refusal == 0);
            f = answer.floor;
        }
    }
    (f, accepted)
}

// Where rounds lead: the floor, how many numbers were reported, their sum, and how many rounds it took.
#[derive(Clone, Copy)]
struct Emptying {
    floor: Floor,
    reported: u32,
    sum: u64,
    rounds: u32,
}

// At most `most` rounds, until `due` numbers are reported.
fn emptied(floor: Floor, due: u32, most: u16) -> Emptying {
    let mut e = Emptying {
        floor,
        reported: 0,
        sum: 0,
        rounds: 0,
    };
    for _ in 0..most {
        if due <= e.reported {
            break;
        }
        let Rounded { floor, report, .. } = calls::round(e.floor);
        let Delivery { numbers, count } = report.deliveries[0];
        let [x, y, z, w] = numbers;
        e = Emptying {
            floor,
            reported: e.reported + u32::from(count),
            sum: e.sum + u64::from(x) + u64::from(y) + u64::from(z) + u64::from(w),
            rounds: e.rounds + 1,
        };
    }
    e
}

// 1,008 bookings, then 34 on each of three full tiles.
fn fills(tally: &mut Tally<impl Print>, f: Floor, accepted: u32) {
    tally.trial(
        "8 x 8: 1008 canisters booked, the next is 34",
        (
            accepted,
            floors::booking(f, 0, 2000, 45, 45),
            floors::booking(f, 26, 2000, 0, 0),
            floors::booking(f, 63, 2000, 90, 89),
            floors::held(f, 0, 63),
            f.counters.booked,
        ),
        (1008, 34, 34, 34, 16, 1008),
    );
}

// All numbers come out, each once: 1 to 1024 without 433 to 448 have the sum 517,752. The 100 and the 3,690 rounds are
// also what the second implementation gives (host/oracle/tests/suite/full.rs).
pub fn all(tally: &mut Tally<impl Print>) {
    let (f, accepted) = filled();
    fills(tally, f, accepted);
    let some = emptied(f, 1008, 100);
    tally.trial(
        "8 x 8: the first hundred rounds",
        (some.rounds, some.reported, some.floor.counters.delivered[0]),
        (100, 100, 100),
    );
    let e = emptied(f, 1008, 60000);
    let counters = e.floor.counters;
    tally.trial(
        "8 x 8: all delivered, each once",
        (
            e.reported,
            e.sum,
            counters.delivered[0],
            counters.booked,
            counters.last,
            e.rounds,
        ),
        (1008, 517752, 1008, 1008, 1024, 3690),
    );
}
