// Throughput at the console: a record for each hopper, fed every round, and told in plain words.
#![tactic(auto)]

ghost use Rattle.std.specs.Prelude.{◌≡◌, replicate};
ghost use Rattle.throughput.specs.Lists.{zero_throughput};
ghost use Rattle.throughput.specs.Window.{feed_values};
ghost use Rattle.console_throughput.specs.Follow.{followed_by};

use floor::Delivery;
use std::fmt;
use throughput::Throughput;

// Four records, the hoppers in tile order; those beyond the last hopper are fed 0.
pub fn begin() -> [Throughput; 4]
    ensures { result ≡ replicate 4 zero_throughput }
{
    let none = throughput::empty();
    [none; 4]
}

// The records after a round, and whether it closed a window. All of them are fed in the same rounds, so all close together.
#[derive(Clone, Copy)]
pub struct Followed {
    pub records: [Throughput; 4],
    pub closed: bool,
}

fn fed(t: Throughput, d: Delivery) -> Throughput
    ensures { result ≡ (feed_values t d.count).throughput }
{
    let told = throughput::feed_values(t, u32::from(d.count));
    told.throughput
}

pub fn follow(records: [Throughput; 4], deliveries: [Delivery; 4]) -> Followed
    ensures { result ≡ followed_by records deliveries }
{
    let taken = deliveries[0];
    let told = throughput::feed_values(records[0], u32::from(taken.count));
    let first = told.throughput;
    let second = fed(records[1], deliveries[1]);
    let third = fed(records[2], deliveries[2]);
    let fourth = fed(records[3], deliveries[3]);
    let next = [first, second, third, fourth];
    Followed {
        records: next,
        closed: told.kind == throughput::FED_CLOSED,
    }
}

// A rate in decimals, exactly: 1 / 256 is 0.00390625.
#[derive(Clone, Copy)]
struct Rate(f64);

impl fmt::Display for Rate {
    fn fmt<W: fmt::Write>(&self, f: &mut fmt::Formatter<W>) -> fmt::Result {
        let n = u32::from(throughput::deliveries_of(self.0));
        let whole = n / 256;
        let part = n % 256 * 390625;
        write!(f, "{whole}.{part:08}")
    }
}

// The hopper that a line is about, where there are several.
#[derive(Clone, Copy)]
struct At(Option<usize>);

impl fmt::Display for At {
    fn fmt<W: fmt::Write>(&self, f: &mut fmt::Formatter<W>) -> fmt::Result {
        match self.0 {
            Some(tile) => write!(f, " at {tile}"),
            None => Ok(()),
        }
    }
}

// Where a hopper's line says that it is.
fn place(hoppers: u64, tile: usize) -> At {
    At(if 1 < sets::size(hoppers) {
        Some(tile)
    } else {
        None
    })
}

// The rates of the windows that closed with this round.
pub fn closed(rt: &impl Print, round: u64, hoppers: u64, records: &[Throughput; 4]) {
    for (t, record) in (0..64).filter(|t| sets::holds(hoppers, *t)).zip(records) {
        let at = place(hoppers, t);
        let rate = Rate(record.last);
        let _ = println!(rt; "round {round}: window closed{at}, rate {rate}");
    }
}

// A record: the closed rates, and the open window.
fn line(rt: &impl Print, at: At, t: Throughput) {
    let _ = print!(rt; "throughput{at}");
    if t.closed == 0 {
        let _ = print!(rt; ": no window closed yet");
    } else {
        let last = Rate(t.last);
        let least = Rate(t.least);
        let greatest = Rate(t.greatest);
        let _ = print!(rt; ": last {last}, least {least}, greatest {greatest}");
    }
    let rounds = t.rounds;
    let deliveries = t.deliveries;
    let _ = println!(rt; "; open window: rounds {rounds}, delivered {deliveries}");
}

pub fn show(rt: &impl Print, hoppers: u64, records: &[Throughput; 4]) {
    for (t, record) in (0..64).filter(|t| sets::holds(hoppers, *t)).zip(records) {
        line(rt, place(hoppers, t), *record);
    }
}
