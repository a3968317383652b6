// Throughput: deliveries over windows of 256 rounds, each closed window's rate as an f64 (document 02's [2]).
#![tactic(auto)]

ghost use Rattle.std.specs.Prelude.{◌≡◌, ◌≤◌};
ghost use Rattle.throughput.specs.Faults.{fault_number};
ghost use Rattle.throughput.specs.Rate.{rate_of, rate_sound, deliveries_of};
ghost use Rattle.throughput.specs.Lists.{zero_throughput};
ghost use Rattle.throughput.specs.Window.{rates_sound, rates_in_order, record_sound, lower, higher, closed_by, feed_answer, values_of, feed_values};

// Why a record or a count is refused, by the papers' numbers. It stands here, because this crate knows no floor.
#[derive(Clone, Copy, PartialEq, Eq)]
pub enum Fault {
    // "A record is 30 if …"
    Unsound = 30,

    // "41, a count above 4, checked after 30"
    CountTooHigh = 41,
}

impl From<Fault> for u8 {
    ghost from_gives = { λ why n. n ≡ fault_number why };

    fn from(why: Fault) -> u8 {
        why as u8
    }
}

// The last, least and greatest closed rates; the open window's rounds and deliveries; whether a window has closed: 0 for no,
// any other byte for yes.
#[repr(C)]
#[derive(Clone, Copy)]
pub struct Throughput {
    pub last: f64,
    pub least: f64,
    pub greatest: f64,
    pub rounds: u16,
    pub deliveries: u16,
    pub closed: u8,
}

// What feeding a round tells: the open window's rounds so far, or the closed window's rate, or the refusal's number, which
// the definition `feed_answer` holds.
#[derive(Clone, Copy)]
pub enum Fed {
    Open(u16),
    Closed(f64),
    Refused(u8),
}

// The record after the round, and what is told.
#[derive(Clone, Copy)]
pub struct Feeding {
    pub throughput: Throughput,
    pub fed: Fed,
}

// The kinds of an answer for C and Rust: refused, open with its rounds, closed with its rate.
pub const FED_REFUSED: u8 = 0;

pub const FED_OPEN: u8 = 1;

pub const FED_CLOSED: u8 = 2;

// The same for C and Rust; what a kind does not have is 0.
#[repr(C)]
#[derive(Clone, Copy)]
pub struct FedValues {
    pub throughput: Throughput,
    pub rate: f64,
    pub rounds: u16,
    pub kind: u8,
    pub refusal: u8,
}

// The rate of a closed window with this many deliveries: exact, since 256 is a power of two.
fn rate(count: u16) -> f64
    requires { count ≤ 1024 }
    ensures { result ≡ rate_of count }
{
    (count as f64) / 256.0
}

// Whether x times 256 is a whole number from 0 to 1,024 and x is not negative zero, for any f64: whether x has the bits of
// the rate of some count.
fn rate_sound(x: f64) -> bool
    ensures { result ≡ rate_sound x }
{
    let y = x * 256.0;
    if y > -1.0 {
        if y < 1025.0 {
            let n = std::num::truncating_f64_to_u64(y);
            if n <= 1024 {
                let z = rate(n as u16);
                return f64::to_bits(x) == f64::to_bits(z);
            }
        }
    }
    false
}

// Whether each of the three is a count's rate. Nested from the right, as the definition is: plainer to prove.
fn rates_sound(last: f64, least: f64, greatest: f64) -> bool
    ensures { result ≡ rates_sound last least greatest }
{
    rate_sound(last) && (rate_sound(least) && rate_sound(greatest))
}

// Whether they stand in order, and are 0 before the first close.
fn rates_in_order(last: f64, least: f64, greatest: f64, closed: u8) -> bool
    ensures { result ≡ rates_in_order last least greatest closed }
{
    least <= last
        && (last <= greatest && (closed != 0 || (last == 0.0 && (least == 0.0 && greatest == 0.0))))
}

// Whether a record is sound.
fn sound(t: Throughput) -> bool
    ensures { result ≡ record_sound t }
{
    t.rounds < 256
        && (t.deliveries <= 4 * t.rounds
            && (rates_sound(t.last, t.least, t.greatest)
                && rates_in_order(t.last, t.least, t.greatest, t.closed)))
}

// The lesser of two rates, by `<`, as `lower` says; `min` of std may give either zero.
fn lesser(a: f64, b: f64) -> f64
    ensures { result ≡ lower a b }
{
    if a < b { a } else { b }
}

// The greater of two rates, by `<`, as `higher` says.
fn greater(a: f64, b: f64) -> f64
    ensures { result ≡ higher a b }
{
    if b < a { a } else { b }
}

// The record after a window closed with rate x; the first close sets all three.
fn close(t: Throughput, x: f64) -> Throughput
    ensures { result ≡ closed_by t x }
{
    if t.closed == 0 {
        return Throughput {
            last: x,
            least: x,
            greatest: x,
            rounds: 0,
            deliveries: 0,
            closed: 1,
        };
    }
    Throughput {
        last: x,
        least: lesser(t.least, x),
        greatest: greater(t.greatest, x),
        rounds: 0,
        deliveries: 0,
        closed: 1,
    }
}

// One round's delivered count for the record. Refused by 30 and 41.
pub fn feed(throughput: Throughput, count: u32) -> Feeding
    ensures { result ≡ feed_answer throughput count }
{
    let good = sound(throughput);
    if !good {
        return Feeding {
            throughput,
            fed: Fed::Refused(u8::from(Fault::Unsound)),
        };
    }
    if count > 4 {
        return Feeding {
            throughput,
            fed: Fed::Refused(u8::from(Fault::CountTooHigh)),
        };
    }
    let deliveries = throughput.deliveries + count as u16;
    let before = throughput.rounds;
    if before < 255 {
        let rounds = before + 1;
        return Feeding {
            throughput: Throughput {
                rounds,
                deliveries,
                ..throughput
            },
            fed: Fed::Open(rounds),
        };
    }
    let x = rate(deliveries);
    Feeding {
        throughput: close(throughput, x),
        fed: Fed::Closed(x),
    }
}

// An answer's number and values.
fn values_of(feeding: Feeding) -> FedValues
    ensures { result ≡ values_of feeding }
{
    let Feeding { throughput, fed } = feeding;
    match fed {
        Fed::Open(k) => FedValues {
            throughput,
            rate: 0.0,
            rounds: k,
            kind: FED_OPEN,
            refusal: 0,
        },
        Fed::Closed(x) => FedValues {
            throughput,
            rate: x,
            rounds: 0,
            kind: FED_CLOSED,
            refusal: 0,
        },
        Fed::Refused(n) => FedValues {
            throughput,
            rate: 0.0,
            rounds: 0,
            kind: FED_REFUSED,
            refusal: n,
        },
    }
}

// The same call, answered as C and Rust get it.
pub fn feed_values(throughput: Throughput, count: u32) -> FedValues
    ensures { result ≡ feed_values throughput count }
{
    values_of(feed(throughput, count))
}

// The all-zero record: no window has closed, and the open one has no rounds.
pub fn empty() -> Throughput
    ensures { result ≡ zero_throughput }
{
    Throughput {
        last: 0.0,
        least: 0.0,
        greatest: 0.0,
        rounds: 0,
        deliveries: 0,
        closed: 0,
    }
}

// The deliveries of a closed window, from its rate; 0 for what is no rate.
pub fn deliveries_of(rate: f64) -> u16
    ensures { result ≡ deliveries_of rate }
{
    if rate_sound(rate) {
        let n = std::num::truncating_f64_to_u64(rate * 256.0);
        return n as u16;
    }
    0
}
