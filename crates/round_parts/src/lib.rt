// Parts of Move: the side along which a tile moves, what the hoppers take in, and the answer.
#![tactic(auto)]

ghost use Rattle.std.specs.Prelude.{◌≡◌, true, false, ℕ, ◌≤◌, ◌<◌, ◌+◌, ◌^◌, length, get_or, set};
ghost use Rattle.laws.specs.Define.{tab};
ghost use Rattle.floor.specs.Settings.{is_hopper};
ghost use Rattle.floor.specs.Model.{numbers};
ghost use Rattle.floor.specs.Memory.{zero_canister};
ghost use Rattle.floor.specs.Move.{way_of, leaving};
ghost use Rattle.floor.specs.Calls.{delivery_of, no_delivery};
ghost use Rattle.round_parts.specs.InternalDeliveries.{raised_by, with_deliveries};

use floor::{Canister, Counters, Delivery, Floor, Report, Rounded, Settings, Side};
use round_members::{Members, partition};
use sets::holds;

// What the hoppers took in so far: what came to each, the array of a report (C interface), and how many of them were found.
#[derive(Clone, Copy)]
pub struct Intake {
    pub deliveries: [Delivery; 4],
    pub found: u8,
}

impl Intake {
    // No hopper was found yet, and nothing came.
    pub const ZERO: Intake = Intake {
        deliveries: [Delivery::ZERO; 4],
        found: 0,
    };
}

// The side along which a tile moves: its arrow, if the tile ahead granted the opposite side.
pub fn way_of(next: Side, ahead: Side) -> Side
    ensures { result.code ≡ way_of next.code ahead.code }
{
    if next == ahead.opposite() {
        next
    } else {
        Side::NONE
    }
}

// What a hopper takes in, as a report lists it: the numbers of the first four.
fn delivery(m: Members) -> Delivery
    ensures { result ≡ record { numbers = tab 4 (λ k. (get_or m.items k zero_canister).number); count = m.count } }
{
    let mut numbers = [0; 4];
    // k is the place in two arrays
    for k in 0..4 {
        numbers[k] = m.items[k].number;
    }
    Delivery {
        numbers,
        count: m.count,
    }
}

// What the hoppers took in up to tile t, t too; at a tile that is no hopper it stays as it was.
pub fn hopper_intake(
    s: Settings,
    t: usize,
    come: Side,
    others: &[Canister],
    intake: Intake,
) -> Intake
    requires { (length others.now ≤ 16) × (s.length ≤ s.width) × (is_hopper s t ≡ true → intake.found < 4) }
    ensures { (is_hopper s t ≡ true → (result.found ≡ intake.found + 1) × (result.deliveries ≡ set intake.deliveries intake.found (delivery_of (numbers (leaving s come.code others.now))))) × (is_hopper s t ≡ false → result ≡ intake) }
{
    if holds(s.hoppers, t) {
        let mut taken = intake.deliveries;
        taken[usize::from(intake.found)] = delivery(partition(s, come, others));
        return Intake {
            deliveries: taken,
            found: intake.found + 1,
        };
    }
    intake
}

// The counters, each raised by what came to its hopper.
fn raise(c: Counters, d: &[Delivery; 4]) -> Counters
    requires { (k : ℕ) → k < 4 → get_or c.delivered k 0 + (get_or d.now k no_delivery).count < 2 ^ 32 }
    ensures { result ≡ raised_by c d.now }
{
    let mut delivered = [0; 4];
    for (k, more) in d.iter().enumerate() {
        delivered[k] = c.delivered[k] + u32::from(more.count);
    }
    Counters { delivered, ..c }
}

// A round's answer, the counters raised by those that came.
pub fn with_deliveries(
    mut f: Floor,
    intake: Intake,
    grants: [u8; 64],
    reasons: [u8; 64],
    missing: [u16; 64],
) -> Rounded
    requires { (k : ℕ) → k < 4 → get_or f.counters.delivered k 0 + (get_or intake.deliveries k no_delivery).count < 2 ^ 32 }
    ensures { result ≡ record { refusal = 0; floor = with_deliveries f intake.deliveries; report = record { grants = grants; reasons = reasons; missing = missing; deliveries = intake.deliveries } } }
{
    let deliveries = intake.deliveries;
    f.counters = raise(f.counters, &deliveries);
    Rounded {
        refusal: 0,
        floor: f,
        report: Report {
            grants,
            reasons,
            missing,
            deliveries,
        },
    }
}
