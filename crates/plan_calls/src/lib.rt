// The calls of a plan. Each takes any bytes, and its contract determines the whole answer on all of them.
#![tactic(auto)]

ghost use Rattle.std.specs.Prelude.{◌≡◌, IfOk};
ghost use Rattle.laws.specs.Define.{refusal};
ghost use Rattle.floor.specs.Numbers.{answered};
ghost use Rattle.plan.specs.Entries.{used};
ghost use Rattle.plan.specs.Plans.{offer_answer, release_tests, number_after, tile_for, release_answer, report_answer};
ghost use Rattle.plan_calls.specs.InternalAnswers.{offer_shown, refused_as, report_shown};

use book_anywhere::anywhere_checked;
use check_floor::well_formed;
use floor::{Floor, Refusal, Report};
use plan::{Offered, Plan, Planned, Released};
use plan_check::{booked_numbers, fits, sound};
use plan_parts::{
    all_upto, listed_numbers, lowest_ready, over_four, plan_released, plan_reported, tile_ready,
};

// The label offered, 0 for none: 30, 47.
fn label_offered(plan: Plan) -> Result<u8, Refusal>
    ensures { offer_shown result ≡ offer_answer plan }
{
    if !sound(plan) {
        return Err(Refusal::Malformed);
    }
    if !fits(plan) {
        return Err(Refusal::BadLabel);
    }
    Ok(lowest_ready(plan).unwrap_or(0))
}

// Offers the lowest waiting label whose predecessors are all delivered, 0 for none.
pub fn offer(plan: Plan) -> Offered
    ensures { result ≡ offer_answer plan }
{
    match label_offered(plan) {
        Ok(label) => Offered { label, refusal: 0 },
        Err(why) => Offered {
            label: 0,
            refusal: u8::from(why),
        },
    }
}

// The tile that a release books on, after the tests that stand before those of its booking: 30, 47, 48. The floor is checked
// here alone.
fn tile_asked(plan: Plan, floor: Floor, label: u32) -> Result<u32, Refusal>
    ensures tests { answered result ≡ refusal (release_tests plan floor label) }
    ensures tile { IfOk result (λ tile. tile ≡ tile_for (used plan) label) }
{
    if !sound(plan) {
        return Err(Refusal::Malformed);
    }
    if !well_formed(floor) {
        return Err(Refusal::Malformed);
    }
    let entries = plan.used();
    let numbers = booked_numbers(entries);
    if !all_upto(&numbers.items[..numbers.count], floor.counters.last) {
        return Err(Refusal::Malformed);
    }
    if !fits(plan) {
        return Err(Refusal::BadLabel);
    }
    tile_ready(entries, label).ok_or(Refusal::NotReleased)
}

// The number after the last booked; the last itself where none is left, which a booking refuses by 33.
fn number_after(floor: Floor) -> u32
    ensures { result ≡ number_after floor }
{
    floor.counters.last.saturating_add(1)
}

// A refused release: the plan and the floor as they came, and zeros.
fn refused(plan: Plan, floor: Floor, refusal: u8) -> Released
    ensures { result ≡ refused_as plan floor refusal }
{
    Released {
        floor,
        plan,
        number: 0,
        a: 0,
        b: 0,
        refusal,
    }
}

// Books the waiting label asked for at the lowest place on its tile, under the number after the last booked.
pub fn release(plan: Plan, floor: Floor, label: u32) -> Released
    ensures { result ≡ release_answer plan floor label }
{
    let tile = match tile_asked(plan, floor, label) {
        Ok(tile) => tile,
        Err(why) => return refused(plan, floor, u8::from(why)),
    };
    let number = number_after(floor);
    let placed = anywhere_checked(floor, tile, number, true);
    if placed.refusal != 0 {
        return refused(plan, floor, placed.refusal);
    }
    Released {
        floor: placed.floor,
        plan: plan_released(plan, label, number),
        number,
        a: placed.a,
        b: placed.b,
        refusal: 0,
    }
}

// The plan after a report: 30 for the plan or the report, 47.
fn plan_marked(plan: Plan, given: Report) -> Result<Plan, Refusal>
    ensures { report_shown plan result ≡ report_answer plan given }
{
    if !sound(plan) | over_four(given) {
        return Err(Refusal::Malformed);
    }
    if !fits(plan) {
        return Err(Refusal::BadLabel);
    }
    let numbers = listed_numbers(given);
    Ok(plan_reported(plan, &numbers.items[..numbers.count]))
}

// Marks delivered the booked entries whose numbers a round's report lists.
pub fn report(plan: Plan, given: Report) -> Planned
    ensures { result ≡ report_answer plan given }
{
    match plan_marked(plan, given) {
        Ok(plan) => Planned { plan, refusal: 0 },
        Err(why) => Planned {
            plan,
            refusal: u8::from(why),
        },
    }
}
