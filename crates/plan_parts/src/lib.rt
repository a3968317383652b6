// Parts of a plan's calls: the lowest label that is ready, the entry asked for, the numbers listed, what a release and a
// report change.
#![tactic(auto)]

ghost use Rattle.std.specs.Prelude.{◌≡◌, true, false, cond, ◌&&◌, ◌++◌, [], ◌∷◌, ◌+◌, ◌≤◌, eqb, leb, ltb, take, is_some, unwrap_or, IfSome};
ghost use Rattle.laws.specs.Define.{all_of, any_of};
ghost use Rattle.floor.specs.Reports.{listed};
ghost use Rattle.plan.specs.Entries as E;
ghost use Rattle.plan.specs.Entries.{plan_fits, ready_label, changed, delivered_as, reported};
ghost use Rattle.plan.specs.Plans.{offered, tile_for, numbers_in};

use floor::{Delivery, Report};
use plan::{Entry, Plan, Stage};
use plan_check::{both, done_table, waits};

// The lowest label that is ready.
pub fn lowest_ready(plan: Plan) -> Option<u8>
    requires { (plan.count ≤ 64) × (plan_fits plan ≡ true) }
    ensures { unwrap_or result 0 ≡ offered plan }
{
    let entries = plan.used();
    let done = done_table(entries);
    // above every label: `min` takes a label, no Option
    let mut best = 65;
    for e in entries {
        if waits(*e) & both(*e, done[e.first as usize], done[e.second as usize]) {
            best = e.label.min(best);
        }
    }
    if best == 65 { None } else { Some(best) }
}

// The tile of a label, 0 where no entry has it.
pub fn tile_of(entries: &[Entry], label: u32) -> u32
    ensures { result ≡ tile_for entries.now label }
{
    entries
        .iter()
        .find(|e| u32::from(e.label) == label)
        .map_or(0, |e| e.tile)
}

// Whether some entry of a label waits and its predecessors are delivered.
pub fn is_ready(entries: &[Entry], label: u32) -> bool
    ensures { result ≡ ready_label entries.now label }
{
    let done = done_table(entries);
    let mut ready = false;
    for e in entries {
        let own = u32::from(e.label) == label;
        let after = both(*e, done[e.first as usize], done[e.second as usize]);
        ready |= own & (waits(*e) & after);
    }
    ready
}

// The tile of a label that is asked for, where it may be released.
pub fn tile_ready(entries: &[Entry], label: u32) -> Option<u32>
    ensures ready { is_some result ≡ ready_label entries.now label }
    ensures tile { IfSome result (λ tile. tile ≡ tile_for entries.now label) }
{
    is_ready(entries, label).then_some(tile_of(entries, label))
}

// Whether the numbers are from 1 to the last booked.
pub fn all_upto(numbers: &[u32], last: u32) -> bool
    ensures { result ≡ all_of (λ x. ltb 0 x && leb x last) numbers.now }
{
    numbers.iter().all(|x| (0 < *x) & (*x <= last))
}

// The plan with each used entry changed by itself: g is what every call of `change` gives.
fn changed_by<F: Fn(Entry) -> Entry>(plan: Plan, change: F) -> Plan
    requires few { plan.count ≤ 64 }
    requires callable { F.IsAlwaysCallable change }
    ensures { (g : _) → ((e : _) (r : _) → F.post change e r → r ≡ g e) → result ≡ changed plan g }
{
    let mut entries = plan.entries;
    for e in &mut entries[..plan.count as usize] {
        *e = change(*e);
    }
    Plan { entries, ..plan }
}

// An entry after the release of a label under a number.
fn entry_released(e: Entry, label: u32, number: u32) -> Entry
    ensures { result ≡ E.released label number e }
{
    if u32::from(e.label) == label {
        return Entry {
            number,
            stage: plan::BOOKED,
            ..e
        };
    }
    e
}

// The plan after the release of a label under a number.
pub fn plan_released(plan: Plan, label: u32, number: u32) -> Plan
    requires { plan.count ≤ 64 }
    ensures { result ≡ changed plan (E.released label number) }
{
    changed_by(plan, |e| entry_released(e, label, number))
}

// Whether a report lists more than four numbers for a hopper.
pub fn over_four(given: Report) -> bool
    ensures { result ≡ any_of (λ d. ltb 4 d.count) given.deliveries }
{
    given.deliveries.iter().any(|d| 4 < d.count)
}

// The numbers that a report lists, for all hoppers together: the first `count` of them. Its memory is fixed: no heap.
#[derive(Clone, Copy)]
pub struct Listing {
    pub items: [u32; 16],
    pub count: usize,
}

// The numbers of one hopper, put from place m on.
fn with_listed(items: [u32; 16], m: usize, d: Delivery) -> [u32; 16]
    requires { (m ≤ 12) × (d.count ≤ 4) }
    ensures { take (m + d.count) result ≡ take m items ++ listed d }
{
    let n = d.count as usize;
    let mut out = items;
    out[m..m + n].copy_from_slice(&d.numbers[..n]);
    out
}

// The numbers that a report lists, those of the first hopper first.
pub fn listed_numbers(given: Report) -> Listing
    requires { any_of (λ d. ltb 4 d.count) given.deliveries ≡ false }
    ensures { (result.count ≤ 16) × (take result.count result.items ≡ numbers_in given) }
{
    let mut items = [0; 16];
    let mut count = 0;
    for d in &given.deliveries {
        let next = with_listed(items, count, *d);
        items = next;
        count += d.count as usize;
    }
    Listing { items, count }
}

// Whether the number is among those listed.
fn lists(numbers: &[u32], number: u32) -> bool
    ensures { result ≡ any_of (eqb number) numbers.now }
{
    numbers.contains(&number)
}

// Whether an entry is booked, and so holds a number.
fn is_booked(e: Entry) -> bool
    ensures { cond result (e.number ∷ []) [] ≡ E.booked_number e }
{
    matches!(e.stage(), Stage::Booked(_))
}

// An entry after a report that lists its number or doesn't.
fn entry_reported(e: Entry, listed: bool) -> Entry
    ensures { result ≡ cond (any_of (λ n. listed) (E.booked_number e)) (delivered_as e) e }
{
    if is_booked(e) & listed {
        return Entry {
            stage: plan::DELIVERED,
            ..e
        };
    }
    e
}

// The plan after a report of these numbers.
pub fn plan_reported(plan: Plan, numbers: &[u32]) -> Plan
    requires { plan.count ≤ 64 }
    ensures { result ≡ changed plan (reported numbers.now) }
{
    changed_by(plan, |e| entry_reported(e, lists(numbers, e.number)))
}
