// Whether a plan is sound, and whether its labels fit, on any bytes: the tests 30 and 47.
#![tactic(auto)]

ghost use Rattle.std.specs.Prelude.{◌≡◌, false, not, ◌&&◌, ◌||◌, ◌≤◌, eqb, leb, ltb, length, take};
ghost use Rattle.laws.specs.Define.{all_of, pairs_of};
ghost use Rattle.laws.specs.InternalFilled.{Upto};
ghost use Rattle.plan.specs.Entries as E;
ghost use Rattle.plan.specs.Entries.{done, present, booked_numbers, plan_sound, plan_fits};

use plan::{Entry, Plan, Stage};

// Whether an entry waits.
pub fn waits(e: Entry) -> bool
    ensures { result ≡ E.waits e }
{
    matches!(e.stage(), Stage::Waiting)
}

// Whether an entry is delivered.
fn was_delivered(e: Entry) -> bool
    ensures { result ≡ E.was_delivered e }
{
    matches!(e.stage(), Stage::Delivered)
}

// Whether an entry's predecessors pass, from what is known of the two labels; 0 names none.
pub fn both(e: Entry, first: bool, second: bool) -> bool
    ensures { result ≡ ((eqb e.first 0 || first) && (eqb e.second 0 || second)) }
{
    ((e.first == 0) | first) & ((e.second == 0) | second)
}

// For each label, whether no entry that has it is undelivered.
pub fn done_table(entries: &[Entry]) -> [bool; 256]
    ensures { Upto 256 (done entries.now) false result }
{
    let mut done = [true; 256];
    for e in entries {
        let label = e.label as usize;
        done[label] = done[label] & was_delivered(*e);
    }
    done
}

// Whether every entry past waiting has its predecessors delivered.
fn after_predecessors(entries: &[Entry]) -> bool
    ensures { result ≡ all_of (E.after_predecessors entries.now) entries.now }
{
    let done = done_table(entries);
    let mut ok = true;
    for e in entries {
        ok &= waits(*e) | both(*e, done[e.first as usize], done[e.second as usize]);
    }
    ok
}

// The numbers of booked entries, in the order of the plan: the first `count` of them. Its memory is fixed: no heap.
#[derive(Clone, Copy)]
pub struct Numbers {
    pub items: [u32; 64],
    pub count: usize,
}

// The numbers that booked entries hold, in the order of the entries.
pub fn booked_numbers(entries: &[Entry]) -> Numbers
    requires { length entries.now ≤ 64 }
    ensures { (result.count ≤ 64) × (take result.count result.items ≡ booked_numbers entries.now) }
{
    let mut items = [0; 64];
    let mut count = 0;
    for e in entries {
        if let Stage::Booked(number) = e.stage() {
            items[count] = number;
            count += 1;
        }
    }
    Numbers { items, count }
}

// Whether the numbers differ, every two of them.
fn all_differ(numbers: &[u32]) -> bool
    ensures { result ≡ pairs_of (λ x y. not (eqb x y)) numbers.now }
{
    let mut ok = true;
    for (j, y) in numbers.iter().enumerate() {
        for x in &numbers[..j] {
            ok &= x != y;
        }
    }
    ok
}

// Whether a plan is sound: 30 where it is not.
pub fn sound(plan: Plan) -> bool
    ensures { result ≡ plan_sound plan }
{
    if plan::MAX_ENTRIES < plan.count {
        return false;
    }
    let entries = plan.used();
    let ordered = after_predecessors(entries);
    let numbers = booked_numbers(entries);
    ordered & all_differ(&numbers.items[..numbers.count])
}

// The labels of a plan: for each label, whether an entry has it; and whether no two entries have one. No Option: its clause
// gives the table where two entries have one label too.
#[derive(Clone, Copy)]
pub struct Labels {
    pub present: [bool; 256],
    pub differing: bool,
}

// One pass over the entries.
fn labels_in(entries: &[Entry]) -> Labels
    ensures { Upto 256 (present entries.now) false result.present × (result.differing ≡ pairs_of (λ x y. not (eqb x.label y.label)) entries.now) }
{
    let mut present = [false; 256];
    let mut differing = true;
    for e in entries {
        let label = e.label as usize;
        differing &= !present[label];
        present[label] = true;
    }
    Labels { present, differing }
}

// Whether one entry's labels fit, from whether its predecessors' labels are present.
fn entry_fits(e: Entry, first: bool, second: bool) -> bool
    ensures { result ≡ ((leb 1 e.label && leb e.label 64) && ((eqb e.first 0 || (ltb e.first e.label && first)) && (eqb e.second 0 || (ltb e.second e.label && second)))) }
{
    let labelled = (1 <= e.label) & (e.label <= 64);
    let after = both(
        e,
        (e.first < e.label) & first,
        (e.second < e.label) & second,
    );
    labelled & after
}

// Whether the labels of a plan fit: 47 where they don't.
pub fn fits(plan: Plan) -> bool
    requires { plan.count ≤ 64 }
    ensures { result ≡ plan_fits plan }
{
    let entries = plan.used();
    let Labels { present, differing } = labels_in(entries);
    let mut ok = true;
    for e in entries {
        ok &= entry_fits(*e, present[e.first as usize], present[e.second as usize]);
    }
    ok & differing
}
