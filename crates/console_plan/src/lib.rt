// A plan as it is typed: its entries, what it offers, releases, and the labels that rounds deliver.
#![tactic(auto)]

ghost use Rattle.std.specs.Prelude.{◌≡◌, ◌≤◌};
ghost use Rattle.plan.specs.Plans.{report_answer};
ghost use Rattle.console_session.specs.Sessions.{no_plan, with_plan};
ghost use Rattle.console_plan.specs.Typed.{plan_with, added, entry_numbers, entry_typed, release_typed};

use console_say::Placed;
use console_session::Session;
use floor::{Canister, Refusal, Report};
use plan::{Entry, Plan};

// The session with the plan changed.
fn with_plan(s: Session, plan: Plan) -> Session
    ensures { result ≡ with_plan s plan }
{
    Session { plan, ..s }
}

// Begins an empty plan.
pub fn plan(rt: &impl Print, s: Session) -> Session
    ensures { result ≡ with_plan s no_plan }
{
    let _ = println!(rt; "plan: no entries");
    with_plan(s, console_session::no_plan())
}

// What the refusals of a call about the plan say there. The floor is well formed, so 30 is the plan's.
const MEANINGS: [(Refusal, &str); 3] = [
    (Refusal::Malformed, "the plan isn't sound"),
    (
        Refusal::BadLabel,
        "the label is there already or not 1 to 64, or one to come before it is absent or not lower",
    ),
    (
        Refusal::NotReleased,
        "no such label waits, or one before it isn't delivered",
    ),
];

fn refused(rt: &impl Print, call: &str, n: u8) {
    console_say::refused_as(rt, call, n, &MEANINGS);
}

// A label that comes before an entry's; 0 is none.
fn after(rt: &impl Print, label: u8) {
    if label != 0 {
        let _ = print!(rt; " after {label}");
    }
}

// An entry, by the call named: it waits, or what number it was booked under.
fn tell(rt: &impl Print, call: &str, e: Entry) {
    let Entry {
        tile,
        number,
        label,
        ..
    } = e;
    let _ = print!(rt; "{call}: label {label} on tile {tile}");
    after(rt, e.first);
    after(rt, e.second);
    let _ = match e.stage {
        plan::WAITING => println!(rt; ": waits"),
        plan::DELIVERED => println!(rt; ": delivered, number {number}"),
        _ => println!(rt; ": booked, number {number}"),
    };
}

// How many numbers an entry is typed with: two to four.
fn typed(line: &[u8]) -> usize
    ensures { (result ≡ entry_numbers line.now) × (result ≤ 4) }
{
    if console_parse::ended(line, 3) {
        return 2;
    }
    if console_parse::ended(line, 4) {
        return 3;
    }
    4
}

// The plan with one more entry; with 64 as it was.
fn with_entry(p: Plan, e: Entry) -> Plan
    ensures { result ≡ plan_with p e }
{
    let mut next = p;
    let k = p.count as usize;
    if k < 64 {
        next.entries[k] = e;
        next.count = p.count + 1;
    }
    next
}

// Adds a waiting entry. One with which the plan would be refused is left out, and so is a 65th.
fn add(rt: &impl Print, s: Session, e: Entry) -> Session
    ensures { result ≡ added s e }
{
    let before = s.plan;
    if 63 < before.count {
        let _ = println!(rt; "entry: the plan has 64 entries");
        return s;
    }
    let more = with_entry(before, e);
    let answer = plan_calls::offer(more);
    if answer.refusal != 0 {
        refused(rt, "entry", answer.refusal);
        return s;
    }
    tell(rt, "entry", e);
    with_plan(s, more)
}

pub fn entry(rt: &impl Print, s: Session, line: &[u8]) -> Session
    ensures { result ≡ entry_typed s line.now }
{
    match console_parse::arguments(line, typed(line)) {
        Some(n) => add(
            rt,
            s,
            Entry {
                tile: n[1],
                number: 0,
                label: console_parse::byte(n[0]),
                first: console_parse::byte(n[2]),
                second: console_parse::byte(n[3]),
                stage: plan::WAITING,
            },
        ),
        None => console_session::cannot(rt, s, line),
    }
}

// Every entry of the plan.
pub fn entries(rt: &impl Print, s: Session) -> Session
    ensures { result ≡ s }
{
    if s.plan.count == 0 {
        let _ = println!(rt; "entries: none");
    }
    for e in s.plan.entries.iter().take(s.plan.count as usize) {
        tell(rt, "entries", *e);
    }
    s
}

// The label offered.
pub fn offer(rt: &impl Print, s: Session) -> Session
    ensures { result ≡ s }
{
    let answer = plan_calls::offer(s.plan);
    if answer.refusal != 0 {
        refused(rt, "offer", answer.refusal);
        return s;
    }
    let label = answer.label;
    let _ = match label {
        0 => println!(rt; "offer: none"),
        _ => println!(rt; "offer: label {label}"),
    };
    s
}

// A label that was released: its canister, and its tile, 0 where the plan hasn't the label.
fn released(rt: &impl Print, label: u32, c: Canister, entries: &[Entry; 64]) {
    let mut tile = 0;
    for e in entries {
        if u32::from(e.label) == label {
            tile = e.tile;
        }
    }
    let placed = Placed(c);
    let _ = println!(rt; "release: label {label} is {placed} on tile {tile}");
}

pub fn release(rt: &impl Print, s: Session, line: &[u8]) -> Session
    ensures { result ≡ release_typed s line.now }
{
    let Some(n) = console_parse::arguments(line, 1) else {
        return console_session::cannot(rt, s, line);
    };
    let answer = plan_calls::release(s.plan, s.floor, n[0]);
    if !s.made {
        return console_session::refused(rt, s, "release", answer.refusal);
    }
    if answer.refusal != 0 {
        refused(rt, "release", answer.refusal);
        return s;
    }
    let c = Canister {
        number: answer.number,
        a: answer.a,
        b: answer.b,
    };
    released(rt, n[0], c, &s.plan.entries);
    let next = console_session::with_floor(s, answer.floor);
    with_plan(next, answer.plan)
}

// The labels that a report marked delivered.
fn marked(rt: &impl Print, before: &[Entry; 64], after: &[Entry; 64]) {
    for (old, new) in before.iter().zip(after) {
        if old.stage != new.stage {
            let label = new.label;
            let _ = println!(rt; "plan: label {label} delivered");
        }
    }
}

// Hands a round's report to the plan, and tells the labels that it marks. A refused report gives the plan back as it was.
pub fn follow(rt: &impl Print, s: Session, report: Report) -> Session
    ensures { result ≡ with_plan s (report_answer s.plan report).plan }
{
    let answer = plan_calls::report(s.plan, report);
    marked(rt, &s.plan.entries, &answer.plan.entries);
    with_plan(s, answer.plan)
}
