// Rounds as they are typed, and what is told of them afterwards.
#![tactic(auto)]

ghost use Rattle.std.specs.Prelude.{◌≡◌};
ghost use Rattle.floor.specs.Calls.{round_answer};
ghost use Rattle.console_rounds.specs.Typed.{stepped_by, report_told, round_typed};

use console_session::Session;
use console_show::On;
use floor::{Refusal, Report};

// `rounds` takes at most this many.
const MOST: u32 = 100000;

// A round, and what it gave. No Result: `stepped_by` gives the session and the report of a refused round too.
#[derive(Clone, Copy)]
struct Stepped {
    session: Session,
    report: Report,
    refusal: u8,
    closed: bool,
}

fn step(s: Session) -> Stepped
    ensures { result ≡ stepped_by s (round_answer s.floor) }
{
    let answer = calls::round(s.floor);
    let report = answer.report;
    if answer.refusal != 0 {
        return Stepped {
            session: s,
            report,
            refusal: answer.refusal,
            closed: false,
        };
    }
    let followed = console_throughput::follow(s.records, report.deliveries);
    let records = followed.records;
    let reasons = report.reasons;
    let missing = report.missing;
    let next = Session {
        floor: answer.floor,
        records,
        reasons,
        missing,
        rounds: s.rounds.wrapping_add(1),
        ..s
    };
    Stepped {
        session: next,
        report,
        refusal: 0,
        closed: followed.closed,
    }
}

// Tells what a round delivered and the rates of the windows that it closed, and hands its report to the plan.
fn told(rt: &impl Print, s: Session, report: Report, closed: bool) -> Session
    ensures { result ≡ report_told s report }
{
    let hoppers = s.floor.settings.hoppers;
    console_show::delivered(rt, On(None), s.rounds, hoppers, &report.deliveries);
    let next = console_plan::follow(rt, s, report);
    window(rt, next, closed);
    next
}

pub fn round(rt: &impl Print, s: Session) -> Session
    ensures { result ≡ round_typed s }
{
    let done = step(s);
    if done.refusal != 0 {
        return console_session::refused(rt, done.session, "round", done.refusal);
    }
    told(rt, done.session, done.report, done.closed)
}

// The rates of the windows that a round closed.
fn window(rt: &impl Print, s: Session, closed: bool) {
    if closed {
        console_throughput::closed(rt, s.rounds, s.floor.settings.hoppers, &s.records);
    }
}

// Goes n rounds and tells the rounds that deliver or close a window; ends early where a round is refused. A report that
// lists nothing changes no plan.
fn go(rt: &impl Print, s: Session, n: u32) -> Session {
    let mut next = s;
    for _ in 0..n {
        let done = step(next);
        if done.refusal != 0 {
            return console_session::refused(rt, next, "rounds", done.refusal);
        }
        next = done.session;
        if console_show::some(&done.report.deliveries) {
            next = told(rt, next, done.report, done.closed);
        } else {
            window(rt, next, done.closed);
        }
    }
    console_show::rounds(rt, n, next.rounds);
    next
}

pub fn rounds(rt: &impl Print, s: Session, line: &[u8]) -> Session {
    let Some(n) = console_parse::arguments(line, 1) else {
        return console_session::cannot(rt, s, line);
    };
    if !s.made {
        return console_session::refused(rt, s, "rounds", 0);
    }
    if MOST < n[0] {
        let _ = println!(rt; "rounds: at most {MOST}");
        return s;
    }
    go(rt, s, n[0])
}

// Why each tile stood in the last round.
pub fn why(rt: &impl Print, s: Session) -> Session
    ensures { result ≡ s }
{
    if !s.made {
        return console_session::refused(rt, s, "why", u8::from(Refusal::Malformed));
    }
    if s.rounds == 0 {
        let _ = println!(rt; "why: no round yet");
        return s;
    }
    console_show::why(rt, s.rounds, &s.reasons, &s.missing);
    s
}

// The throughput of each hopper.
pub fn throughput(rt: &impl Print, s: Session) -> Session
    ensures { result ≡ s }
{
    if !s.made {
        return console_session::refused(rt, s, "throughput", u8::from(Refusal::Malformed));
    }
    console_throughput::show(rt, s.floor.settings.hoppers, &s.records);
    s
}
