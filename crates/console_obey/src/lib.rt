// One typed line obeyed: which command it names.
#![tactic(auto)]

use console_barge::WithBarge;
use console_session::Session;
use std::rt::Files;

// Obeys a line of one word.
fn alone(rt: &impl Print, s: Session, line: &[u8]) -> Session {
    match console_words::nth(line, 0) {
        b"round" => console_rounds::round(rt, s),
        b"show" => console_floors::show(rt, s),
        b"list" => console_book::list(s),
        b"why" => console_rounds::why(rt, s),
        b"throughput" => console_rounds::throughput(rt, s),
        b"layouts" => console_tiles::layouts(rt, s),
        b"help" => {
            console_say::help(rt);
            s
        }
        b"quit" => console_session::ended(s),
        b"plan" => console_plan::plan(rt, s),
        b"entries" => console_plan::entries(rt, s),
        b"offer" => console_plan::offer(rt, s),
        _ => console_session::cannot(rt, s, line),
    }
}

// Obeys a line of several words.
fn worded(rt: &(impl Files + Print), s: Session, line: &[u8]) -> Session {
    match console_words::nth(line, 0) {
        b"fresh" => console_floors::fresh(rt, s, line, false),
        b"fresh!" => console_floors::fresh(rt, s, line, true),
        b"book" => console_book::book(rt, s, line),
        b"stop" => console_tiles::stop(rt, s, line),
        b"repair" => console_tiles::repair(rt, s, line),
        b"rounds" => console_rounds::rounds(rt, s, line),
        b"read" => console_tiles::read(rt, s, line),
        b"keep" => console_tiles::keep(rt, s, line),
        b"recall" => console_tiles::recall(rt, s, line),
        b"forget" => console_tiles::forget(rt, s, line),
        b"save" => console_floors::save(rt, s, line),
        b"load" => console_floors::load(rt, s, line, false),
        b"load!" => console_floors::load(rt, s, line, true),
        b"entry" => console_plan::entry(rt, s, line),
        b"release" => console_plan::release(rt, s, line),
        _ => console_session::cannot(rt, s, line),
    }
}

// Obeys a line about the lone floor.
fn lone(rt: &(impl Files + Print), s: Session, line: &[u8]) -> Session {
    if console_parse::ended(line, 1) {
        alone(rt, s, line)
    } else {
        worded(rt, s, line)
    }
}

// Obeys one line. A line of a list is none about the barge.
pub fn obey(rt: &(impl Files + Print), a: WithBarge, line: &[u8]) -> WithBarge {
    if a.session.entries.begun {
        return console_barge::with_session(a, console_book::obey_list(rt, a.session, line));
    }
    match console_words::nth(line, 0) {
        b"barge" => console_barge::barge(rt, a, line),
        b"allowance" => console_barge::allowance(rt, a, line),
        b"put" => console_barge::put(rt, a, line, false),
        b"put!" => console_barge::put(rt, a, line, true),
        b"take" => console_barge::take(rt, a, line, false),
        b"take!" => console_barge::take(rt, a, line, true),
        b"on" => console_on::on(rt, a, line),
        _ => console_barge::with_session(a, lone(rt, a.session, line)),
    }
}
