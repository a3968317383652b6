// Floors as they are typed: made, shown, kept in a file and taken from one.
#![tactic(auto)]

ghost use Rattle.std.specs.Prelude.{◌≡◌};
ghost use Rattle.console_floors.specs.Held.{taken_by};

use console_files::Unsaved;
use console_parse::Sources;
use console_session::Session;
use floor::{Answer, Settings};
use std::rt::Files;

// Every tile but the hoppers.
fn all_sources(s: Settings) -> u64 {
    let n = s.tile_count();
    if 64 < n {
        return 0;
    }
    sets::minus(sets::full(n as u8), s.hoppers)
}

// The settings of a `fresh`; none where the line can't be read.
fn chosen(line: &[u8]) -> Option<Settings> {
    let grid = console_parse::numbers_at(line, 1, 2)?;
    let measures = console_parse::last_numbers(line, 5, 4)?;
    let settings = Settings {
        columns: console_parse::byte(grid[0]),
        rows: console_parse::byte(grid[1]),
        hoppers: console_parse::tiles_at(line, 3)?,
        sources: 0,
        width: console_parse::short(measures[0]),
        length: console_parse::short(measures[1]),
        gap: console_parse::short(measures[2]),
        travel: console_parse::short(measures[3]),
    };
    let sources = match console_parse::sources_at(line, 4)? {
        Sources::All => all_sources(settings),
        Sources::Set(set) => set,
    };
    Some(Settings {
        sources,
        ..settings
    })
}

// Takes the floor that a call gave. Refused, the floor stays as it was; one that holds canisters is given up by the call
// with `!` alone.
fn taken(rt: &impl Print, s: Session, call: &str, answer: Answer, give_up: bool) -> Session
    ensures { result ≡ taken_by s answer give_up }
{
    if answer.refusal != 0 {
        console_say::refused(rt, call, answer.refusal);
        return s;
    }
    let canisters = console_session::held(s.floor.counters);
    if (0 < canisters) & !give_up {
        console_say::holds(rt, call, canisters);
        return s;
    }
    console_show::made(rt, call, answer.floor.settings);
    console_session::begun(rt, s, answer.floor)
}

// Makes a floor.
pub fn fresh(rt: &impl Print, s: Session, line: &[u8], give_up: bool) -> Session {
    match chosen(line) {
        Some(settings) => taken(rt, s, "fresh", calls::fresh(settings), give_up),
        None => console_session::cannot(rt, s, line),
    }
}

// Keeps the floor in a file.
pub fn save(rt: &(impl Files + Print), s: Session, line: &[u8]) -> Session
    ensures { result ≡ s }
{
    if !console_parse::ended(line, 2) {
        return console_session::cannot(rt, s, line);
    }
    let path = console_words::nth(line, 1);
    match console_files::save(rt, s.floor, path) {
        Ok(length) => console_say::saved(rt, Some(length), path),
        Err(Unsaved::Unwritten) => console_say::saved(rt, None, path),
        Err(Unsaved::Refused(n)) => return console_session::refused(rt, s, "save", n),
    }
    s
}

// Takes the floor of a file.
pub fn load(rt: &(impl Files + Print), s: Session, line: &[u8], give_up: bool) -> Session {
    if !console_parse::ended(line, 2) {
        return console_session::cannot(rt, s, line);
    }
    let path = console_words::nth(line, 1);
    match console_files::load(rt, path) {
        Some(answer) => taken(rt, s, "load", answer, give_up),
        None => {
            console_say::unread(rt, path);
            s
        }
    }
}

// Shows the floor.
pub fn show(rt: &impl Print, s: Session) -> Session
    ensures { result ≡ s }
{
    let answer = calls::read(s.floor, 0);
    if answer.refusal != 0 {
        return console_session::refused(rt, s, "show", answer.refusal);
    }
    let _ = print!(rt; "show: ");
    console_show::counters(rt, s.floor.counters, s.floor.settings.hoppers, s.rounds);
    console_files::show(rt, s.floor);
    s
}
