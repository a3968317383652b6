// Calls about one tile, and about layouts, as they are typed.
#![tactic(auto)]

ghost use Rattle.std.specs.Prelude.{◌≡◌};
ghost use Rattle.console_tiles.specs.Typed.{after_answer, stop_typed, repair_typed, keep_typed, recall_typed, forget_typed};

use console_session::Session;
use floor::{Answer, Name};

// What a call about a tile answered, and how the tile is now.
fn pressed(rt: &impl Print, s: Session, call: &str, tile: u32, answer: Answer, now: &str) -> Session
    ensures { result ≡ after_answer s answer }
{
    if answer.refusal == 0 {
        console_say::pressed(rt, call, tile, now);
    }
    console_session::answered(rt, s, call, answer)
}

pub fn stop(rt: &impl Print, s: Session, line: &[u8]) -> Session
    ensures { result ≡ stop_typed s line.now }
{
    match console_parse::arguments(line, 1) {
        Some(n) => pressed(rt, s, "stop", n[0], calls::stop(s.floor, n[0]), "stopped"),
        None => console_session::cannot(rt, s, line),
    }
}

pub fn repair(rt: &impl Print, s: Session, line: &[u8]) -> Session
    ensures { result ≡ repair_typed s line.now }
{
    match console_parse::arguments(line, 1) {
        Some(n) => pressed(
            rt,
            s,
            "repair",
            n[0],
            calls::repair(s.floor, n[0]),
            "running",
        ),
        None => console_session::cannot(rt, s, line),
    }
}

pub fn read(rt: &impl Print, s: Session, line: &[u8]) -> Session
    ensures { result ≡ s }
{
    let Some(n) = console_parse::arguments(line, 1) else {
        return console_session::cannot(rt, s, line);
    };
    let answer = calls::read(s.floor, n[0]);
    if answer.refusal != 0 {
        return console_session::refused(rt, s, "read", answer.refusal);
    }
    console_show::reading(rt, n[0], answer.tile, &answer.members);
    s
}

// What a call about a name answered.
fn named(rt: &impl Print, s: Session, call: &str, letters: [u8; 8], answer: Answer) -> Session
    ensures { result ≡ after_answer s answer }
{
    if answer.refusal == 0 {
        console_show::named(rt, call, letters);
    }
    console_session::answered(rt, s, call, answer)
}

// keep, recall and forget differ in the call and its definition: one function over both would be no plainer.
pub fn keep(rt: &impl Print, s: Session, line: &[u8]) -> Session
    ensures { result ≡ keep_typed s line.now }
{
    if !console_parse::ended(line, 2) {
        return console_session::cannot(rt, s, line);
    }
    let letters = console_parse::name_at(line, 1);
    let answer = calls::keep(s.floor, Name { letters });
    named(rt, s, "keep", letters, answer)
}

pub fn recall(rt: &impl Print, s: Session, line: &[u8]) -> Session
    ensures { result ≡ recall_typed s line.now }
{
    if !console_parse::ended(line, 2) {
        return console_session::cannot(rt, s, line);
    }
    let letters = console_parse::name_at(line, 1);
    let answer = calls::recall(s.floor, Name { letters });
    named(rt, s, "recall", letters, answer)
}

pub fn forget(rt: &impl Print, s: Session, line: &[u8]) -> Session
    ensures { result ≡ forget_typed s line.now }
{
    if !console_parse::ended(line, 2) {
        return console_session::cannot(rt, s, line);
    }
    let letters = console_parse::name_at(line, 1);
    let answer = calls::forget(s.floor, Name { letters });
    named(rt, s, "forget", letters, answer)
}

// The layouts held, by rising name.
pub fn layouts(rt: &impl Print, s: Session) -> Session
    ensures { result ≡ s }
{
    let answer = calls::read(s.floor, 0);
    if answer.refusal != 0 {
        return console_session::refused(rt, s, "layouts", answer.refusal);
    }
    console_show::layouts(rt, &s.floor.layouts);
    s
}
