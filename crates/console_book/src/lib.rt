// Bookings as they are typed: one with its place, one without, and a list of them.
#![tactic(auto)]

ghost use Rattle.std.specs.Prelude.{true, ◌≡◌};
ghost use Rattle.floor.specs.Calls.{book_answer};
ghost use Rattle.floor.specs.Anywhere.{anywhere_answer};
ghost use Rattle.console_list.specs.Entries.{no_entries};
ghost use Rattle.console_session.specs.Sessions.{with_entries};
ghost use Rattle.console_book.specs.Typed.{canister_typed, after_placed, after_booked, book_typed, sent, line_typed};

use console_session::Session;
use floor::{Booking, Canister};

// The canister that four numbers name after its tile.
pub fn canister(n: [u32; 4]) -> Canister
    ensures { result ≡ canister_typed n }
{
    Canister {
        number: n[1],
        a: console_parse::short(n[2]),
        b: console_parse::short(n[3]),
    }
}

// A booking without a place; the place found is told.
fn anywhere(rt: &impl Print, s: Session, tile: u32, number: u32) -> Session
    ensures { result ≡ after_placed s (anywhere_answer s.floor tile number) }
{
    let answer = calls::book_anywhere(s.floor, tile, number);
    if answer.refusal != 0 {
        return console_session::refused(rt, s, "book", answer.refusal);
    }
    let c = Canister {
        number,
        a: answer.a,
        b: answer.b,
    };
    console_say::booked(rt, c, tile);
    console_session::with_floor(s, answer.floor)
}

// A booking.
fn placed(rt: &impl Print, s: Session, tile: u32, c: Canister) -> Session
    ensures { result ≡ after_booked s (book_answer s.floor tile c) }
{
    let answer = calls::book(s.floor, tile, c);
    if answer.refusal == 0 {
        console_say::booked(rt, c, tile);
    }
    console_session::answered(rt, s, "book", answer)
}

pub fn book(rt: &impl Print, s: Session, line: &[u8]) -> Session
    ensures { result ≡ book_typed s line.now }
{
    if let Some(n) = console_parse::arguments(line, 2) {
        return anywhere(rt, s, n[0], n[1]);
    }
    match console_parse::arguments(line, 4) {
        Some(n) => placed(rt, s, n[0], canister(n)),
        None => console_session::cannot(rt, s, line),
    }
}

// Begins a list, or begins it again.
pub fn list(s: Session) -> Session
    ensures { result ≡ with_entries s (no_entries true) }
{
    Session {
        entries: console_list::none(true),
        ..s
    }
}

// Sends the list that was typed, and tells each answer.
fn send(rt: &impl Print, s: Session) -> Session
    ensures { result ≡ sent s }
{
    let typed = s.entries;
    let next = Session {
        entries: console_list::none(false),
        ..s
    };
    let answer = calls::book_places(s.floor, typed.list, typed.count);
    if (answer.refusal != 0) | !s.made {
        return console_session::refused(rt, next, "list", answer.refusal);
    }
    console_list::tell(rt, &answer.list, typed.count);
    console_session::with_floor(next, answer.floor)
}

// One more booking of the list.
fn entry(rt: &impl Print, s: Session, line: &[u8]) -> Session
    ensures { result ≡ line_typed s line.now }
{
    match console_parse::last_numbers(line, 0, 4) {
        Some(n) => {
            let b = Booking {
                tile: n[0],
                canister: canister(n),
                answer: 0,
            };
            Session {
                entries: console_list::with_entry(s.entries, b),
                ..s
            }
        }
        None => console_session::cannot(rt, s, line),
    }
}

// A line of a list: its end, its beginning once more, or an entry. A list in which `quit` stands is not sent.
pub fn obey_list(rt: &impl Print, s: Session, line: &[u8]) -> Session {
    if !console_parse::ended(line, 1) {
        return entry(rt, s, line);
    }
    if console_parse::is(line, 0, b"end") {
        return send(rt, s);
    }
    if console_parse::is(line, 0, b"list") {
        return list(s);
    }
    if console_parse::is(line, 0, b"quit") {
        return console_session::ended(s);
    }
    console_session::cannot(rt, s, line)
}
