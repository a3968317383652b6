// Calls on one floor of the barge as they are typed: on FLOOR, then the call.
#![tactic(auto)]

ghost use Rattle.std.specs.Prelude.{◌≡◌, ◌≤◌};
ghost use Rattle.barge.specs.Barges.{barge_book, barge_book_anywhere};
ghost use Rattle.console_on.specs.Typed.{arguments_on, answered_on, placed_on, stop_on, repair_on, book_on};

use barge::BargeAnswer;
use console_barge::WithBarge;
use console_show::On;
use floor::{Canister, Refusal};

// What the refusals of a call on a floor of the barge say there.
const MEANINGS: [(Refusal, &str); 3] = [
    (
        Refusal::Malformed,
        "the allowance isn't 1 to 4032, or a floor isn't there",
    ),
    console_barge::NO_FLOOR,
    (Refusal::Overloaded, "the allowance is used up"),
];

// The beginning of a line about a floor of the barge.
fn on_floor(rt: &impl Print, floor: u32) {
    let on = On(Some(floor));
    let _ = print!(rt; "{on}");
}

fn refused(rt: &impl Print, floor: u32, call: &str, n: u8) {
    on_floor(rt, floor);
    console_say::refused_as(rt, call, n, &MEANINGS);
}

// After a call's answer: the barge that it gives, or the refusal told.
fn answered(rt: &impl Print, a: WithBarge, floor: u32, call: &str, answer: BargeAnswer) -> WithBarge
    ensures { result ≡ answered_on a answer }
{
    if answer.refusal != 0 {
        refused(rt, floor, call, answer.refusal);
        return a;
    }
    console_barge::with_barge(a, answer.barge)
}

// The numbers after the call's name, and nothing after them.
fn arguments(line: &[u8], count: usize) -> Option<[u32; 4]>
    requires { count ≤ 4 }
    ensures { result ≡ arguments_on line.now count }
{
    console_parse::last_numbers(line, 3, count)
}

// A booking without a place; the place found is told.
fn anywhere(rt: &impl Print, a: WithBarge, floor: u32, tile: u32, number: u32) -> WithBarge
    ensures { result ≡ placed_on a (barge_book_anywhere a.barge floor tile number) }
{
    let answer = barge_calls::book_anywhere(a.barge, floor, tile, number);
    if answer.refusal != 0 {
        refused(rt, floor, "book", answer.refusal);
        return a;
    }
    let c = Canister {
        number,
        a: answer.a,
        b: answer.b,
    };
    on_floor(rt, floor);
    console_say::booked(rt, c, tile);
    console_barge::with_barge(a, answer.barge)
}

// A booking.
fn placed(rt: &impl Print, a: WithBarge, floor: u32, tile: u32, c: Canister) -> WithBarge
    ensures { result ≡ answered_on a (barge_book a.barge floor tile c) }
{
    let answer = barge_calls::book(a.barge, floor, tile, c);
    if answer.refusal == 0 {
        on_floor(rt, floor);
        console_say::booked(rt, c, tile);
    }
    answered(rt, a, floor, "book", answer)
}

fn book(rt: &impl Print, a: WithBarge, line: &[u8], floor: u32) -> WithBarge
    ensures { result ≡ book_on a line.now floor }
{
    if let Some(n) = arguments(line, 2) {
        return anywhere(rt, a, floor, n[0], n[1]);
    }
    match arguments(line, 4) {
        Some(n) => placed(rt, a, floor, n[0], console_book::canister(n)),
        None => console_barge::cannot(rt, a, line),
    }
}

// What a call about a tile answered, and how the tile is now.
fn pressed(
    rt: &impl Print,
    a: WithBarge,
    floor: u32,
    call: &str,
    tile: u32,
    answer: BargeAnswer,
    now: &str,
) -> WithBarge
    ensures { result ≡ answered_on a answer }
{
    if answer.refusal == 0 {
        on_floor(rt, floor);
        console_say::pressed(rt, call, tile, now);
    }
    answered(rt, a, floor, call, answer)
}

fn stop(rt: &impl Print, a: WithBarge, line: &[u8], floor: u32) -> WithBarge
    ensures { result ≡ stop_on a line.now floor }
{
    match arguments(line, 1) {
        Some(n) => {
            let answer = barge_calls::stop(a.barge, floor, n[0]);
            pressed(rt, a, floor, "stop", n[0], answer, "stopped")
        }
        None => console_barge::cannot(rt, a, line),
    }
}

fn repair(rt: &impl Print, a: WithBarge, line: &[u8], floor: u32) -> WithBarge
    ensures { result ≡ repair_on a line.now floor }
{
    match arguments(line, 1) {
        Some(n) => {
            let answer = barge_calls::repair(a.barge, floor, n[0]);
            pressed(rt, a, floor, "repair", n[0], answer, "running")
        }
        None => console_barge::cannot(rt, a, line),
    }
}

// A round of one floor, told with its number.
fn round(rt: &impl Print, a: WithBarge, line: &[u8], floor: u32) -> WithBarge {
    if !console_parse::ended(line, 3) {
        return console_barge::cannot(rt, a, line);
    }
    let answer = barge_calls::round(a.barge, floor);
    if answer.refusal != 0 {
        refused(rt, floor, "round", answer.refusal);
        return a;
    }
    let after = answer.barge;
    let k = console_barge::place(floor);
    let mut rounds = a.rounds;
    rounds[k] = rounds[k].wrapping_add(1);
    let hoppers = after.floors[k].settings.hoppers;
    let on = On(Some(floor));
    console_show::delivered(rt, on, rounds[k], hoppers, &answer.report.deliveries);
    let mut next = console_barge::with_barge(a, after);
    next.rounds = rounds;
    next
}

// Obeys a line about one floor.
pub fn on(rt: &impl Print, a: WithBarge, line: &[u8]) -> WithBarge {
    let Some(n) = console_parse::numbers_at(line, 1, 1) else {
        return console_barge::cannot(rt, a, line);
    };
    match console_words::nth(line, 2) {
        b"book" => book(rt, a, line, n[0]),
        b"stop" => stop(rt, a, line, n[0]),
        b"repair" => repair(rt, a, line, n[0]),
        b"round" => round(rt, a, line, n[0]),
        _ => console_barge::cannot(rt, a, line),
    }
}
