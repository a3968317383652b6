// The calls on a floor; book, book_anywhere, book_list and, by value, book_places, bound, and keep, forget and recall come
// from crates of their own. Each takes any bytes, and its contract determines the whole answer on all of them.
#![tactic(auto)]

ghost use Rattle.std.specs.Prelude.{◌≡◌};
ghost use Rattle.floor.specs.Numbers.{refusal_number};
ghost use Rattle.floor.specs.Calls.{fresh_answer, stop_answer, repair_answer, read_answer, round_answer};
ghost use Rattle.calls.specs.InternalRefused.{unread_with};

pub use book_anywhere::book_anywhere;
pub use book_call::book;
pub use book_list::{book_list, book_places};
pub use bound_call::bound;
use call_parts::{
    fresh_floor, repaired_floor, stopped_floor, test_read, test_repair, test_stop, tile_head,
    tile_members,
};
use check_floor::well_formed;
use check_settings::test_settings;
use floor::{
    Answer, Canister, Floor, Reading, Refusal, Report, Rounded, Settings, Tile, zero_floor,
};
pub use layout_calls::{forget, keep, recall};
use round_move::run_round;

// A fresh floor; refused, the all-zero floor.
pub fn fresh(settings: Settings) -> Answer
    ensures { result ≡ fresh_answer settings }
{
    if let Err(why) = test_settings(settings) {
        return Answer {
            floor: zero_floor(),
            refusal: u8::from(why),
        };
    }
    Answer {
        floor: fresh_floor(settings),
        refusal: 0,
    }
}

// A refused call leaves the floor as it came.
fn refused(floor: Floor, why: Refusal) -> Answer
    ensures { result ≡ record { floor = floor; refusal = refusal_number why } }
{
    Answer {
        floor,
        refusal: u8::from(why),
    }
}

// Stops a running tile. Its canisters stay on it. One function for stop and repair would take the test, the floor after and
// the definition as parameters, and be no plainer.
pub fn stop(floor: Floor, tile: u32) -> Answer
    ensures { result ≡ stop_answer floor tile }
{
    if !well_formed(floor) {
        return refused(floor, Refusal::Malformed);
    }
    if let Err(why) = test_stop(floor, tile) {
        return refused(floor, why);
    }
    let stopped = stopped_floor(floor, tile);
    Answer {
        floor: stopped,
        refusal: 0,
    }
}

// Sets a stopped tile running again.
pub fn repair(floor: Floor, tile: u32) -> Answer
    ensures { result ≡ repair_answer floor tile }
{
    if !well_formed(floor) {
        return refused(floor, Refusal::Malformed);
    }
    if let Err(why) = test_repair(floor, tile) {
        return refused(floor, why);
    }
    let repaired = repaired_floor(floor, tile);
    Answer {
        floor: repaired,
        refusal: 0,
    }
}

// A refused reading: zeros.
fn unread(why: Refusal) -> Reading
    ensures { result ≡ unread_with (refusal_number why) }
{
    Reading {
        refusal: u8::from(why),
        tile: Tile::ZERO,
        members: [Canister::ZERO; 16],
    }
}

// Reads a tile with its canisters.
pub fn read(floor: Floor, tile: u32) -> Reading
    ensures { result ≡ read_answer floor tile }
{
    if !well_formed(floor) {
        return unread(Refusal::Malformed);
    }
    if let Err(why) = test_read(floor, tile) {
        return unread(why);
    }
    Reading {
        refusal: 0,
        tile: tile_head(floor, tile),
        members: tile_members(floor, tile),
    }
}

// One round: Route and Signal, then Move.
pub fn round(floor: Floor) -> Rounded
    ensures { result ≡ round_answer floor }
{
    if !well_formed(floor) {
        return Rounded {
            floor,
            report: Report::ZERO,
            refusal: u8::from(Refusal::Malformed),
        };
    }
    run_round(floor)
}
