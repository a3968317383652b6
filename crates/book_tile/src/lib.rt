// A booking on one tile: what refuses it, and the tile's head and the counters that an accepted one leaves.
#![tactic(auto)]

ghost use Rattle.std.specs.Prelude.{◌≡◌, ◌≤◌, ◌<◌};
ghost use Rattle.laws.specs.Define.{all_of, refusal};
ghost use Rattle.floor.specs.Numbers.{answered};
ghost use Rattle.floor.specs.Settings.{total, spacing};
ghost use Rattle.floor.specs.Memory.{with_count};
ghost use Rattle.floor.specs.Well.{apart};
ghost use Rattle.floor.specs.Calls.{booking_tests, with_booking};

use check_places::stands_apart;
use floor::{Canister, Counters, Refusal, Settings, Tile};
use sets::has;

// Whether the canister stands apart from each of the tile's own.
fn has_room(s: Settings, c: Canister, own: &[Canister]) -> bool
    ensures { result ≡ all_of (apart (spacing s) c) own.now }
{
    // not `all`: it would branch at each
    let mut ok = true;
    for other in own {
        ok &= stands_apart(s, c, *other);
    }
    ok
}

// Refuses a booking by the settings, the last number, and what the tile has.
pub fn test_booking(
    s: Settings,
    last: u32,
    tile: u32,
    c: Canister,
    running: u8,
    own: &[Canister],
) -> Result<(), Refusal>
    requires { (total s ≤ 64) × (s.length ≤ s.width) }
    ensures { answered result ≡ refusal (booking_tests s last tile c running own.now) }
{
    let off = s.tile_count() <= tile as usize;
    let fill = has(s.sources, (tile % 64) as u8);
    if off {
        return Err(Refusal::NoTile);
    }
    if !fill {
        return Err(Refusal::NotASource);
    }
    if c.number == 0 {
        return Err(Refusal::NumberZero);
    }
    let span = s.width - s.length;
    let within = (c.a <= span) & (c.b <= span);
    if !within {
        return Err(Refusal::Outside);
    }
    let idle = running != 1;
    let past = c.number <= last;
    if idle {
        return Err(Refusal::Stopped);
    }
    if past {
        return Err(Refusal::NumberUsed);
    }
    if !has_room(s, c, own) {
        return Err(Refusal::TooClose);
    }
    Ok(())
}

// A tile's head with another count.
pub fn with_count(old: Tile, n: u8) -> Tile
    ensures { result ≡ with_count old n }
{
    Tile { count: n, ..old }
}

// The counters after a booking.
pub fn with_booking(counters: Counters, number: u32) -> Counters
    requires { counters.booked < number }
    ensures { result ≡ with_booking counters number }
{
    Counters {
        last: number,
        booked: counters.booked + 1,
        ..counters
    }
}
