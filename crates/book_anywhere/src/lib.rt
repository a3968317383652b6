// A booking without a place, a call on a floor. It takes any bytes, and its contract determines the whole answer on all of
// them.
#![tactic(auto)]

ghost use Rattle.std.specs.Prelude.{◌≡◌, ◌≤◌, ◌<◌, IfOk};
ghost use Rattle.laws.specs.Define.{refusal};
ghost use Rattle.floor.specs.Numbers.{answered};
ghost use Rattle.floor.specs.Settings.{total};
ghost use Rattle.floor.specs.Memory.{view};
ghost use Rattle.floor.specs.Well.{well_formed};
ghost use Rattle.floor.specs.Calls.{refusal_of};
ghost use Rattle.floor.specs.Anywhere.{place_a, place_b, placing_tests, anywhere_tests, placed_at, anywhere_answer};

use book_call::{own_at, put};
use book_search::find_place;
use book_tile::test_booking;
use check_floor::well_formed;
use floor::{Canister, Floor, Placed, Refusal, Settings};

// The canister at the lowest place, or what refuses it. The lowest of all places, 0, 0, is tried as a booking's, with its
// tests; only where it is too near to a canister is another searched for.
fn find(
    s: Settings,
    last: u32,
    tile: u32,
    number: u32,
    running: u8,
    own: &[Canister],
) -> Result<Canister, Refusal>
    requires { (total s ≤ 64) × (s.length ≤ s.width) × (s.width ≤ 60000) }
    ensures number { answered result ≡ refusal (placing_tests s last tile number running own.now) }
    ensures place { IfOk result (λ c. c ≡ record { number = number; a = place_a s own.now; b = place_b s own.now }) }
{
    let corner = Canister { number, a: 0, b: 0 };
    match test_booking(s, last, tile, corner, running, own) {
        Ok(()) => Ok(corner),
        Err(why) => match why {
            Refusal::TooClose => match find_place(s, own) {
                Some(place) => Ok(Canister {
                    number,
                    a: place.a,
                    b: place.b,
                }),
                None => Err(Refusal::NoPlace),
            },
            _ => Err(why),
        },
    }
}

// Books in place, where it is known whether the floor is well formed; the canister booked.
fn book_on(floor: &mut Floor, tile: u32, number: u32, well: bool) -> Result<Canister, Refusal>
    requires { well ≡ well_formed floor.old }
    ensures number { answered result ≡ refusal_of floor.old (anywhere_tests (view floor.old) tile number) }
    ensures place { IfOk result (λ c. c ≡ placed_at (view floor.old) tile number) }
    ensures after { floor.new ≡ (anywhere_answer floor.old tile number).floor }
{
    if !well {
        return Err(Refusal::Malformed);
    }
    let own = own_at(floor, tile);
    let running = floor.tiles[(tile % 64) as usize].running;
    let canister = find(
        floor.settings,
        floor.counters.last,
        tile,
        number,
        running,
        &own.items[..own.count as usize],
    )?;
    put(floor, tile, own, canister);
    Ok(canister)
}

// A booking without a place where it is known already whether the floor is well formed. As in `book_checked`, the floor is
// copied once and has one way out.
pub fn anywhere_checked(floor: Floor, tile: u32, number: u32, well: bool) -> Placed
    requires { well ≡ well_formed floor }
    ensures { result ≡ anywhere_answer floor tile number }
{
    let mut changed = floor;
    let (a, b, refusal) = match book_on(&mut changed, tile, number, well) {
        Ok(canister) => (canister.a, canister.b, 0),
        Err(why) => (0, 0, u8::from(why)),
    };
    Placed {
        floor: changed,
        a,
        b,
        refusal,
    }
}

// Books a canister on a fill tile, at the lowest place that keeps the spacing.
pub fn book_anywhere(floor: Floor, tile: u32, number: u32) -> Placed
    ensures { result ≡ anywhere_answer floor tile number }
{
    anywhere_checked(floor, tile, number, well_formed(floor))
}
