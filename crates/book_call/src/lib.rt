// Book, a call on a floor. It takes any bytes, and its contract determines the whole answer on all of them.
#![tactic(auto)]

ghost use Rattle.std.specs.Prelude.{◌≡◌, true};
ghost use Rattle.laws.specs.Define.{refusal};
ghost use Rattle.floor.specs.Numbers.{answered};
ghost use Rattle.floor.specs.Memory.{view, pack};
ghost use Rattle.floor.specs.Well.{well_formed};
ghost use Rattle.floor.specs.Calls.{refusal_of, book_tests, booked, book_answer};
ghost use Rattle.book_call.specs.InternalOwn.{own_of};

use book_tile::{test_booking, with_booking, with_count};
use check_floor::well_formed;
use floor::{Answer, Canister, Floor, Refusal, answered};
use round_members::{Members, insert};

// The canisters of a tile. `% 64` keeps the index within the arrays: a number beyond the floor reads some other tile here,
// and the booking's tests answer 4 for it before they use what was read.
pub fn own_at(floor: &Floor, tile: u32) -> Members
    requires { well_formed floor.now ≡ true }
    ensures { result ≡ own_of floor.now tile }
{
    let t = (tile % 64) as usize;
    let mut items = [Canister::ZERO; 16];
    items.copy_from_slice(&floor.canisters[16 * t..16 * t + 16]);
    Members {
        items,
        count: floor.tiles[t].count,
    }
}

// Puts a canister that no test refuses on its tile, in place.
pub fn put(floor: &mut Floor, tile: u32, own: Members, canister: Canister)
    requires well { well_formed floor.old ≡ true }
    requires read { own ≡ own_of floor.old tile }
    requires passed { refusal (book_tests (view floor.old) tile canister) ≡ 0 }
    ensures { floor.new ≡ pack (booked (view floor.old) tile canister) }
{
    let t = tile as usize;
    let more = insert(own, canister);
    floor.canisters[16 * t..16 * t + 16].copy_from_slice(&more.items);
    floor.tiles[t] = with_count(floor.tiles[t], more.count);
    floor.counters = with_booking(floor.counters, canister.number);
}

// Books in place, where it is known whether the floor is well formed. A list books so: no entry costs a copy of the floor.
pub fn book_on(floor: &mut Floor, tile: u32, canister: Canister, well: bool) -> Result<(), Refusal>
    requires { well ≡ well_formed floor.old }
    ensures number { answered result ≡ refusal_of floor.old (book_tests (view floor.old) tile canister) }
    ensures after { floor.new ≡ (book_answer floor.old tile canister).floor }
{
    if !well {
        return Err(Refusal::Malformed);
    }
    let own = own_at(floor, tile);
    let running = floor.tiles[(tile % 64) as usize].running;
    test_booking(
        floor.settings,
        floor.counters.last,
        tile,
        canister,
        running,
        &own.items[..own.count as usize],
    )?;
    put(floor, tile, own, canister);
    Ok(())
}

// A booking where it is known already whether the floor is well formed. The floor is copied once and changed in place, and
// has one way out: each further way costs another copy.
pub fn book_checked(floor: Floor, tile: u32, canister: Canister, well: bool) -> Answer
    requires { well ≡ well_formed floor }
    ensures { result ≡ book_answer floor tile canister }
{
    let mut changed = floor;
    let refusal = answered(book_on(&mut changed, tile, canister, well));
    Answer {
        floor: changed,
        refusal,
    }
}

// Books a canister on a fill tile.
pub fn book(floor: Floor, tile: u32, canister: Canister) -> Answer
    ensures { result ≡ book_answer floor tile canister }
{
    book_checked(floor, tile, canister, well_formed(floor))
}
