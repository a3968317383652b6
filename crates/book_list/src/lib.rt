// A list of bookings in one call. It takes any bytes, and its contract determines the whole answer, and every entry, on all
// of them.
#![tactic(auto)]

ghost use Rattle.std.specs.Prelude.{◌≡◌, ◌<◌, ◌≤◌, length, MatchOption};
ghost use Rattle.floor.specs.Numbers.{answered};
ghost use Rattle.floor.specs.Well.{well_formed};
ghost use Rattle.floor.specs.Bookings.{single, list_answer, list_after};
ghost use Rattle.book_list.specs.Parts.{places_answer};

use book_call::book_on;
use check_floor::well_formed;
use floor::{Answer, Booking, Floor, Refusal, answered};

// The most entries of a list.
const LONGEST_LIST: usize = 64;

// Whether the floor is well formed; nothing where a list has more than 64 entries: then the floor is not looked at.
fn begin_list(floor: Floor, n: usize) -> Option<bool>
    ensures { MatchOption result (64 < n) (λ well. (n ≤ 64) × (well ≡ well_formed floor)) }
{
    if LONGEST_LIST < n {
        return None;
    }
    let well = well_formed(floor);
    Some(well)
}

// Books one entry in place where it is known whether the floor is well formed; it is afterwards if it was before.
fn book_entry(floor: &mut Floor, b: Booking, well: bool) -> Result<(), Refusal>
    requires { well ≡ well_formed floor.old }
    ensures number { answered result ≡ (single floor.old b).refusal }
    ensures after { floor.new ≡ (single floor.old b).floor }
    ensures still { well_formed floor.new ≡ well_formed floor.old }
{
    book_on(floor, b.tile, b.canister, well)
}

// A list of more than 64 entries leaves the floor as it came.
fn too_long(floor: Floor) -> Answer
    ensures { result ≡ record { floor = floor; refusal = 42 } }
{
    Answer {
        floor,
        refusal: u8::from(Refusal::ListTooLong),
    }
}

// Books each entry in order and writes its answer; more than 64 entries are refused by 42. The floor is checked once.
pub fn book_list(floor: Floor, list: &mut [Booking]) -> Answer
    ensures { (result ≡ list_answer floor list.old) × (list.new ≡ list_after floor list.old) }
{
    let well = match begin_list(floor, list.len()) {
        Some(well) => well,
        None => return too_long(floor),
    };
    let mut current = floor;
    for entry in list.iter_mut() {
        entry.answer = answered(book_entry(&mut current, *entry, well));
    }
    Answer {
        floor: current,
        refusal: 0,
    }
}

// A list by value: 64 places, with the answers of those that were used.
#[derive(Clone, Copy, PartialEq, Eq)]
pub struct Listed {
    pub floor: Floor,
    pub list: [Booking; 64],
    pub refusal: u8,
}

// The same for the first n of 64 places, for a caller that has the entries by value.
pub fn book_places(floor: Floor, list: [Booking; 64], n: usize) -> Listed
    ensures { result ≡ places_answer floor list n }
{
    let mut places = list;
    let own = if n <= LONGEST_LIST {
        book_list(floor, &mut places[..n])
    } else {
        too_long(floor)
    };
    Listed {
        floor: own.floor,
        list: places,
        refusal: own.refusal,
    }
}
