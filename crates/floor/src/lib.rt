// The memory of a floor, the answers of the calls, and the sides of a tile.
#![tactic(auto)]

ghost use Rattle.std.specs.Prelude.{◌≡◌, ℕ, ◌+◌, ◌%◌, ◌≤◌, ◌<◌, eqb};
ghost use Rattle.laws.specs.Define.{bit};
ghost use Rattle.floor.specs.Settings.{total};
ghost use Rattle.floor.specs.Settings as T;
ghost use Rattle.floor.specs.Sides as S;
ghost use Rattle.floor.specs.Sides.{in_set};
ghost use Rattle.floor.specs.Grid as G;
ghost use Rattle.floor.specs.Memory.{zero_floor};

mod reason;
mod refusal;

pub use reason::Reason;
pub use refusal::{Refusal, answered};
use sets::has;

// A canister: its number, never 0, and its place, the south-west corner measured from the tile's.
#[repr(C)]
#[derive(Clone, Copy, PartialEq, Eq)]
pub struct Canister {
    pub number: u32,
    pub a: u16,
    pub b: u16,
}

impl Canister {
    // What stands in an unused place.
    pub const ZERO: Canister = Canister {
        number: 0,
        a: 0,
        b: 0,
    };
}

// The tiles of row 0 where a column has this many rows, as a set: no division for each tile.
fn first_row(rows: u8) -> u64
    requires { (1 ≤ rows) × (rows ≤ 8) }
    ensures { (t : ℕ) → t < 64 → bit result t ≡ eqb (t % rows) 0 }
{
    match rows {
        1 => 0xffffffffffffffff,
        2 => 0x5555555555555555,
        3 => 0x9249249249249249,
        4 => 0x1111111111111111,
        5 => 0x1084210842108421,
        6 => 0x1041041041041041,
        7 => 0x8102040810204081,
        _ => 0x0101010101010101,
    }
}

// A side of a tile, by document 01's number.
#[repr(C)]
#[derive(Clone, Copy, PartialEq, Eq)]
pub struct Side {
    pub code: u8,
}

impl Side {
    pub const NONE: Side = Side { code: 0 };

    pub const WEST: Side = Side { code: 1 };

    pub const SOUTH: Side = Side { code: 2 };

    pub const NORTH: Side = Side { code: 3 };

    pub const EAST: Side = Side { code: 4 };

    // The side that a neighbour has here. Opposite sides add up to five.
    pub fn opposite(self) -> Side
        ensures { result.code ≡ S.opposite self.code }
    {
        match self.code {
            1..=4 => Side {
                code: 5 - self.code,
            },
            _ => Side::NONE,
        }
    }

    // Whether this side is in the set; none never is.
    pub fn among(self, set: u8) -> bool
        requires { (self.code ≤ 4) × (set < 16) }
        ensures { result ≡ in_set set self.code }
    {
        (set << 1 >> self.code) & 1 == 1
    }

    // The first side of the set strictly after this one, coming round to itself; none if the set is empty.
    pub fn following(self, set: u8) -> Side
        requires { (self.code ≤ 4) × (set < 16) }
        ensures { result.code ≡ S.following (in_set set) self.code }
    {
        if set == 0 {
            return Side::NONE;
        }
        let beyond = set >> self.code << self.code;
        let sought = if beyond == 0 { set } else { beyond };
        Side {
            code: sought.trailing_zeros() as u8 + 1,
        }
    }

    // The tile beside t on this side; the number of tiles where there is none.
    pub fn neighbour(self, s: Settings, t: usize) -> usize
        requires { (1 ≤ s.rows) × (s.rows ≤ 8) × (total s ≤ 64) × (t < total s) }
        ensures { result ≡ G.neighbour s self.code t }
    {
        let rows = usize::from(s.rows);
        let all = s.tile_count();
        match self {
            Side::WEST => if rows <= t { t - rows } else { all },
            Side::SOUTH => if has(first_row(s.rows), t as u8) {
                all
            } else {
                t - 1
            },
            // north of the last row a column's first tile follows, or no tile
            Side::NORTH => if t + 1 == all || has(first_row(s.rows), (t + 1) as u8) {
                all
            } else {
                t + 1
            },
            Side::EAST => if t + rows < all { t + rows } else { all },
            _ => all,
        }
    }
}

// The distance of a tile that has none.
pub const DISTANCE_NONE: u8 = 255;

// A tile without its canisters. `running` is 1 or 0; `distance` is DISTANCE_NONE where there is none; `next` is document
// 01's arrow, `token` its turn; `count` is how many of the tile's sixteen places are used.
#[repr(C)]
#[derive(Clone, Copy, PartialEq, Eq)]
pub struct Tile {
    pub running: u8,
    pub distance: u8,
    pub next: Side,
    pub token: Side,
    pub count: u8,
}

impl Tile {
    pub const ZERO: Tile = Tile {
        running: 0,
        distance: 0,
        next: Side::NONE,
        token: Side::NONE,
        count: 0,
    };
}

// W, H, the hopper set, the fill set, U, l, r and v. A set has bit t for tile t.
#[repr(C)]
#[derive(Clone, Copy, PartialEq, Eq)]
pub struct Settings {
    pub columns: u8,
    pub rows: u8,
    pub hoppers: u64,
    pub sources: u64,
    pub width: u16,
    pub length: u16,
    pub gap: u16,
    pub travel: u16,
}

impl Settings {
    pub const ZERO: Settings = Settings {
        columns: 0,
        rows: 0,
        hoppers: 0,
        sources: 0,
        width: 0,
        length: 0,
        gap: 0,
        travel: 0,
    };

    // C, the number of tiles.
    pub fn tile_count(self) -> usize
        ensures { result ≡ total self }
    {
        usize::from(self.columns) * usize::from(self.rows)
    }

    // d, how far apart canisters stand on one axis at least.
    pub fn spacing(self) -> u32
        ensures { result ≡ T.spacing self }
    {
        u32::from(self.length) + u32::from(self.gap)
    }
}

// The last number booked, how many were booked, and how many were delivered to each hopper, the hoppers in tile order, then
// zeros.
#[repr(C)]
#[derive(Clone, Copy, PartialEq, Eq)]
pub struct Counters {
    pub last: u32,
    pub booked: u32,
    pub delivered: [u32; 4],
}

impl Counters {
    pub const ZERO: Counters = Counters {
        last: 0,
        booked: 0,
        delivered: [0; 4],
    };
}

// A name as its eight bytes, the first letter first, zero filled.
#[repr(C)]
#[derive(Clone, Copy, PartialEq, Eq)]
pub struct Name {
    pub letters: [u8; 8],
}

// A layout: its name as one number, the first letter in the highest byte, zero filled; and the set of tiles that ran when it
// was kept.
#[repr(C)]
#[derive(Clone, Copy, PartialEq, Eq)]
pub struct Layout {
    pub name: u64,
    pub set: u64,
}

impl Layout {
    // What stands in a place without a layout.
    pub const ZERO: Layout = Layout { name: 0, set: 0 };
}

// An entry of a list of bookings: a tile, a canister with its place, and the number that the booking is refused by, 0 where
// it is accepted.
#[repr(C)]
#[derive(Clone, Copy, PartialEq, Eq)]
pub struct Booking {
    pub tile: u32,
    pub canister: Canister,
    pub answer: u8,
}

// A floor. The canisters of tile t stand from place 16 * t on, by rising number, the layouts by rising name; unused places
// are zero.
#[repr(C)]
#[derive(Clone, Copy, PartialEq, Eq)]
pub struct Floor {
    pub settings: Settings,
    pub counters: Counters,
    pub tiles: [Tile; 64],
    pub canisters: [Canister; 1024],
    pub layouts: [Layout; 8],
}

// What a round delivered to one hopper: how many, and their numbers, rising, then zeros.
#[repr(C)]
#[derive(Clone, Copy, PartialEq, Eq)]
pub struct Delivery {
    pub numbers: [u32; 4],
    pub count: u8,
}

impl Delivery {
    pub const ZERO: Delivery = Delivery {
        numbers: [0; 4],
        count: 0,
    };
}

// What a round reports: the side that each tile granted; why each tile stood, 6 where it moved, and the millimetres missing
// beside reason 5; and what came to each hopper, the hoppers in tile order, then zeros.
#[repr(C)]
#[derive(Clone, Copy, PartialEq, Eq)]
pub struct Report {
    pub grants: [u8; 64],
    pub reasons: [u8; 64],
    pub missing: [u16; 64],
    pub deliveries: [Delivery; 4],
}

impl Report {
    // What a refused round reports.
    pub const ZERO: Report = Report {
        grants: [0; 64],
        reasons: [0; 64],
        missing: [0; 64],
        deliveries: [Delivery::ZERO; 4],
    };
}

// The answer of fresh, book, stop, repair, keep, forget, recall and load: the papers' refusal number, 0 where the call was
// accepted.
// The number stands last: padding before the floor costs another copy of it.
#[repr(C)]
#[derive(Clone, Copy, PartialEq, Eq)]
pub struct Answer {
    pub floor: Floor,
    pub refusal: u8,
}

// The answer of a booking without a place: the place found; refused: zeros, which are a place too, so look at the refusal.
#[repr(C)]
#[derive(Clone, Copy, PartialEq, Eq)]
pub struct Placed {
    pub floor: Floor,
    pub a: u16,
    pub b: u16,
    pub refusal: u8,
}

// The answer of a round.
#[repr(C)]
#[derive(Clone, Copy, PartialEq, Eq)]
pub struct Rounded {
    pub floor: Floor,
    pub report: Report,
    pub refusal: u8,
}

// The answer of reading a tile: the tile and its sixteen places. It holds no floor, so the order of its fields costs no
// copy.
#[repr(C)]
#[derive(Clone, Copy, PartialEq, Eq)]
pub struct Reading {
    pub refusal: u8,
    pub tile: Tile,
    pub members: [Canister; 16],
}

// The all-zero floor.
pub fn zero_floor() -> Floor
    ensures { result ≡ zero_floor }
{
    Floor {
        settings: Settings::ZERO,
        counters: Counters::ZERO,
        tiles: [Tile::ZERO; 64],
        canisters: [Canister::ZERO; 1024],
        layouts: [Layout::ZERO; 8],
    }
}
