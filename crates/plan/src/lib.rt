// A plan of bookings, some of which must be delivered before others are made (document 02's [12]): its structs, an entry's
// stage and the used entries. Its definitions stand in specs/.
#![tactic(auto)]

ghost use Rattle.std.specs.Prelude.{◌≡◌, ◌≤◌};
ghost use Rattle.plan.specs.Entries.{stage_of, used};
ghost use Rattle.plan.specs.Staged.{shown};

use floor::Floor;

// The stage bytes of C. Every other byte is read as BOOKED.
pub const WAITING: u8 = 0;

pub const BOOKED: u8 = 1;

pub const DELIVERED: u8 = 2;

// "A plan has up to 64 entries"
pub const MAX_ENTRIES: u32 = 64;

// "An entry waits, is booked under a number, or is delivered."
#[derive(Clone, Copy, PartialEq, Eq)]
pub enum Stage {
    Waiting,
    Booked(u32),
    Delivered,
}

// An entry: its fill tile; the number that it is booked under; its label, 1 to 64; its predecessors' labels, 0 for none; its
// stage.
#[repr(C)]
#[derive(Clone, Copy, PartialEq, Eq)]
pub struct Entry {
    pub tile: u32,
    pub number: u32,
    pub label: u8,
    pub first: u8,
    pub second: u8,
    pub stage: u8,
}

impl Entry {
    // What may stand in an unused place.
    pub const ZERO: Entry = Entry {
        tile: 0,
        number: 0,
        label: 0,
        first: 0,
        second: 0,
        stage: WAITING,
    };

    // By its byte.
    pub fn stage(self) -> Stage
        ensures { shown result ≡ stage_of self }
    {
        match self.stage {
            WAITING => Stage::Waiting,
            DELIVERED => Stage::Delivered,
            _ => Stage::Booked(self.number),
        }
    }
}

// The first `count` entries are used; the others are ignored and handed back.
#[repr(C)]
#[derive(Clone, Copy, PartialEq, Eq)]
pub struct Plan {
    pub entries: [Entry; 64],
    pub count: u32,
}

impl Plan {
    // The entries below its count.
    pub fn used(&self) -> &[Entry]
        requires { self.now.count ≤ 64 }
        ensures { result.now ≡ used self.now }
    {
        &self.entries[..self.count as usize]
    }
}

// The answer of an offer: the label offered, 0 for none and where the plan is refused.
#[repr(C)]
#[derive(Clone, Copy, PartialEq, Eq)]
pub struct Offered {
    pub label: u8,
    pub refusal: u8,
}

// The answer of a report to the plan.
#[repr(C)]
#[derive(Clone, Copy, PartialEq, Eq)]
pub struct Planned {
    pub plan: Plan,
    pub refusal: u8,
}

// The answer of a release: the number booked and the place found; refused: zeros.
#[repr(C)]
#[derive(Clone, Copy, PartialEq, Eq)]
pub struct Released {
    pub floor: Floor,
    pub plan: Plan,
    pub number: u32,
    pub a: u16,
    pub b: u16,
    pub refusal: u8,
}
