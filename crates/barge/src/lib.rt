// Four floors with a joint allowance (document 02's [13]): the barge, and the answers of its calls.
#![tactic(auto)]

use floor::{Floor, Report};

// The greatest allowance.
pub const MAX_ALLOWANCE: u32 = 4032;

// Four floors, and how many canisters may be aboard. How many are is not stored: the floors have them.
#[repr(C)]
#[derive(Clone, Copy, PartialEq, Eq)]
pub struct Barge {
    pub floors: [Floor; 4],
    pub allowance: u32,
}

// The answer of a booking, a stop and a repair: the refusal number, 0 where the call was accepted.
#[repr(C)]
#[derive(Clone, Copy, PartialEq, Eq)]
pub struct BargeAnswer {
    pub barge: Barge,
    pub refusal: u8,
}

// The answer of a booking without a place: the place found; refused: zeros.
#[repr(C)]
#[derive(Clone, Copy, PartialEq, Eq)]
pub struct BargePlaced {
    pub barge: Barge,
    pub a: u16,
    pub b: u16,
    pub refusal: u8,
}

// The answer of a round, with the report of the floor that it named.
#[repr(C)]
#[derive(Clone, Copy, PartialEq, Eq)]
pub struct BargeRounded {
    pub barge: Barge,
    pub report: Report,
    pub refusal: u8,
}
