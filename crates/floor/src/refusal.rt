// What a call is refused by: the papers' numbers, with their words; the names are those of the C header.
ghost use Rattle.std.specs.Prelude.{◌≡◌};
ghost use Rattle.floor.specs.Numbers as N;
ghost use Rattle.floor.specs.Numbers.{refusal_number};

// Each has the papers' number. 41, and 30 for a record of throughput, stand in `throughput`.
#[derive(Clone, Copy, PartialEq, Eq)]
pub enum Refusal {
    // "W, H or C outside its range."
    Grid = 1,

    // "Hopper not on the floor, or a fill bit for the hopper or for no tile." "A fresh floor takes one to four, else 2."
    Sets = 2,

    // "A measure breaks the rules above."
    Measure = 3,

    // "Tile not on the floor."
    NoTile = 4,

    // "Booking on a tile outside the fill set."
    NotASource = 5,

    // "Canister number 0."
    NumberZero = 6,

    // "a or b above U - l."
    Outside = 7,

    // "Stop of the hopper."
    StopOfHopper = 8,

    // "Image ends within a record or with its end record missing, or has bytes after its end record."
    ImageEnds = 9,

    // "Record of another kind than the one due."
    OtherKind = 10,

    // "Wrong record length, or a fixed byte wrong."
    RecordShape = 11,

    // "Image complete, floor not well formed."
    ImageMalformed = 12,

    // "Buffer shorter than the image to write."
    ShortBuffer = 13,

    // "The floor handed in isn't well formed. First in every call that takes one."
    Malformed = 30,

    // "Booking on a stopped tile, or stop of a stopped one."
    Stopped = 31,

    // "Repair of a running tile."
    Running = 32,

    // "Canister number not above the last booked."
    NumberUsed = 33,

    // "Some canister of the tile differs by less than d in both a and b."
    TooClose = 34,

    // "no place on the tile, where 34 stood for this call"
    NoPlace = 40,

    // "more than 64 entries, checked first, with no entry written"
    ListTooLong = 42,

    // "buffer shorter than the page, checked after 30"
    ShortPage = 43,

    // "bad name, after 30"
    BadName = 44,

    // "name not held, after 44, at recall and forgetting"
    NameNotHeld = 45,

    // "eight other names held, after 44, at keeping"
    LayoutsFull = 46,

    // "an entry's label repeated or outside 1 to 64, or a predecessor absent or not lower, after 30"
    BadLabel = 47,

    // "the label asked for not waiting or a predecessor undelivered, at release, after 47"
    NotReleased = 48,

    // "floor number not 0 to 3, after 30"
    NoFloor = 49,

    // "the total is at or above the allowance, checked last in a booking of either sort"
    Overloaded = 50,
}

impl From<Refusal> for u8 {
    ghost from_gives = { λ why n. n ≡ refusal_number why };

    fn from(why: Refusal) -> u8 {
        why as u8
    }
}

// The number of an answer: 0 where nothing refuses. Not inlined: with its branches in a call's body, the floor or barge that is
// handed back would be copied once more.
#[inline(never)]
pub fn answered(outcome: Result<(), Refusal>) -> u8
    ensures { result ≡ N.answered outcome }
{
    match outcome {
        Ok(()) => 0,
        Err(why) => u8::from(why),
    }
}
