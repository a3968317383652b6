// Why a tile stood in a round, document 02's [6]: its numbers, with its words; the names are those of the C header. Where no
// tile is, a report has 0.
ghost use Rattle.std.specs.Prelude.{◌≡◌};
ghost use Rattle.floor.specs.Numbers.{reason_number};

#[derive(Clone, Copy, PartialEq, Eq)]
pub enum Reason {
    // "1 stopped"
    Stopped = 1,

    // "2 empty when the round began"
    Empty = 2,

    // "3 no arrow"
    NoArrow = 3,

    // "4 the turn ahead was another's"
    Turn = 4,

    // "5 no gap, with the missing millimetres (0 beside other reasons)"
    NoGap = 5,

    // "6 moved"
    Moved = 6,
}

impl From<Reason> for u8 {
    ghost from_gives = { λ why n. n ≡ reason_number why };

    fn from(why: Reason) -> u8 {
        why as u8
    }
}
