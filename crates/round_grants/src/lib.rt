// Parts of Signal on one tile: the sides that want, from what its four neighbours show; the one whose turn it is; and how
// many millimetres a canister is short of the gap there.
#![tactic(auto)]

ghost use Rattle.std.specs.Prelude.{◌≡◌, cond, ◌-◌, ◌^◌, ◌≤◌, ◌<◌, eqb};
ghost use Rattle.floor.specs.Sides as S;
ghost use Rattle.floor.specs.Sides.{in_set};
ghost use Rattle.floor.specs.Signal as G;
ghost use Rattle.floor.specs.Signal.{requests};

use floor::{Canister, Settings, Side};
use round_route::Around;

// The set of one side, bit k - 1 for side k, if the neighbour there shows that it faces here; else the empty set.
fn wanting(side: Side, shown: Side) -> u8
    requires { (1 ≤ side.code) × (side.code ≤ 4) }
    ensures { result ≡ cond (eqb shown.code (S.opposite side.code)) (2 ^ (side.code - 1)) 0 }
{
    if shown == side.opposite() {
        1 << (side.code - 1)
    } else {
        0
    }
}

// The set of the sides that want, from what the neighbours show.
pub fn requesting(show: Around<Side>) -> u8
    ensures { (result < 16) × (in_set result ≡ requests show.west.code show.south.code show.north.code show.east.code) }
{
    wanting(Side::WEST, show.west)
        | wanting(Side::SOUTH, show.south)
        | wanting(Side::NORTH, show.north)
        | wanting(Side::EAST, show.east)
}

// The turn, if it wants; else the first side that wants, strictly after it; none where no side wants.
pub fn chosen(set: u8, token: Side) -> Side
    requires { (token.code ≤ 4) × (set < 16) }
    ensures { result.code ≡ S.chosen (in_set set) token.code }
{
    if set == 0 {
        return Side::NONE;
    }
    if token.among(set) {
        return token;
    }
    token.following(set)
}

// How many millimetres a canister is short of the gap at a side.
pub fn lack(s: Settings, side: Side, c: Canister) -> u32
    ensures { result ≡ G.lack s side.code c }
{
    let width = u32::from(s.width);
    let spacing = s.spacing();
    let reach = u32::from(s.length) + spacing;
    match side {
        Side::WEST => spacing.saturating_sub(u32::from(c.a)),
        Side::SOUTH => spacing.saturating_sub(u32::from(c.b)),
        Side::NORTH => (u32::from(c.b) + reach).saturating_sub(width),
        Side::EAST => (u32::from(c.a) + reach).saturating_sub(width),
        _ => 0,
    }
}

// How many millimetres are missing at a side: the worst canister's, 0 for a gap.
pub fn missing(s: Settings, side: Side, canisters: &[Canister]) -> u32
    ensures { result ≡ G.missing s side.code canisters.now }
{
    let mut short = 0;
    for c in canisters {
        short = short.max(lack(s, side, *c));
    }
    short
}
