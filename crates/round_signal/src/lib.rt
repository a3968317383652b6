// Parts of Signal, the second step of a round: what tiles show each other, a tile with its new turn, and why each tile stood.
// The pass over the tiles, which reads their canisters, is `signal_pass` of round_move.
#![tactic(auto)]

ghost use Rattle.std.specs.Prelude.{◌≡◌, cond, eqb, get_or, ℕ, ◌^◌, ◌≤◌, ◌<◌};
ghost use Rattle.laws.specs.InternalFilled.{Filled};
ghost use Rattle.floor.specs.Settings.{total, Ranged};
ghost use Rattle.floor.specs.Numbers.{reason_number};
ghost use Rattle.floor.specs.Signal.{shown_next};
ghost use Rattle.round_signal.specs.InternalSignalling.{side_in, ShownUpto, tokened, told, own_reason, ahead_reason, reason_by, lack_by};

use floor::{Reason, Settings, Side, Tile};

// Why each tile stood, 6 where it moved, and the millimetres missing beside 5: two arrays of numbers, as a report has
// them (C interface).
#[derive(Clone, Copy)]
pub struct Stood {
    pub reasons: [u8; 64],
    pub missing: [u16; 64],
}

// The side that a tile shows: its next if it has canisters, else none.
fn shown_next(count: u8, next: Side) -> Side
    ensures { result.code ≡ shown_next count next.code }
{
    if 0 < count {
        return next;
    }
    Side::NONE
}

// What the tiles show; none at the number of no tile.
pub fn shown(s: Settings, tiles: &[Tile; 64]) -> [Side; 65]
    requires { total s ≤ 64 }
    ensures { ShownUpto tiles.now (total s) result }
{
    let mut d = [Side::NONE; 65];
    for (t, tile) in tiles[..s.tile_count()].iter().enumerate() {
        d[t] = shown_next(tile.count, tile.next);
    }
    d
}

// The tile with another token.
pub fn with_token(tile: Tile, token: Side) -> Tile
    ensures { result ≡ tokened tile token.code }
{
    Tile { token, ..tile }
}

// Why a tile stood, as far as it tells by itself: stopped, empty, no arrow.
fn own_reason(tile: Tile) -> Option<Reason>
    ensures { told result ≡ own_reason tile }
{
    if tile.running != 1 {
        return Some(Reason::Stopped);
    }
    if tile.count == 0 {
        return Some(Reason::Empty);
    }
    if tile.next == Side::NONE {
        return Some(Reason::NoArrow);
    }
    None
}

// Why a tile with an arrow stood, or that it moved, from the turn of the tile that the arrow leads to and the
// millimetres missing there.
fn ahead_reason(next: Side, turn: Side, lack: u32) -> Reason
    ensures { reason_number result ≡ ahead_reason next.code turn.code lack }
{
    if next != turn.opposite() {
        return Reason::Turn;
    }
    if 0 < lack {
        return Reason::NoGap;
    }
    Reason::Moved
}

// The millimetres beside a reason.
fn beside(why: Reason, lack: u32) -> u16
    requires { lack < 2 ^ 16 }
    ensures { result ≡ cond (eqb (reason_number why) 5) lack 0 }
{
    match why {
        // below 2^16 as required: `try_from` would need an error that can't be
        Reason::NoGap => lack as u16,
        _ => 0,
    }
}

// Why each tile stood: it tells by itself, or by the tile ahead of it, from that one's turn before it passed on and the
// millimetres missing there; at the number of no tile both are none.
pub fn reason_pass(s: Settings, tiles: &[Tile; 64], turns: &[Side; 65], lacks: &[u32; 65]) -> Stood
    requires { Ranged s × ((u : ℕ) → get_or lacks.now u 0 < 2 ^ 16) }
    ensures { Filled 64 (reason_by s tiles.now (side_in turns.now) (λ u. get_or lacks.now u 0)) 0 (total s) result.reasons × Filled 64 (lack_by s tiles.now (side_in turns.now) (λ u. get_or lacks.now u 0)) 0 (total s) result.missing }
{
    let mut reasons = [0; 64];
    let mut missing = [0; 64];
    for (i, tile) in tiles[..s.tile_count()].iter().enumerate() {
        if let Some(why) = own_reason(*tile) {
            reasons[i] = u8::from(why);
            continue;
        }
        let ahead = tile.next.neighbour(s, i);
        let lack = lacks[ahead];
        let why = ahead_reason(tile.next, turns[ahead], lack);
        reasons[i] = u8::from(why);
        missing[i] = beside(why, lack);
    }
    Stood { reasons, missing }
}
