// Whether a tile in memory is as it must be, without its canisters.
#![tactic(auto)]

ghost use Rattle.std.specs.Prelude.{◌≡◌, ◌<◌};
ghost use Rattle.floor.specs.Settings.{total, Ranged};
ghost use Rattle.floor.specs.Memory.{head_fits};
ghost use Rattle.floor.specs.Well.{hopper_sound, running_sound, stopped_sound, own_sound, faces, head_sound};

use floor::{DISTANCE_NONE, Settings, Side, Tile};
use sets::holds;

// A hopper.
fn hopper_ok(h: Tile) -> bool
    ensures { result ≡ hopper_sound h }
{
    (h.running == 1) & ((h.distance == 0) & ((h.next == Side::NONE) & (h.count == 0)))
}

// Another running tile.
fn running_ok(s: Settings, h: Tile) -> bool
    ensures { result ≡ running_sound s h }
{
    ((h.distance == DISTANCE_NONE) & (h.next == Side::NONE))
        | ((1 <= h.distance)
            & ((usize::from(h.distance) < s.tile_count()) & (h.next != Side::NONE)))
}

// A stopped tile.
fn stopped_ok(h: Tile) -> bool
    ensures { result ≡ stopped_sound h }
{
    (h.running == 0)
        & ((h.distance == DISTANCE_NONE) & ((h.next == Side::NONE) & (h.token == Side::NONE)))
}

// Whether a side is none or faces a tile of the floor.
fn faces_ok(s: Settings, t: usize, side: Side) -> bool
    requires { Ranged s × (t < total s) }
    ensures { result ≡ faces s t side.code }
{
    (side == Side::NONE) | (side.neighbour(s, t) < s.tile_count())
}

// A tile without the sides that it faces.
fn own_ok(s: Settings, t: usize, h: Tile) -> bool
    ensures { result ≡ own_sound s t h }
{
    if holds(s.hoppers, t) {
        hopper_ok(h)
    } else if h.running == 1 {
        running_ok(s, h)
    } else {
        stopped_ok(h)
    }
}

// A tile without its canisters.
pub fn head_ok(s: Settings, t: usize, h: Tile) -> bool
    requires { Ranged s × (t < total s) }
    ensures { result ≡ head_sound s t h }
{
    own_ok(s, t, h) & (faces_ok(s, t, h.next) & faces_ok(s, t, h.token))
}

// At most sixteen canisters; a tile that the floor doesn't have is zero.
pub fn head_fits(s: Settings, t: usize, h: Tile) -> bool
    ensures { result ≡ head_fits s t h }
{
    if t < s.tile_count() {
        h.count <= 16
    } else {
        h == Tile::ZERO
    }
}
