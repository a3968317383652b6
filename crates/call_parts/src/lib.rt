// A fresh floor, and stop, repair and read on a well-formed one: their refusals, the floor that an accepted one leaves, the
// tile that is read.
#![tactic(auto)]

ghost use Rattle.std.specs.Prelude.{◌≡◌, true, ◌<◌, get_or};
ghost use Rattle.laws.specs.Define.{tab, refusal};
ghost use Rattle.floor.specs.Numbers.{answered};
ghost use Rattle.floor.specs.Settings.{total, settings_pass};
ghost use Rattle.floor.specs.Model.{tile_of, members_of, with_tile};
ghost use Rattle.floor.specs.Memory.{zero_canister, view, head, pack};
ghost use Rattle.floor.specs.Well.{well_formed};
ghost use Rattle.floor.specs.Calls.{fresh_tile, fresh_floor, stop_tests, stopped, repair_tests, repaired, read_tests};

use floor::{Canister, DISTANCE_NONE, Floor, Refusal, Settings, Side, Tile, zero_floor};
use sets::holds;

// A tile of a fresh floor.
fn fresh_tile(s: Settings, t: usize) -> Tile
    ensures { result ≡ head (fresh_tile s t) }
{
    let distance = if holds(s.hoppers, t) {
        0
    } else {
        DISTANCE_NONE
    };
    Tile {
        running: 1,
        distance,
        ..Tile::ZERO
    }
}

// A fresh floor with these settings.
pub fn fresh_floor(s: Settings) -> Floor
    requires { settings_pass s ≡ true }
    ensures { result ≡ pack (fresh_floor s) }
{
    let all = s.tile_count();
    let mut tiles = [Tile::ZERO; 64];
    // t is passed on as the tile's number
    for t in 0..all {
        tiles[t] = fresh_tile(s, t);
    }
    let mut made = zero_floor();
    made.settings = s;
    made.tiles = tiles;
    made
}

// A tile without its canisters.
pub fn tile_head(floor: Floor, tile: u32) -> Tile
    requires { (well_formed floor ≡ true) × (tile < total floor.settings) }
    ensures { result ≡ head (tile_of (view floor) tile) }
{
    let tiles = floor.tiles;
    tiles[tile as usize]
}

// The sixteen places of a tile: its canisters, then zeros.
pub fn tile_members(floor: Floor, tile: u32) -> [Canister; 16]
    requires { (well_formed floor ≡ true) × (tile < total floor.settings) }
    ensures { result ≡ tab 16 (λ k. get_or (members_of (view floor) tile) k zero_canister) }
{
    let first = 16 * tile as usize;
    let mut places = [Canister::ZERO; 16];
    places.copy_from_slice(&floor.canisters[first..first + 16]);
    places
}

// Refuses a stop.
pub fn test_stop(floor: Floor, tile: u32) -> Result<(), Refusal>
    requires { well_formed floor ≡ true }
    ensures { answered result ≡ refusal (stop_tests (view floor) tile) }
{
    test_read(floor, tile)?;
    if holds(floor.settings.hoppers, tile as usize) {
        return Err(Refusal::StopOfHopper);
    }
    if tile_head(floor, tile).running != 1 {
        return Err(Refusal::Stopped);
    }
    Ok(())
}

// The floor after an accepted stop.
pub fn stopped_floor(floor: Floor, tile: u32) -> Floor
    requires { (well_formed floor ≡ true) × (refusal (stop_tests (view floor) tile) ≡ 0) }
    ensures { result ≡ pack (with_tile (view floor) tile (stopped (tile_of (view floor) tile))) }
{
    let was = tile_head(floor, tile);
    let mut after = floor;
    after.tiles[tile as usize] = Tile {
        distance: DISTANCE_NONE,
        count: was.count,
        ..Tile::ZERO
    };
    after
}

// Refuses a repair.
pub fn test_repair(floor: Floor, tile: u32) -> Result<(), Refusal>
    requires { well_formed floor ≡ true }
    ensures { answered result ≡ refusal (repair_tests (view floor) tile) }
{
    test_read(floor, tile)?;
    if tile_head(floor, tile).running == 1 {
        return Err(Refusal::Running);
    }
    Ok(())
}

// The floor after an accepted repair.
pub fn repaired_floor(floor: Floor, tile: u32) -> Floor
    requires { (well_formed floor ≡ true) × (refusal (repair_tests (view floor) tile) ≡ 0) }
    ensures { result ≡ pack (with_tile (view floor) tile (repaired (tile_of (view floor) tile))) }
{
    let idle = tile_head(floor, tile);
    let mut after = floor;
    after.tiles[tile as usize] = Tile { running: 1, ..idle };
    after
}

// Refuses the reading of a tile.
pub fn test_read(floor: Floor, tile: u32) -> Result<(), Refusal>
    requires { well_formed floor ≡ true }
    ensures { answered result ≡ refusal (read_tests (view floor) tile) }
{
    if floor.settings.tile_count() <= tile as usize {
        return Err(Refusal::NoTile);
    }
    Ok(())
}
