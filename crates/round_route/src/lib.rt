// Route, the first step of a round: "Distance = 1 + the least old distance among the neighbours".
#![tactic(auto)]

ghost use Rattle.std.specs.Prelude.{◌≡◌, ◌≤◌, ◌<◌, slice_index_or};
ghost use Rattle.laws.specs.InternalFilled.{Upto};
ghost use Rattle.floor.specs.Settings.{total, Ranged};
ghost use Rattle.floor.specs.Grid.{neighbour};
ghost use Rattle.floor.specs.Route as R;
ghost use Rattle.round_route.specs.InternalRouted.{Redone, heading, within, distance_in, routed_tile, routed_at};

use floor::{DISTANCE_NONE, Settings, Side, Tile};
use sets::holds;

// What the four neighbours of a tile show.
#[derive(Clone, Copy)]
pub struct Around<T> {
    pub west: T,
    pub south: T,
    pub north: T,
    pub east: T,
}

// What a tile shows, by its number; the last place of the table is that of no tile.
fn at<T: Copy>(table: &[T; 65], u: usize) -> T
    requires { u ≤ 64 }
    ensures { (none : T) → result ≡ slice_index_or table.now u none }
{
    table[u]
}

impl<T: Copy> Around<T> {
    // What the neighbours of tile t show.
    pub fn of(s: Settings, t: usize, table: &[T; 65]) -> Around<T>
        requires { Ranged s × (t < total s) }
        ensures west { (none : T) → result.west ≡ slice_index_or table.now (neighbour s 1 t) none }
        ensures south { (none : T) → result.south ≡ slice_index_or table.now (neighbour s 2 t) none }
        ensures north { (none : T) → result.north ≡ slice_index_or table.now (neighbour s 3 t) none }
        ensures east { (none : T) → result.east ≡ slice_index_or table.now (neighbour s 4 t) none }
    {
        Around {
            west: at(table, Side::WEST.neighbour(s, t)),
            south: at(table, Side::SOUTH.neighbour(s, t)),
            north: at(table, Side::NORTH.neighbour(s, t)),
            east: at(table, Side::EAST.neighbour(s, t)),
        }
    }
}

// A distance, and the side that it was read on.
#[derive(Clone, Copy)]
pub struct Heading {
    pub distance: u8,
    pub side: Side,
}

impl Heading {
    // No arrow.
    const NONE: Heading = Heading {
        distance: DISTANCE_NONE,
        side: Side::NONE,
    };

    // The nearer of two; the earlier one where they are as near.
    fn nearer(self, distance: u8, side: Side) -> Heading
        ensures { heading result ≡ R.nearer (heading self) distance side.code }
    {
        if distance < self.distance {
            return Heading { distance, side };
        }
        self
    }

    // One more than the least; at the number of tiles or more it is none. None, 255, is tested first: one more is no
    // byte.
    fn onward(self, all: u8) -> Heading
        requires { all ≤ 64 }
        ensures { heading result ≡ R.onward all (heading self) }
    {
        if self.distance < DISTANCE_NONE && self.distance + 1 < all {
            return Heading {
                distance: self.distance + 1,
                ..self
            };
        }
        Heading::NONE
    }
}

impl Around<u8> {
    // The neighbour of least old distance. Ties: west, south, north, east.
    fn nearest(self) -> Heading
        ensures { heading result ≡ R.nearest self.west self.south self.north self.east }
    {
        let first = Heading {
            distance: self.west,
            side: Side::WEST,
        };
        first
            .nearer(self.south, Side::SOUTH)
            .nearer(self.north, Side::NORTH)
            .nearer(self.east, Side::EAST)
    }

    // Whether the neighbour on that side is at that distance; on side none there is no neighbour.
    fn lies_at(self, distance: u8, side: Side) -> bool
        ensures { result ≡ R.lies_at self.west self.south self.north self.east distance side.code }
    {
        match side {
            Side::WEST => self.west == distance,
            Side::SOUTH => self.south == distance,
            Side::NORTH => self.north == distance,
            Side::EAST => self.east == distance,
            _ => false,
        }
    }

    // The nearest neighbour: the one that the present arrow, own, faces if it is among the nearest.
    fn kept(self, own: Side) -> Heading
        ensures { heading result ≡ R.kept own.code self.west self.south self.north self.east }
    {
        let near = self.nearest();
        if self.lies_at(near.distance, own) {
            return Heading { side: own, ..near };
        }
        near
    }
}

// One tile, from its own old arrow and its four neighbours' old distances. A hopper and a stopped tile stay as they are.
fn route_tile(s: Settings, t: usize, tile: Tile, around: Around<u8>) -> Tile
    requires { total s ≤ 64 }
    ensures { result ≡ routed_tile s t tile around.west around.south around.north around.east }
{
    if holds(s.hoppers, t) | (tile.running != 1) {
        return tile;
    }
    // C in a byte, for [5]
    let all = s.columns * s.rows;
    let Heading { distance, side } = around.kept(tile.next).onward(all);
    Tile {
        distance,
        next: side,
        ..tile
    }
}

// The tiles' distances; none at the number of no tile.
fn distances(s: Settings, tiles: &[Tile; 64]) -> [u8; 65]
    requires { total s ≤ 64 }
    ensures { Upto 65 (within (total s) (distance_in tiles.now) 255) 0 result }
{
    let mut d = [DISTANCE_NONE; 65];
    for (t, tile) in tiles[..s.tile_count()].iter().enumerate() {
        d[t] = tile.distance;
    }
    d
}

// All tiles together: the neighbours' distances are the old ones.
pub fn route_pass(s: Settings, tiles: &[Tile; 64]) -> [Tile; 64]
    requires { Ranged s }
    ensures { Redone (total s) (routed_at s tiles.now) tiles.now result }
{
    let d = distances(s, tiles);
    let mut out = *tiles;
    for (t, tile) in tiles[..s.tile_count()].iter().enumerate() {
        out[t] = route_tile(s, t, *tile, Around::of(s, t, &d));
    }
    out
}
