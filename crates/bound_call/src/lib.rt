// The call bound: after how many rounds what can be delivered is delivered, and how many canisters that is. It takes any
// bytes, and its contract determines the whole answer on all of them. The tiles with a live path are found as a set of bits,
// in passes over all tiles together.
#![tactic(auto)]

ghost use Rattle.std.specs.Prelude.{◌≡◌, true, ◌&&◌, ◌||◌, ℕ, ◌≤◌, ◌<◌, ◌^◌};
ghost use Rattle.laws.specs.Define.{any_of, bit};
ghost use Rattle.floor.specs.Sides.{sides};
ghost use Rattle.floor.specs.Settings.{total, is_hopper, settings_pass, Ranged};
ghost use Rattle.floor.specs.Grid.{neighbour};
ghost use Rattle.floor.specs.Layouts.{set_below};
ghost use Rattle.floor.specs.Bound as B;
ghost use Rattle.floor.specs.Live.{connected};
ghost use Rattle.layout_parts.specs.InternalPlaces.{ran_in};
ghost use Rattle.bound.specs.Answer.{bound_answer};
ghost use Rattle.bound_call.specs.Sets.{above_first, canisters_in};

use bound::Bounded;
use check_floor::well_formed;
use floor::{Floor, Refusal, Settings, Tile};
use layout_parts::running_set;
use sets::{full, holds, minus, with};

// The set of the tiles above row 0: those with a neighbour to the south.
fn above_first(s: Settings) -> u64
    requires { Ranged s }
    ensures { result ≡ set_below (above_first s.rows) (total s) }
{
    let mut set = 0;
    for t in 0..s.tile_count() {
        if 0 < t % usize::from(s.rows) {
            set = with(set, t as u8);
        }
    }
    set
}

// One pass: of the tiles that run, the hoppers and those with a neighbour in the set. A tile's neighbour to the west has a
// number that is less by the rows, and so on.
fn spread(s: Settings, running: u64, above: u64, found: u64) -> u64
    requires { (Ranged s) × (running < 2 ^ total s) × (found < 2 ^ total s) × (above ≡ set_below (above_first s.rows) (total s)) }
    ensures { (result < 2 ^ total s) × ((t : ℕ) → bit result t ≡ (bit running t && (is_hopper s t || any_of (λ k. bit found (neighbour s k t)) sides))) }
{
    let rows = s.rows;
    let west = found << rows;
    let south = (found << 1) & above;
    let north = (found & above) >> 1;
    let east = found >> rows;
    running & (s.hoppers | west | south | north | east)
}

// The set of the tiles with a live path. After n passes it has the tiles from which at most n steps lead to a hopper; a pass
// that changes nothing is the last that is needed.
fn connected_set(s: Settings, tiles: [Tile; 64]) -> u64
    requires { (Ranged s) × (2 ≤ total s) }
    ensures { (t : ℕ) → bit result t ≡ connected s (ran_in tiles) t }
{
    let running = running_set(s, tiles);
    let above = above_first(s);
    let passes = s.tile_count() - 1;
    let mut found = s.hoppers & running;
    for _ in 0..passes {
        let next = spread(s, running, above, found);
        if next == found {
            return found;
        }
        found = next;
    }
    found
}

// How many canisters stand on the tiles of the set.
fn canisters_on(s: Settings, tiles: [Tile; 64], set: u64) -> u32
    requires { total s ≤ 64 }
    ensures { result ≡ canisters_in (total s) tiles set }
{
    let mut sum = 0;
    for (t, tile) in tiles[..s.tile_count()].iter().enumerate() {
        if holds(set, t) {
            sum += u32::from(tile.count);
        }
    }
    sum
}

// (C - 1) × (1 + K × M), for k canisters.
fn rounds_for(s: Settings, k: u32) -> u32
    requires { (settings_pass s ≡ true) × (k ≤ 1008) }
    ensures { result ≡ B.bound s k }
{
    let span = s.width - s.length;
    let crossing = u32::from(span) / u32::from(s.travel) + 1;
    let others = s.tile_count() as u32 - 1;
    others * (1 + k * crossing)
}

// After how many rounds without an accepted booking, stop or repair what can be delivered is delivered.
pub fn bound(floor: Floor) -> Bounded
    ensures { result ≡ bound_answer floor }
{
    if !well_formed(floor) {
        return Bounded {
            rounds: 0,
            connected: 0,
            unconnected: 0,
            refusal: u8::from(Refusal::Malformed),
        };
    }
    let Floor {
        settings,
        tiles,
        ..
    } = floor;
    let live = connected_set(settings, tiles);
    let rest = minus(full(64), live);
    let connected = canisters_on(settings, tiles, live);
    let unconnected = canisters_on(settings, tiles, rest);
    Bounded {
        rounds: rounds_for(settings, connected),
        connected,
        unconnected,
        refusal: 0,
    }
}
