// Whether a floor in memory is well formed, on any bytes.
#![tactic(auto)]

ghost use Rattle.std.specs.Prelude.{◌≡◌, true, ◌≤◌, length};
ghost use Rattle.laws.specs.Define.{all_of};
ghost use Rattle.floor.specs.Memory.{is_zero_canister};
ghost use Rattle.floor.specs.Model.{numbers};
ghost use Rattle.floor.specs.Settings.{hoppers_of, settings_pass, Ranged};
ghost use Rattle.floor.specs.Well.{counters_sound, state_well, well_formed};
ghost use Rattle.check_floor.specs.InternalTile.{head_test, front_test, places_test, back_test};

use check_heads::{head_fits, head_ok};
use check_layouts::layouts_ok;
use check_numbers::numbers_differ;
use check_places::{is_zero_canister, member_ok, pairs_ok};
use check_settings::test_settings;
use floor::{Canister, Counters, Floor, Settings, Tile};
use sets::size;

// A tile without its canisters.
fn head_test(s: Settings, t: usize, h: Tile) -> bool
    requires { Ranged s }
    ensures { result ≡ head_test s t h }
{
    let fits = head_fits(s, t, h);
    if s.tile_count() <= t {
        fits
    } else {
        fits & head_ok(s, t, h)
    }
}

// Whether none of the places is used.
fn unused(places: &[Canister]) -> bool
    ensures { result ≡ all_of is_zero_canister places.now }
{
    let mut ok = true;
    for c in places {
        ok &= is_zero_canister(*c);
    }
    ok
}

// The head of a tile and, where it holds nothing, its sixteen places.
fn front_ok(s: Settings, t: usize, h: Tile, places: &[Canister]) -> bool
    requires { Ranged s × (length places.now ≡ 16) }
    ensures { result ≡ front_test s t h places.now }
{
    head_test(s, t, h) && (h.count != 0 || unused(places))
}

// The sixteen places of a tile, the first n of them used.
fn places_ok(s: Settings, last: u32, n: usize, places: &[Canister]) -> bool
    requires { (s.length ≤ s.width) × (n ≤ 16) × (length places.now ≡ 16) }
    ensures { result ≡ places_test s last n places.now }
{
    let members = &places[..n];
    let mut ok = true;
    for c in members {
        ok &= member_ok(s, last, *c);
    }
    unused(&places[n..]) & (ok & (n < 2 || pairs_ok(s, members)))
}

// The places of a tile that holds n canisters. Those of one without are tested with its head.
fn back_ok(s: Settings, last: u32, n: usize, places: &[Canister]) -> bool
    requires { (s.length ≤ s.width) × (n ≤ 16) × (length places.now ≡ 16) }
    ensures { result ≡ back_test s last n places.now }
{
    n == 0 || places_ok(s, last, n, places)
}

// Lists the numbers that stand in the places. In place: each array handed back takes 4 KB of stack.
fn list_numbers(canisters: &[Canister; 1024], keys: &mut [u32; 1024])
    requires { length keys.old ≡ 1024 }
    ensures { keys.new ≡ numbers canisters.now }
{
    for (k, c) in canisters.iter().enumerate() {
        keys[k] = c.number;
    }
}

// The counters, with n canisters on the floor. The sum may exceed 32 bits.
fn counters_ok(s: Settings, c: Counters, n: u32) -> bool
    requires { settings_pass s ≡ true }
    ensures { result ≡ counters_sound (length (hoppers_of s)) c n }
{
    let h = usize::from(size(s.hoppers));
    let mut spare = true;
    let mut sum = u64::from(n);
    for (k, d) in c.delivered.iter().enumerate() {
        spare &= (k < h) | (*d == 0);
        sum += u64::from(*d);
    }
    spare & ((u64::from(c.booked) == sum) & (c.booked <= c.last))
}

// Well formed but for the layouts, once the settings have passed. First the heads of all tiles, with the places of those that
// hold nothing, and the counters; a floor without canisters is done then. After that the places of the others, and the numbers.
fn scan(f: Floor) -> bool
    requires { settings_pass f.settings ≡ true }
    ensures { result ≡ state_well f }
{
    let mut n = 0u32;
    for (t, h) in f.tiles.iter().enumerate() {
        let places = &f.canisters[16 * t..16 * t + 16];
        if !front_ok(f.settings, t, *h, places) {
            return false;
        }
        n += u32::from(h.count);
    }
    let added = counters_ok(f.settings, f.counters, n);
    if n == 0 {
        return added;
    }
    for (u, g) in f.tiles.iter().enumerate() {
        let places = &f.canisters[16 * u..16 * u + 16];
        if !back_ok(f.settings, f.counters.last, usize::from(g.count), places) {
            return false;
        }
    }
    let mut keys = [0; 1024];
    list_numbers(&f.canisters, &mut keys);
    added & numbers_differ(&keys)
}

// Well formed. Where the settings don't pass, nothing else is read.
pub fn well_formed(f: Floor) -> bool
    ensures { result ≡ well_formed f }
{
    test_settings(f.settings).is_ok() && (layouts_ok(f.settings, f.layouts) && scan(f))
}
