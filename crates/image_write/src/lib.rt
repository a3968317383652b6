// Writing an image: how long it is, and all its records into a buffer that has room for them. The other bytes stay.
#![tactic(auto)]

ghost use Rattle.std.specs.Prelude.{◌≡◌, true, cond, ℕ, ◌+◌, ◌*◌, ◌≤◌, ◌<◌, ltb, length, take};
ghost use Rattle.image_bytes.specs.InternalPut.{put};
ghost use Rattle.floor.specs.Memory.{used_layouts, view};
ghost use Rattle.floor.specs.Well.{well_formed};
ghost use Rattle.image.specs.Image.{hopper_count, layouts_bytes, front_bytes, encode};
ghost use Rattle.image_write.specs.InternalUpto.{count_at, upto};

use floor::{Canister, Counters, Floor, Layout, Settings, Tile};
use image_record_write::{
    put_canister, put_counters, put_layout, put_pair, put_settings, put_tile,
};
use sets::size;

// How many of the eight places hold a layout.
fn layout_count(layouts: [Layout; 8]) -> usize
    ensures { (result ≡ length (used_layouts layouts)) × (result ≤ 8) }
{
    // A loop: the proof of `position` and `unwrap_or` didn't close.
    for (k, x) in layouts.iter().enumerate() {
        if x.name == 0 {
            return k;
        }
    }
    8
}

// The records of the layouts.
fn put_layouts(s: &mut [u8], from: usize, layouts: &[Layout])
    requires { from + 20 * length layouts.now ≤ length s.old }
    ensures { s.new ≡ put s.old from (layouts_bytes layouts.now) }
{
    for (k, x) in layouts.iter().enumerate() {
        put_layout(s, from + 20 * k, *x);
    }
}

// The records of the first c tiles; the answer is the place after them. Each canister is written straight from its place.
fn put_tiles(s: &mut [u8], from: usize, tiles: [Tile; 64], all: [Canister; 1024], c: usize) -> usize
    requires { (c ≤ 64) × (from + length (upto tiles all c) ≤ length s.old) × ((t : ℕ) → t < c → count_at tiles t ≤ 16) }
    ensures { (result ≡ from + length (upto tiles all c)) × (s.new ≡ put s.old from (upto tiles all c)) }
{
    let mut at = from;
    // By number: t and k give the place among the 1,024.
    for t in 0..c {
        let head = tiles[t];
        put_tile(s, at, t as u8, head);
        let n = usize::from(head.count);
        for k in 0..n {
            put_canister(s, at + 10 + 8 * k, all[16 * t + k]);
        }
        at = at + 10 + 8 * n;
    }
    at
}

// How long record 1 is, where there are h hoppers.
fn first_length(h: u8) -> usize
    ensures { result ≡ cond (ltb 1 h) 32 24 }
{
    if 1 < h { 32 } else { 24 }
}

// The front of an image, the records of kinds 1, 2 and 5, where there are h hoppers. The answer is the place after it.
fn put_front(s: &mut [u8], x: Settings, y: Counters, all: [Layout; 8], h: u8) -> usize
    requires { (length (front_bytes x y (used_layouts all)) ≤ length s.old) × (h ≡ hopper_count x) × (h ≤ 4) }
    ensures { (result ≡ length (front_bytes x y (used_layouts all))) × (s.new ≡ put s.old 0 (front_bytes x y (used_layouts all))) }
{
    let second = first_length(h);
    put_settings(s, 0, x, 1 < h);
    put_counters(s, second, y, h);
    let third = second + 12 + 4 * usize::from(h);
    let filled = layout_count(all);
    put_layouts(s, third, &all[..filled]);
    third + 20 * filled
}

// The length of a well-formed floor's image.
pub fn image_length(f: Floor) -> u32
    requires { well_formed f ≡ true }
    ensures { result ≡ length (encode (view f)) }
{
    let c = f.settings.tile_count();
    let h = size(f.settings.hoppers);
    let first = first_length(h);
    let filled = layout_count(f.layouts);
    let mut n = first as u32 + 16 + 4 * u32::from(h) + 20 * (filled as u32);
    for head in &f.tiles[..c] {
        n = n + 10 + 8 * u32::from(head.count);
    }
    n
}

// The image of a well-formed floor, at the front of a buffer that has room for it.
pub fn write_image(f: Floor, buffer: &mut [u8])
    requires { (well_formed f ≡ true) × (length (encode (view f)) ≤ length buffer.old) }
    ensures { buffer.new ≡ put buffer.old 0 (encode (view f)) }
{
    let Floor {
        settings,
        counters,
        tiles,
        canisters,
        layouts,
    } = f;
    let c = settings.tile_count();
    let h = size(settings.hoppers);
    let front = put_front(buffer, settings, counters, layouts, h);
    let end = put_tiles(buffer, front, tiles, canisters, c);
    put_pair(buffer, end, 0, 4);
}
