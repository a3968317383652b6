// The records of an image, put one by one: each function puts its bytes into a buffer that has room for them, and leaves the
// others.
#![tactic(auto)]

ghost use Rattle.std.specs.Prelude.{◌≡◌, ◌++◌, ◌+◌, ◌*◌, ◌≤◌, length};
ghost use Rattle.image_bytes.specs.Bytes.{bytes};
ghost use Rattle.image_bytes.specs.InternalPut.{put};
ghost use Rattle.floor.specs.Layouts.{letters};
ghost use Rattle.image.specs.Image.{several, record_of, settings_body, counters_body, layout_body};
ghost use Rattle.image_record_write.specs.InternalParts.{canister_bytes, head_bytes, tile_bytes};

use floor::{Canister, Counters, Layout, Settings, Tile};
use image_bytes::LittleEndian;
use sets::lowest;

// Two numbers of two bytes, as a record's length and kind.
pub fn put_pair(s: &mut [u8], at: usize, x: u16, y: u16)
    requires { at + 4 ≤ length s.old }
    ensures { s.new ≡ put s.old at (bytes 2 x ++ bytes 2 y) }
{
    x.put_at(s, at);
    y.put_at(s, at + 2);
}

// Three bytes.
fn put_three(s: &mut [u8], at: usize, x: u8, y: u8, z: u8)
    requires { at + 3 ≤ length s.old }
    ensures { s.new ≡ put s.old at (bytes 1 x ++ (bytes 1 y ++ bytes 1 z)) }
{
    x.put_at(s, at);
    y.put_at(s, at + 1);
    z.put_at(s, at + 2);
}

// U, l, r and v, two bytes each, then the fill set.
fn put_measures(s: &mut [u8], at: usize, x: Settings)
    requires { at + 16 ≤ length s.old }
    ensures { s.new ≡ put s.old at ((bytes 2 x.width ++ bytes 2 x.length) ++ ((bytes 2 x.gap ++ bytes 2 x.travel) ++ bytes 8 x.sources)) }
{
    put_pair(s, at, x.width, x.length);
    put_pair(s, at + 4, x.gap, x.travel);
    x.sources.put_at(s, at + 8);
}

// The first 24 bytes of record 1, whose body has n bytes.
fn put_head(s: &mut [u8], at: usize, x: Settings, n: u16)
    requires { at + 24 ≤ length s.old }
    ensures { s.new ≡ put s.old at (head_bytes x n) }
{
    put_pair(s, at, n, 1);
    put_three(s, at + 4, x.columns, x.rows, lowest(x.hoppers));
    0u8.put_at(s, at + 7);
    put_measures(s, at + 8, x);
}

// Record 1; `more` where there are several hoppers.
pub fn put_settings(s: &mut [u8], at: usize, x: Settings, more: bool)
    requires { (at + 4 + length (settings_body x) ≤ length s.old) × (more ≡ several x) }
    ensures { s.new ≡ put s.old at (record_of 1 (settings_body x)) }
{
    if more {
        put_head(s, at, x, 28);
        x.hoppers.put_at(s, at + 24);
    } else {
        put_head(s, at, x, 20);
    }
}

// The first twelve bytes of record 2, whose body has n bytes.
fn put_top(s: &mut [u8], at: usize, n: u16, x: u32, y: u32)
    requires { at + 12 ≤ length s.old }
    ensures { s.new ≡ put s.old at ((bytes 2 n ++ bytes 2 2) ++ (bytes 4 x ++ bytes 4 y)) }
{
    put_pair(s, at, n, 2);
    x.put_at(s, at + 4);
    y.put_at(s, at + 8);
}

// Record 2, with the counters of h hoppers.
pub fn put_counters(s: &mut [u8], at: usize, x: Counters, h: u8)
    requires { (at + 12 + 4 * h ≤ length s.old) × (h ≤ 4) }
    ensures { s.new ≡ put s.old at (record_of 2 (counters_body h x)) }
{
    put_top(s, at, 8 + 4 * u16::from(h), x.last, x.booked);
    for (k, count) in x.delivered[..usize::from(h)].iter().enumerate() {
        count.put_at(s, at + 12 + 4 * k);
    }
}

// The eight bytes of a name, the first letter first.
fn put_name(s: &mut [u8], at: usize, x: u64)
    requires { at + 8 ≤ length s.old }
    ensures { s.new ≡ put s.old at (letters 8 x) }
{
    s[at..at + 8].copy_from_slice(&x.to_be_bytes());
}

// The record of a layout.
pub fn put_layout(s: &mut [u8], at: usize, x: Layout)
    requires { at + 20 ≤ length s.old }
    ensures { s.new ≡ put s.old at (record_of 5 (layout_body x)) }
{
    put_pair(s, at, 16, 5);
    put_name(s, at + 4, x.name);
    x.set.put_at(s, at + 12);
}

// A canister.
pub fn put_canister(s: &mut [u8], at: usize, c: Canister)
    requires { at + 8 ≤ length s.old }
    ensures { s.new ≡ put s.old at (canister_bytes c) }
{
    c.number.put_at(s, at);
    c.a.put_at(s, at + 4);
    c.b.put_at(s, at + 6);
}

// The record of tile t before its canisters.
pub fn put_tile(s: &mut [u8], at: usize, t: u8, h: Tile)
    requires { (at + 10 ≤ length s.old) × (h.count ≤ 16) }
    ensures { s.new ≡ put s.old at (tile_bytes t h) }
{
    put_pair(s, at, 6 + 8 * u16::from(h.count), 3);
    put_three(s, at + 4, t, h.running, h.distance);
    put_three(s, at + 7, h.next.code, h.token.code, h.count);
}
