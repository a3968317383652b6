// The floor on the wheelhouse page: text in a lent buffer.
#![tactic(auto)]

ghost use Rattle.std.specs.Prelude.{◌≡◌, [], ◌∷◌, ◌+◌, ◌*◌, ◌-◌, ◌≤◌, ◌<◌, length, get_or};
ghost use Rattle.image_bytes.specs.InternalPut.{put};
ghost use Rattle.floor.specs.Memory.{zero_tile};
ghost use Rattle.page_call.specs.Page as P;

use check_floor::well_formed;
use floor::{DISTANCE_NONE, Floor, Refusal, Side, Tile};
use image::Written;
use image_bytes::LittleEndian;

// Two bytes at a place.
fn put_pair(s: &mut [u8], at: usize, x: u8, y: u8)
    requires { at + 2 ≤ length s.old }
    ensures { s.new ≡ put s.old at (x ∷ y ∷ []) }
{
    s[at] = x;
    s[at + 1] = y;
}

// Three bytes at a place.
fn put_three(s: &mut [u8], at: usize, x: u8, y: u8, z: u8)
    requires { at + 3 ≤ length s.old }
    ensures { s.new ≡ put s.old at (x ∷ y ∷ z ∷ []) }
{
    s[at] = x;
    s[at + 1] = y;
    s[at + 2] = z;
}

// A number in two columns, right-aligned.
fn put_two(s: &mut [u8], at: usize, n: u8)
    requires { at + 2 ≤ length s.old }
    ensures { s.new ≡ put s.old at (P.two n) }
{
    if n < 10 {
        put_pair(s, at, b' ', 48 + n);
    } else {
        put_pair(s, at, 48 + n / 10, 48 + n % 10);
    }
}

// A side's letter.
fn letter(side: Side) -> u8
    ensures { result ≡ P.letter side.code }
{
    match side {
        Side::WEST => b'W',
        Side::SOUTH => b'S',
        Side::NORTH => b'N',
        Side::EAST => b'E',
        _ => b'-',
    }
}

// A tile's distance in two columns.
fn put_distance(s: &mut [u8], at: usize, h: Tile)
    requires { at + 2 ≤ length s.old }
    ensures { s.new ≡ put s.old at (P.distance_text h) }
{
    let d = h.distance;
    if h.running != 1 {
        put_pair(s, at, b'X', b'X');
    } else if d == DISTANCE_NONE {
        put_pair(s, at, b'-', b'-');
    } else {
        put_two(s, at, d);
    }
}

// A tile's seven columns and a bar.
fn put_cell(s: &mut [u8], at: usize, h: Tile)
    requires { at + 8 ≤ length s.old }
    ensures { s.new ≡ put s.old at (P.cell h) }
{
    put_two(s, at, h.count);
    put_three(s, at + 2, b' ', letter(h.next), b' ');
    put_distance(s, at + 5, h);
    b'|'.put_at(s, at + 7);
}

// The cells of row r of a floor of w columns and h rows.
fn put_cells(s: &mut [u8], at: usize, tiles: [Tile; 64], w: usize, h: usize, r: usize)
    requires { (w ≤ 8) × (h ≤ 8) × (r < h) × (at + 8 * w ≤ length s.old) }
    ensures { s.new ≡ put s.old at (P.cells (λ t. get_or tiles t zero_tile) w h r) }
{
    for k in 0..w {
        let tile = tiles[k * h + r];
        put_cell(s, at + 8 * k, tile);
    }
}

// A line: a bar, the cells, byte 10.
fn put_line(s: &mut [u8], at: usize, tiles: [Tile; 64], w: usize, h: usize, r: usize)
    requires { (w ≤ 8) × (h ≤ 8) × (r < h) × (at + (8 * w + 2) ≤ length s.old) }
    ensures { s.new ≡ put s.old at (P.line (λ t. get_or tiles t zero_tile) w h r) }
{
    b'|'.put_at(s, at);
    put_cells(s, at + 1, tiles, w, h, r);
    b'\n'.put_at(s, at + 1 + 8 * w);
}

// The lines, north row first.
fn put_lines(s: &mut [u8], tiles: [Tile; 64], w: usize, h: usize)
    requires { (w ≤ 8) × (h ≤ 8) × (h * (8 * w + 2) ≤ length s.old) }
    ensures { s.new ≡ put s.old 0 (P.lines (λ t. get_or tiles t zero_tile) w h) }
{
    for k in 0..h {
        put_line(s, k * (8 * w + 2), tiles, w, h, h - 1 - k);
    }
}

// Writes the page of a floor to the front of the buffer; refused, not a byte changes.
pub fn page(floor: Floor, buffer: &mut [u8]) -> Written
    ensures { (result ≡ P.page_answer floor (length buffer.old)) × (buffer.new ≡ P.paged floor buffer.old) }
{
    let well = well_formed(floor);
    if !well {
        return Written::refused(Refusal::Malformed);
    }
    let w = floor.settings.columns as usize;
    let h = floor.settings.rows as usize;
    let n = h * (8 * w + 2);
    if buffer.len() < n {
        return Written::refused(Refusal::ShortPage);
    }
    put_lines(buffer, floor.tiles, w, h);
    Written {
        refusal: 0,
        length: n as u32,
    }
}
