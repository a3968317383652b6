// The records of an image, read one by one: the reader of each kind, and the scans of the layouts' and the tiles' records.
// Each refuses by the first fault, without 12.
#![tactic(auto)]

ghost use Rattle.std.specs.Prelude.{IfOk, ◌≡◌, ◌⊎◌, not, ◌&&◌, ◌+◌, ◌*◌, ◌≤◌, eqb, length, take, drop, get_or};
ghost use Rattle.laws.specs.Define.{tab, refusal};
ghost use Rattle.floor.specs.Layouts.{name_number};
ghost use Rattle.floor.specs.Memory.{unused, head};
ghost use Rattle.floor.specs.Numbers.{answered};
ghost use Rattle.image.specs.Image as I;
ghost use Rattle.image.specs.Image.{settings_in, counters_in, tile_in, tiles_in, layout_in, settings_faults, counters_faults, tile_faults, layout_faults, end_faults, record_fault, end_fault, is_layout, layouts_fault, tiles_fault};
ghost use Rattle.image_record_read.specs.InternalScan.{Holds, LayoutsAt, Starts};

use check_settings::{sizes_wrong, test_settings};
use floor::{Counters, Layout, Refusal, Settings, Side, Tile};
use image_bytes::LittleEndian;
use sets::{lowest, single, size};

// What a record holds, by its kind: 1 the settings, 2 the counters, 3 a tile without its canisters, 4 the end, 5 a layout.
#[derive(Clone, Copy, PartialEq, Eq)]
pub enum Record {
    Settings(Settings),
    Counters(Counters),
    Tile(Tile),
    End,
    Layout(Layout),
}

// What a scan of the tiles' records finds: the tiles, and where each body starts.
#[derive(Clone, Copy)]
pub struct Scan {
    pub starts: [usize; 64],
    pub tiles: [Tile; 64],
}

// What a scan of the layouts' records finds: the eight places, and how many records there are, twenty bytes each.
#[derive(Clone, Copy)]
pub struct LayoutScan {
    pub layouts: [Layout; 8],
    pub count: usize,
}

// The hopper set of record 1: the last eight of its 28 bytes; of 20 bytes, the one tile that its hopper byte names.
fn hoppers_at(s: &[u8], at: usize, n: u16) -> u64
    requires { (at + n ≤ length s.now) × ((n ≡ 20) ⊎ (n ≡ 28)) }
    ensures { result ≡ (settings_in n (drop at s.now)).hoppers }
{
    if n == 28 {
        return u64::read_at(s, at + 20);
    }
    single(s[at + 2])
}

// The settings whose record's body of n bytes starts at `at`.
fn settings_at(s: &[u8], at: usize, n: u16) -> Settings
    requires { (at + n ≤ length s.now) × ((n ≡ 20) ⊎ (n ≡ 28)) }
    ensures { result ≡ settings_in n (drop at s.now) }
{
    Settings {
        columns: s[at],
        rows: s[at + 1],
        hoppers: hoppers_at(s, at, n),
        sources: u64::read_at(s, at + 12),
        width: u16::read_at(s, at + 4),
        length: u16::read_at(s, at + 6),
        gap: u16::read_at(s, at + 8),
        travel: u16::read_at(s, at + 10),
    }
}

// Whether the hopper byte of a record with a set isn't the lowest of its tiles. It isn't tested for an empty set.
fn byte_wrong(byte: u8, set: u64) -> bool
    ensures { result ≡ (not (eqb set 0) && not (eqb byte (I.lowest set))) }
{
    let low = lowest(set);
    (set != 0) & (byte != low)
}

// The reader of kind 1 with a body of n bytes: 11, then 1 to 3, or the settings.
fn read_settings(s: &[u8], at: usize, n: u16) -> Result<Settings, Refusal>
    requires { at + n ≤ length s.now }
    ensures { (answered result ≡ refusal (settings_faults n (drop at s.now))) × IfOk result (λ x. x ≡ settings_in n (drop at s.now)) }
{
    if (n != 20) & (n != 28) {
        return Err(Refusal::RecordShape);
    }
    if s[at + 3] != 0 {
        return Err(Refusal::RecordShape);
    }
    let x = settings_at(s, at, n);
    let more = n == 28;
    let wrong = byte_wrong(s[at + 2], x.hoppers);
    if more & wrong {
        return Err(Refusal::RecordShape);
    }
    if sizes_wrong(x) {
        return Err(Refusal::Grid);
    }
    let count = size(x.hoppers);
    if more & (count < 2) {
        return Err(Refusal::Sets);
    }
    test_settings(x)?;
    Ok(x)
}

// The counters whose record's body starts at `at`, where there are h hoppers; those beyond are zero.
fn counters_at(s: &[u8], at: usize, h: u8) -> Counters
    requires { (at + 8 + 4 * h ≤ length s.now) × (h ≤ 4) }
    ensures { result ≡ counters_in h (drop at s.now) }
{
    let mut delivered = [0; 4];
    // By number: k gives the place of the bytes too.
    for k in 0..usize::from(h) {
        delivered[k] = u32::read_at(s, at + 8 + 4 * k);
    }
    Counters {
        last: u32::read_at(s, at),
        booked: u32::read_at(s, at + 4),
        delivered,
    }
}

// The reader of kind 2 with a body of n bytes, where there are h hoppers: 11, or the counters.
fn read_counters(s: &[u8], at: usize, n: u16, h: u8) -> Result<Counters, Refusal>
    requires { (at + n ≤ length s.now) × (h ≤ 4) }
    ensures { (answered result ≡ refusal (counters_faults h n)) × IfOk result (λ x. x ≡ counters_in h (drop at s.now)) }
{
    if n != 8 + 4 * u16::from(h) {
        return Err(Refusal::RecordShape);
    }
    Ok(counters_at(s, at, h))
}

// The tile, without its canisters, whose record's body starts at `at`. Each byte is kept as it stands.
fn tile_at(s: &[u8], at: usize) -> Tile
    requires { at + 6 ≤ length s.now }
    ensures { result ≡ head (tile_in (drop at s.now)) }
{
    Tile {
        running: s[at + 1],
        distance: s[at + 2],
        next: Side { code: s[at + 3] },
        token: Side { code: s[at + 4] },
        count: s[at + 5],
    }
}

// The reader of kind 3 with a body of n bytes where `tile` is due: 11, or the tile without its canisters.
fn read_tile(s: &[u8], at: usize, n: u16, tile: u8) -> Result<Tile, Refusal>
    requires { at + n ≤ length s.now }
    ensures { (answered result ≡ refusal (tile_faults tile n (drop at s.now))) × IfOk result (λ x. x ≡ head (tile_in (drop at s.now))) }
{
    if n < 6 {
        return Err(Refusal::RecordShape);
    }
    if s[at] != tile {
        return Err(Refusal::RecordShape);
    }
    let count = s[at + 5];
    if 16 < count {
        return Err(Refusal::RecordShape);
    }
    if n != 6 + 8 * u16::from(count) {
        return Err(Refusal::RecordShape);
    }
    Ok(tile_at(s, at))
}

// The reader of kind 4 with a body of n bytes: 11, or nothing.
fn read_end(n: u16) -> Result<(), Refusal>
    ensures { answered result ≡ refusal (end_faults n) }
{
    if n != 0 {
        return Err(Refusal::RecordShape);
    }
    Ok(())
}

// The name in the eight bytes from `at` on: the first letter in the highest byte.
fn name_at(s: &[u8], at: usize) -> u64
    requires { at + 8 ≤ length s.now }
    ensures { result ≡ name_number (take 8 (drop at s.now)) }
{
    u64::from_be_bytes([
        s[at],
        s[at + 1],
        s[at + 2],
        s[at + 3],
        s[at + 4],
        s[at + 5],
        s[at + 6],
        s[at + 7],
    ])
}

// The layout in the sixteen bytes from `at` on.
fn layout_at(s: &[u8], at: usize) -> Layout
    requires { at + 16 ≤ length s.now }
    ensures { result ≡ layout_in (drop at s.now) }
{
    Layout {
        name: name_at(s, at),
        set: u64::read_at(s, at + 8),
    }
}

// The reader of kind 5 with a body of n bytes: 11, or the layout.
fn read_layout(s: &[u8], at: usize, n: u16) -> Result<Layout, Refusal>
    requires { at + n ≤ length s.now }
    ensures { (answered result ≡ refusal (layout_faults n)) × IfOk result (λ x. x ≡ layout_in (drop at s.now)) }
{
    if n != 16 {
        return Err(Refusal::RecordShape);
    }
    Ok(layout_at(s, at))
}

// The record at `at` where kind `due` is due; `tile` is the tile that is due and, for kind 2, the number of hoppers. The
// kind found decides which reader runs, and 10. The kinds are the paper's numbers.
pub fn read_record(s: &[u8], at: usize, due: u16, tile: u8) -> Result<Record, Refusal>
    requires { (at ≤ length s.now) × (1 ≤ due) × (due ≤ 5) × (due ≡ 2 → tile ≤ 4) }
    ensures { (answered result ≡ record_fault due tile (drop at s.now)) × IfOk result (Holds due tile (drop at s.now)) }
{
    let left = s.len() - at;
    if left < 4 {
        return Err(Refusal::ImageEnds);
    }
    let n = u16::read_at(s, at);
    if left - 4 < usize::from(n) {
        return Err(Refusal::ImageEnds);
    }
    let kind = u16::read_at(s, at + 2);
    match kind {
        1 if due == 1 => Ok(Record::Settings(read_settings(s, at + 4, n)?)),
        2 if due == 2 => Ok(Record::Counters(read_counters(s, at + 4, n, tile)?)),
        3 if due == 3 => Ok(Record::Tile(read_tile(s, at + 4, n, tile)?)),
        4 if due == 4 => {
            read_end(n)?;
            Ok(Record::End)
        }
        5 if due == 5 => Ok(Record::Layout(read_layout(s, at + 4, n)?)),
        _ => Err(Refusal::OtherKind),
    }
}

// Whether a record of kind 5 stands at `at`, as far as its first four bytes tell.
fn is_layout(s: &[u8], at: usize) -> bool
    requires { at ≤ length s.now }
    ensures { result ≡ is_layout (drop at s.now) }
{
    s.len() - at >= 4 && u16::read_at(s, at + 2) == 5
}

// The records of the layouts from `from` on, at most eight.
pub fn scan_layouts(s: &[u8], from: usize) -> Result<LayoutScan, Refusal>
    requires { from ≤ length s.now }
    ensures { (answered result ≡ layouts_fault 8 (drop from s.now)) × IfOk result (λ x. LayoutsAt s.now from x.count x.layouts) }
{
    let mut layouts = [Layout::ZERO; 8];
    let mut at = from;
    // By number: n is how many there are.
    for n in 0..8 {
        if !is_layout(s, at) {
            return Ok(LayoutScan { layouts, count: n });
        }
        let Record::Layout(x) = read_record(s, at, 5, 0)? else {
            unreachable!()
        };
        layouts[n] = x;
        at += 20;
    }
    Ok(LayoutScan { layouts, count: 8 })
}

// Refuses by the end record at `at`, and by bytes left over after it.
fn test_end(s: &[u8], at: usize) -> Result<(), Refusal>
    requires { at ≤ length s.now }
    ensures { answered result ≡ end_fault (drop at s.now) }
{
    read_record(s, at, 4, 0)?;
    let n = u16::read_at(s, at);
    if at + 4 + usize::from(n) < s.len() {
        return Err(Refusal::ImageEnds);
    }
    Ok(())
}

// The records of c tiles from `from` on, then the end.
pub fn scan_tiles(s: &[u8], from: usize, c: usize) -> Result<Scan, Refusal>
    requires { (from ≤ length s.now) × (c ≤ 64) }
    ensures { (answered result ≡ tiles_fault c 0 (drop from s.now)) × IfOk result (λ x. Starts s.now (drop from s.now) x.starts c × (x.tiles ≡ tab 64 (λ t. head (get_or (tiles_in c (drop from s.now)) t unused)))) }
{
    let mut tiles = [Tile::ZERO; 64];
    let mut starts = [0; 64];
    let mut at = from;
    // By number: t is the tile that is due, and the place in two arrays.
    for t in 0..c {
        let Record::Tile(x) = read_record(s, at, 3, t as u8)? else {
            unreachable!()
        };
        tiles[t] = x;
        starts[t] = at + 4;
        let n = u16::read_at(s, at);
        at = at + 4 + usize::from(n);
    }
    test_end(s, at)?;
    Ok(Scan { starts, tiles })
}
