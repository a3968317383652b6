// Reads an image: gives the floor that its records hold, or the first refusal in reading order. It doesn't check that the
// floor is well formed (12); only a layout without a name is refused here.
#![tactic(auto)]

ghost use Rattle.std.specs.Prelude.{IfOk, ◌≡◌, ℕ, ◌+◌, ◌*◌, ◌≤◌, ◌<◌, ltb, length, take, drop, get_or};
ghost use Rattle.laws.specs.Define.{tab, all_of};
ghost use Rattle.image_bytes.specs.Bytes.{field};
ghost use Rattle.floor.specs.Memory.{zero_floor};
ghost use Rattle.floor.specs.Numbers.{answered, refusal_number};
ghost use Rattle.image.specs.Image.{tile_widths, canister_in, front_fault, records_answer};
ghost use Rattle.image_read.specs.InternalArrays.{canister_from};
ghost use Rattle.image_read.specs.InternalFront.{FrontRead};

use floor::{Answer, Canister, Counters, Floor, Layout, Refusal, Settings, zero_floor};
use image_bytes::LittleEndian;
use image_record_read::{LayoutScan, Record, Scan, read_record, scan_layouts, scan_tiles};
use sets::size;

// What the front of an image holds, the records of kinds 1, 2 and 5: how many layouts there are, where the tiles' records
// begin.
#[derive(Clone, Copy)]
pub struct Front {
    pub settings: Settings,
    pub counters: Counters,
    pub layouts: [Layout; 8],
    pub count: usize,
    pub next: usize,
}

// The canister in the eight bytes from `at` on.
fn canister_at(s: &[u8], at: usize) -> Canister
    requires { at + 8 ≤ length s.now }
    ensures { result ≡ canister_in (drop at s.now) }
{
    Canister {
        number: u32::read_at(s, at),
        a: u16::read_at(s, at + 4),
        b: u16::read_at(s, at + 6),
    }
}

// The 1,024 places, sixteen for each tile; c tiles are used, and the places of the others stay zero.
fn canisters_of(s: &[u8], starts: [usize; 64], c: usize) -> [Canister; 1024]
    requires { (c ≤ 64) × ((t : ℕ) → t < c → get_or starts t 0 + 6 + 8 * field tile_widths 5 (drop (get_or starts t 0) s.now) ≤ length s.now) × ((t : ℕ) → t < c → field tile_widths 5 (drop (get_or starts t 0) s.now) ≤ 16) }
    ensures { result ≡ tab 1024 (canister_from s.now starts c) }
{
    let mut out = [Canister::ZERO; 1024];
    // By number: t and j give the place among the 1,024.
    for t in 0..c {
        let at = starts[t];
        let n = usize::from(s[at + 5]);
        for j in 0..n {
            out[16 * t + j] = canister_at(s, at + 6 + 8 * j);
        }
    }
    out
}

// Whether each of the layouts has a name.
fn all_named(layouts: &[Layout]) -> bool
    ensures { result ≡ all_of (λ x. ltb 0 x.name) layouts.now }
{
    layouts.iter().all(|x| 0 < x.name)
}

// A refusal: its number and the all-zero floor.
pub fn refused(number: u8) -> Answer
    ensures { result ≡ record { refusal = number; floor = zero_floor } }
{
    Answer {
        refusal: number,
        floor: zero_floor(),
    }
}

// The front of an image: the records of kinds 1, 2 and 5.
fn read_front(s: &[u8]) -> Result<Front, Refusal>
    ensures { (answered result ≡ front_fault s.now) × IfOk result (FrontRead s.now) }
{
    let Record::Settings(settings) = read_record(s, 0, 1, 0)? else {
        unreachable!()
    };
    let n1 = u16::read_at(s, 0);
    let second = 4 + usize::from(n1);
    let hoppers = size(settings.hoppers);
    let Record::Counters(counters) = read_record(s, second, 2, hoppers)? else {
        unreachable!()
    };
    let n2 = u16::read_at(s, second);
    let third = second + 4 + usize::from(n2);
    let LayoutScan { layouts, count } = scan_layouts(s, third)?;
    Ok(Front {
        settings,
        counters,
        layouts,
        count,
        next: third + 20 * count,
    })
}

// The floor that the bytes hold; or the first refusal in reading order, with the all-zero floor. A layout without a name is
// 12 here, because in memory it would look like an unused place. Every other floor that is not well formed is given as it
// is: `image_calls::load` checks it and answers 12. Not inlined: its frame is gone when the floor is checked, and a load takes
// 71 KB of stack for 114. C takes a number beside the floor; a Result of the floor would cost a copy of it.
#[inline(never)]
pub fn read_image(s: &[u8]) -> Answer
    ensures { result ≡ records_answer s.now }
{
    let front = match read_front(s) {
        Ok(front) => front,
        Err(why) => return refused(u8::from(why)),
    };
    let Front {
        settings,
        counters,
        layouts,
        count,
        next,
    } = front;
    let c = settings.tile_count();
    let scan = match scan_tiles(s, next, c) {
        Ok(scan) => scan,
        Err(why) => return refused(u8::from(why)),
    };
    if !all_named(&layouts[..count]) {
        return refused(u8::from(Refusal::ImageMalformed));
    }
    let Scan { starts, tiles } = scan;
    Answer {
        refusal: 0,
        floor: Floor {
            settings,
            counters,
            tiles,
            canisters: canisters_of(s, starts, c),
            layouts,
        },
    }
}
