// Whether the sixteen places of a tile in memory are as they must be.
#![tactic(auto)]

ghost use Rattle.std.specs.Prelude.{◌≡◌, ◌≤◌, length, leb};
ghost use Rattle.laws.specs.Define.{pairs_of, all_of};
ghost use Rattle.floor.specs.Settings.{spacing};
ghost use Rattle.floor.specs.Memory.{is_zero_canister};
ghost use Rattle.floor.specs.Well.{apart, in_order};
ghost use Rattle.check_places.specs.InternalPlace.{member_sound, rises};
ghost use Rattle.check_places.specs.InternalLanes.{farther, Compared};

use floor::{Canister, Settings};

// Whether a place is unused. Its eight bytes, as one number, are tested at once: by `==` a reading of a fresh floor takes
// twice as long.
pub fn is_zero_canister(c: Canister) -> bool
    ensures { result ≡ is_zero_canister c }
{
    let word = (c.number as u64) + (c.a as u64) * 4294967296 + (c.b as u64) * 281474976710656;
    word == 0
}

// A canister within its tile, its number from 1 to the last booked.
pub fn member_ok(s: Settings, last: u32, c: Canister) -> bool
    requires { s.length ≤ s.width }
    ensures { result ≡ member_sound s last c }
{
    let span = s.width - s.length;
    ((c.a <= span) & (c.b <= span)) & ((0 < c.number) & (c.number <= last))
}

// How far two places are apart, on the axis where it is more.
fn distance(xa: u16, xb: u16, ya: u16, yb: u16) -> u16
    ensures { result ≡ farther xa xb ya yb }
{
    xa.abs_diff(ya).max(xb.abs_diff(yb))
}

// Whether a canister stands at least d in a or in b from another.
pub fn stands_apart(s: Settings, x: Canister, y: Canister) -> bool
    ensures { result ≡ apart (spacing s) x y }
{
    s.spacing() <= u32::from(distance(x.a, x.b, y.a, y.b))
}

// Two canisters of one tile, by rising number and far enough apart.
fn pair_ok(s: Settings, x: Canister, y: Canister) -> bool
    ensures { result ≡ in_order s x y }
{
    (x.number < y.number) & stands_apart(s, x, y)
}

// Every two of the members, one pair after another.
fn few_ok(s: Settings, members: &[Canister]) -> bool
    ensures { result ≡ pairs_of (in_order s) members.now }
{
    let mut ok = true;
    for (j, y) in members.iter().enumerate() {
        for x in &members[..j] {
            ok &= pair_ok(s, *x, *y);
        }
    }
    ok
}

// Numbers rise from each of the members to the next.
fn numbers_rise(members: &[Canister]) -> bool
    ensures { result ≡ pairs_of rises members.now }
{
    members.is_sorted_by(|x, y| x.number < y.number)
}

// Takes the distance of each of sixteen places from the one k further on into the least of the place.
fn compare_shifted(least: &mut [u16; 16], a: &[u16; 32], b: &[u16; 32], k: usize)
    requires { (k ≤ 8) × (length least.old ≡ 16) }
    ensures { Compared a.now b.now k least.old least.new }
{
    for i in 0..16 {
        let j = i + k;
        least[i] = least[i].min(distance(a[i], b[i], a[j], b[j]));
    }
}

// None of them is below d.
fn none_below(d: u16, least: &[u16]) -> bool
    ensures { result ≡ all_of (λ x. leb d x) least.now }
{
    let mut ok = true;
    for x in least {
        ok &= d <= *x;
    }
    ok
}

// Every two of nine to sixteen members are far enough apart. The n members are written twice in a row: each is compared with
// the one k further on, k from 1 to 8, and of two places one is at most 8 further on than the other.
fn all_apart(d: u16, members: &[Canister]) -> bool
    requires { (9 ≤ length members.now) × (length members.now ≤ 16) }
    ensures { result ≡ pairs_of (apart d) members.now }
{
    let n = members.len();
    let mut a = [0; 32];
    let mut b = [0; 32];
    for (k, c) in members.iter().enumerate() {
        a[k] = c.a;
        a[n + k] = c.a;
        b[k] = c.b;
        b[n + k] = c.b;
    }
    let mut least = [u16::MAX; 16];
    for k in 1..9 {
        compare_shifted(&mut least, &a, &b, k);
    }
    none_below(d, &least[..n])
}

// The members of a tile, every two of them. Nine or more are compared sixteen at a time.
pub fn pairs_ok(s: Settings, members: &[Canister]) -> bool
    requires { length members.now ≤ 16 }
    ensures { result ≡ pairs_of (in_order s) members.now }
{
    match u16::try_from(s.spacing()) {
        Ok(d) if 9 <= members.len() => numbers_rise(members) & all_apart(d, members),
        _ => few_ok(s, members),
    }
}
