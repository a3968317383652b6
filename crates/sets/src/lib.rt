// Sets of tiles as the bits of a word: tile t is in the set s where bit t of s is set.
#![tactic(auto)]

ghost use Rattle.std.specs.Prelude.{◌≡◌, true, false, cond, ◌||◌, ◌&&◌, not, ℕ, ◌-◌, ◌≤◌, ◌<◌, ◌^◌, eqb, ltb, length, get_or};
ghost use Rattle.laws.specs.Define.{any_of, bit, bits_below};

// Whether t is in the set.
pub fn has(s: u64, t: u8) -> bool
    requires { t < 64 }
    ensures { result ≡ bit s t }
{
    (s >> t) & 1 == 1
}

// The set with t in it.
pub fn with(s: u64, t: u8) -> u64
    requires { t < 64 }
    ensures { (k : ℕ) → bit result k ≡ (eqb k t || bit s k) }
{
    s | (1 << t)
}

// The set without t.
pub fn without(s: u64, t: u8) -> u64
    requires { t < 64 }
    ensures { (k : ℕ) → bit result k ≡ (not (eqb k t) && bit s k) }
{
    if has(s, t) { s ^ (1 << t) } else { s }
}

// The set of the tiles below n.
pub fn full(n: u8) -> u64
    requires { n ≤ 64 }
    ensures { result ≡ 2 ^ n - 1 }
{
    if n == 64 {
        return u64::MAX;
    }
    (1 << n) - 1
}

// Whether every tile of the set is below n.
pub fn within(s: u64, n: u8) -> bool
    requires { n ≤ 64 }
    ensures { result ≡ ltb s (2 ^ n) }
{
    if n == 64 {
        return true;
    }
    s >> n == 0
}

// Whether t is in the set, for any t: a number that is no tile's is in no set.
pub fn holds(s: u64, t: usize) -> bool
    ensures { result ≡ bit s t }
{
    if 63 < t {
        return false;
    }
    has(s, t as u8)
}

// How many tiles are in the set.
pub fn size(s: u64) -> u8
    ensures { result ≡ length (bits_below s 64) }
{
    s.count_ones() as u8
}

// Whether some tile is in both sets.
pub fn meets(s: u64, other: u64) -> bool
    ensures { result ≡ any_of (bit other) (bits_below s 64) }
{
    s & other != 0
}

// The set without the tiles of the other.
pub fn minus(s: u64, other: u64) -> u64
    ensures { (k : ℕ) → bit result k ≡ (not (bit other k) && bit s k) }
{
    s ^ (s & other)
}

// The lowest tile of the set; 64 where it is empty.
pub fn lowest(s: u64) -> u8
    ensures { result ≡ get_or (bits_below s 64) 0 64 }
{
    s.trailing_zeros() as u8
}

// The set of one tile; a number that is no tile's gives the empty set.
pub fn single(t: u8) -> u64
    ensures { result ≡ cond (ltb t 64) (2 ^ t) 0 }
{
    if t < 64 {
        return 1 << t;
    }
    0
}
