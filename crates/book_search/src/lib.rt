// The lowest place on a tile that keeps the spacing: the lowest b with a free a, then the lowest a there.
#![tactic(auto)]

ghost use Rattle.std.specs.Prelude.{◌≡◌, not, suc, ◌+◌, ◌≤◌, ◌<◌, MatchOption};
ghost use Rattle.std.specs.List.{find};
ghost use Rattle.laws.specs.Every.{All};
ghost use Rattle.floor.specs.Settings.{spacing, span};
ghost use Rattle.floor.specs.Well.{apart};
ghost use Rattle.floor.specs.Anywhere.{lowest_a_of, place_a, place_b};

use check_places::stands_apart;
use floor::{Canister, Settings};

// A place on a tile.
#[derive(Clone, Copy, PartialEq, Eq)]
pub struct Place {
    pub a: u16,
    pub b: u16,
}

// The first canister that does not keep the spacing to the place.
fn first_near(s: Settings, own: &[Canister], place: Canister) -> Option<Canister>
    ensures { result ≡ find (λ c. not (apart (spacing s) place c)) own.now }
{
    own.iter().copied().find(|c| !stands_apart(s, place, *c))
}

// The lowest a at b that keeps the spacing to all canisters.
// A canister that is too near to a is too near up to its own a + d, where the search goes on.
fn lowest_a(s: Settings, own: &[Canister], b: u16) -> Option<u16>
    requires { (s.length ≤ s.width) × (s.width ≤ 60000) }
    ensures { MatchOption result (lowest_a_of (spacing s) (suc (span s)) own.now b ≡ suc (span s)) (λ a. (a ≤ span s) × (a ≡ lowest_a_of (spacing s) (suc (span s)) own.now b)) }
{
    let d = s.spacing();
    let span = s.width - s.length;
    let mut a: u16 = 0;
    // how far a moves depends on the canister that is near
    while let Some(c) = first_near(s, own, Canister { number: 0, a, b }) {
        let beyond = c.a as u32 + d;
        if (span as u32) < beyond {
            return None;
        }
        a = beyond as u16;
    }
    Some(a)
}

// The next b to look at where b has no place: the lowest at which a canister is left behind, U - l + 1 at most.
fn next_b(s: Settings, own: &[Canister], b: u16) -> u16
    requires { (s.length ≤ s.width) × (s.width ≤ 60000) × (b ≤ span s) }
    ensures { (b < result) × (result ≤ suc (span s)) × All (λ c. b < c.b + spacing s → result ≤ c.b + spacing s) own.now }
{
    let d = s.spacing();
    let low = b as u32;
    let mut next = (s.width - s.length) as u32 + 1;
    for c in own {
        let beyond = c.b as u32 + d;
        if (low < beyond) & (beyond < next) {
            next = beyond;
        }
    }
    next as u16
}

// The lowest place that keeps the spacing to all canisters.
pub fn find_place(s: Settings, own: &[Canister]) -> Option<Place>
    requires { (s.length ≤ s.width) × (s.width ≤ 60000) }
    ensures { MatchOption result (place_b s own.now ≡ suc (span s)) (λ p. (p.b ≤ span s) × (p.b ≡ place_b s own.now) × (p.a ≡ place_a s own.now)) }
{
    let span = s.width - s.length;
    let mut b: u16 = 0;
    // how far b moves depends on the canisters
    while b <= span {
        if let Some(a) = lowest_a(s, own, b) {
            return Some(Place { a, b });
        }
        b = next_b(s, own, b);
    }
    None
}
