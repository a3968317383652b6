// How a call on a barge begins and ends: the check of the whole barge, the joint total, the refusals 30, 49 and 50.
#![tactic(auto)]

ghost use Rattle.std.specs.Prelude.{◌≡◌, true, cond, not, [], ◌∷◌, ◌-◌, ◌≤◌, ◌<◌, leb, IfOk};
ghost use Rattle.laws.specs.Define.{sum, refusal};
ghost use Rattle.floor.specs.Numbers.{answered};
ghost use Rattle.barge.specs.Barges.{aboard, barge_sound};

use barge::{Barge, MAX_ALLOWANCE};
use check_floor::well_formed;
use floor::{Counters, Refusal};

// The canisters on a floor, by its counters; 0 where it is malformed.
fn on_floor(c: Counters, well: bool) -> u64
    requires { well ≡ true → sum c.delivered ≤ c.booked }
    ensures { (result ≡ cond well (c.booked - sum c.delivered) 0) × (result < 4294967296) }
{
    if !well {
        return 0;
    }
    let d = c.delivered;
    c.booked as u64 - (d[0] as u64 + d[1] as u64 + d[2] as u64 + d[3] as u64)
}

// Refuses by 30 or 49.
fn test_first(sound: bool, floor: u32) -> Result<(), Refusal>
    ensures { answered result ≡ refusal ((not sound, 30) ∷ (leb 4 floor, 49) ∷ []) }
{
    if !sound {
        return Err(Refusal::Malformed);
    }
    if 4 <= floor {
        return Err(Refusal::NoFloor);
    }
    Ok(())
}

// Refuses by 50.
pub fn test_allowance(total: u64, allowance: u32) -> Result<(), Refusal>
    ensures { answered result ≡ refusal ((leb allowance total, 50) ∷ []) }
{
    if allowance as u64 <= total {
        return Err(Refusal::Overloaded);
    }
    Ok(())
}

// How a call on a barge begins: the allowance, the four floors and the floor's number are checked; the joint total.
pub fn begin(barge: Barge, floor: u32) -> Result<u64, Refusal>
    ensures number { answered result ≡ refusal ((not (barge_sound barge), 30) ∷ (leb 4 floor, 49) ∷ []) }
    ensures total { IfOk result (λ total. total ≡ aboard barge) }
{
    let mut sound = (1 <= barge.allowance) & (barge.allowance <= MAX_ALLOWANCE);
    let mut total: u64 = 0;
    for each in &barge.floors {
        let well = well_formed(*each);
        total += on_floor(each.counters, well);
        sound &= well;
    }
    test_first(sound, floor)?;
    Ok(total)
}
