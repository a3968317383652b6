// The calls on a barge. Each takes any bytes, and its contract determines the whole answer on all of them.
#![tactic(auto)]

ghost use Rattle.std.specs.Prelude.{◌≡◌, not, [], ◌∷◌, leb, IfOk};
ghost use Rattle.laws.specs.Define.{refusal};
ghost use Rattle.floor.specs.Numbers.{answered};
ghost use Rattle.barge.specs.Barges.{aboard, barge_sound, barge_book, barge_book_anywhere, barge_stop, barge_repair, barge_round};

use barge::{Barge, BargeAnswer, BargePlaced, BargeRounded};
use barge_parts::{begin, test_allowance};
use book_anywhere::anywhere_checked;
use call_parts::{repaired_floor, stopped_floor, test_repair, test_stop};
use floor::{Canister, Refusal, Report, answered};
use round_move::run_round;

// The five calls share how they begin. What follows differs in the call, its definition and the type of the answer: one
// function over them would take all three as parameters, and be no plainer. A barge is changed in place, by functions that are
// not inlined: a branch in the body of a call costs another copy of four floors.

// Books in place, after the call's begin. The floor is changed beside the barge, since 50 is tested last.
#[inline(never)]
fn book_on(
    barge: &mut Barge,
    begun: Result<u64, Refusal>,
    floor: u32,
    tile: u32,
    canister: Canister,
) -> Result<(), Refusal>
    requires number { answered begun ≡ refusal ((not (barge_sound barge.old), 30) ∷ (leb 4 floor, 49) ∷ []) }
    requires total { IfOk begun (λ total. total ≡ aboard barge.old) }
    ensures { record { barge = barge.new; refusal = answered result } ≡ barge_book barge.old floor tile canister }
{
    let total = begun?;
    let k = floor as usize;
    let mut changed = barge.floors[k];
    book_call::book_on(&mut changed, tile, canister, true)?;
    test_allowance(total, barge.allowance)?;
    barge.floors[k] = changed;
    Ok(())
}

// Books a canister on a fill tile of one floor.
pub fn book(mut barge: Barge, floor: u32, tile: u32, canister: Canister) -> BargeAnswer
    ensures { result ≡ barge_book barge floor tile canister }
{
    let begun = begin(barge, floor);
    let refusal = answered(book_on(&mut barge, begun, floor, tile, canister));
    BargeAnswer { barge, refusal }
}

// Books in place without a place, after the call's begin; the place, and the number of the refusal.
#[inline(never)]
fn anywhere_on(
    barge: &mut Barge,
    begun: Result<u64, Refusal>,
    floor: u32,
    tile: u32,
    number: u32,
) -> (u16, u16, u8)
    requires number { answered begun ≡ refusal ((not (barge_sound barge.old), 30) ∷ (leb 4 floor, 49) ∷ []) }
    requires total { IfOk begun (λ total. total ≡ aboard barge.old) }
    ensures { record { barge = barge.new; a = result.0; b = result.1; refusal = result.2 } ≡ barge_book_anywhere barge.old floor tile number }
{
    match begun {
        Ok(total) => {
            let k = floor as usize;
            let answer = anywhere_checked(barge.floors[k], tile, number, true);
            if answer.refusal != 0 {
                return (0, 0, answer.refusal);
            }
            match test_allowance(total, barge.allowance) {
                Ok(()) => {
                    barge.floors[k] = answer.floor;
                    (answer.a, answer.b, 0)
                }
                Err(why) => (0, 0, u8::from(why)),
            }
        }
        Err(why) => (0, 0, u8::from(why)),
    }
}

// Books a canister on a fill tile of one floor, at the lowest place that keeps the spacing.
pub fn book_anywhere(mut barge: Barge, floor: u32, tile: u32, number: u32) -> BargePlaced
    ensures { result ≡ barge_book_anywhere barge floor tile number }
{
    let begun = begin(barge, floor);
    let (a, b, refusal) = anywhere_on(&mut barge, begun, floor, tile, number);
    BargePlaced {
        barge,
        a,
        b,
        refusal,
    }
}

// Stops in place, after the call's begin.
#[inline(never)]
fn stop_on(
    barge: &mut Barge,
    begun: Result<u64, Refusal>,
    floor: u32,
    tile: u32,
) -> Result<(), Refusal>
    requires { answered begun ≡ refusal ((not (barge_sound barge.old), 30) ∷ (leb 4 floor, 49) ∷ []) }
    ensures { record { barge = barge.new; refusal = answered result } ≡ barge_stop barge.old floor tile }
{
    begun?;
    let k = floor as usize;
    test_stop(barge.floors[k], tile)?;
    barge.floors[k] = stopped_floor(barge.floors[k], tile);
    Ok(())
}

// Stops a running tile of one floor.
pub fn stop(mut barge: Barge, floor: u32, tile: u32) -> BargeAnswer
    ensures { result ≡ barge_stop barge floor tile }
{
    let begun = begin(barge, floor);
    let refusal = answered(stop_on(&mut barge, begun, floor, tile));
    BargeAnswer { barge, refusal }
}

// Repairs in place, after the call's begin.
#[inline(never)]
fn repair_on(
    barge: &mut Barge,
    begun: Result<u64, Refusal>,
    floor: u32,
    tile: u32,
) -> Result<(), Refusal>
    requires { answered begun ≡ refusal ((not (barge_sound barge.old), 30) ∷ (leb 4 floor, 49) ∷ []) }
    ensures { record { barge = barge.new; refusal = answered result } ≡ barge_repair barge.old floor tile }
{
    begun?;
    let k = floor as usize;
    test_repair(barge.floors[k], tile)?;
    barge.floors[k] = repaired_floor(barge.floors[k], tile);
    Ok(())
}

// Sets a stopped tile of one floor running again.
pub fn repair(mut barge: Barge, floor: u32, tile: u32) -> BargeAnswer
    ensures { result ≡ barge_repair barge floor tile }
{
    let begun = begin(barge, floor);
    let refusal = answered(repair_on(&mut barge, begun, floor, tile));
    BargeAnswer { barge, refusal }
}

// One round of one floor.
pub fn round(barge: Barge, floor: u32) -> BargeRounded
    ensures { result ≡ barge_round barge floor }
{
    let begun = begin(barge, floor);
    let mut changed = barge;
    let mut report = Report::ZERO;
    let refusal = match begun {
        Ok(_) => {
            let k = floor as usize;
            let old = changed.floors[k];
            let answer = run_round(old);
            let moved = answer.floor;
            changed.floors[k] = moved;
            let given = answer.report;
            report = given;
            0
        }
        Err(why) => u8::from(why),
    };
    BargeRounded {
        barge: changed,
        report,
        refusal,
    }
}
