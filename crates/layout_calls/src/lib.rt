// Keep, forget and recall: the calls on a floor's named layouts. Each takes any bytes, and its contract determines the whole
// answer on all of them.
#![tactic(auto)]

ghost use Rattle.std.specs.Prelude.{◌≡◌};
ghost use Rattle.floor.specs.Numbers.{answered};
ghost use Rattle.floor.specs.Well.{well_formed};
ghost use Rattle.floor.specs.Layouts.{name_number};
ghost use Rattle.floor.specs.Calls.{keep_answer, forget_answer, recall_answer};

use check_floor::well_formed;
use floor::{Answer, Floor, Layout, Name, Refusal, answered};
use layout_parts::{
    forget_in, held_set, keep_in, name_number, recall_tiles, running_set, test_keep,
};

// Keeps in place, where it is known whether the floor is well formed.
fn keep_on(floor: &mut Floor, name: Name, well: bool) -> Result<(), Refusal>
    requires { well ≡ well_formed floor.old }
    ensures { record { refusal = answered result; floor = floor.new } ≡ keep_answer floor.old (name_number name.letters) }
{
    if !well {
        return Err(Refusal::Malformed);
    }
    let name = name_number(name);
    test_keep(floor.layouts, name)?;
    let set = running_set(floor.settings, floor.tiles);
    let layouts = keep_in(floor.layouts, Layout { name, set });
    floor.layouts = layouts;
    Ok(())
}

// The same for a forgetting. Not inlined: its loop in the call's body would cost another copy of the floor.
#[inline(never)]
fn forget_on(floor: &mut Floor, name: Name, well: bool) -> Result<(), Refusal>
    requires { well ≡ well_formed floor.old }
    ensures { record { refusal = answered result; floor = floor.new } ≡ forget_answer floor.old (name_number name.letters) }
{
    if !well {
        return Err(Refusal::Malformed);
    }
    let name = name_number(name);
    held_set(floor.layouts, name)?;
    let layouts = forget_in(floor.layouts, name);
    floor.layouts = layouts;
    Ok(())
}

// The same for a recall.
fn recall_on(floor: &mut Floor, name: Name, well: bool) -> Result<(), Refusal>
    requires { well ≡ well_formed floor.old }
    ensures { record { refusal = answered result; floor = floor.new } ≡ recall_answer floor.old (name_number name.letters) }
{
    if !well {
        return Err(Refusal::Malformed);
    }
    let set = held_set(floor.layouts, name_number(name))?;
    let tiles = recall_tiles(floor.settings, floor.tiles, set);
    floor.tiles = tiles;
    Ok(())
}

// Keeps the set of the tiles that run under a name. As in a booking, the floor is copied once and changed in place.
pub fn keep(floor: Floor, name: Name) -> Answer
    ensures { result ≡ keep_answer floor (name_number name.letters) }
{
    let well = well_formed(floor);
    let mut changed = floor;
    let refusal = answered(keep_on(&mut changed, name, well));
    Answer {
        floor: changed,
        refusal,
    }
}

// Forgets a name. Its place is free again.
pub fn forget(floor: Floor, name: Name) -> Answer
    ensures { result ≡ forget_answer floor (name_number name.letters) }
{
    let well = well_formed(floor);
    let mut changed = floor;
    let refusal = answered(forget_on(&mut changed, name, well));
    Answer {
        floor: changed,
        refusal,
    }
}

// Makes the stops and repairs that a name's set needs.
pub fn recall(floor: Floor, name: Name) -> Answer
    ensures { result ≡ recall_answer floor (name_number name.letters) }
{
    let well = well_formed(floor);
    let mut changed = floor;
    let refusal = answered(recall_on(&mut changed, name, well));
    Answer {
        floor: changed,
        refusal,
    }
}
