// The refusals 1 to 3 of settings, on any bytes.
#![tactic(auto)]

ghost use Rattle.std.specs.Prelude.{◌≡◌, false};
ghost use Rattle.floor.specs.Numbers.{answered};
ghost use Rattle.floor.specs.Settings.{settings_refusal};
ghost use Rattle.check_settings.specs.InternalGroups.{sizes_wrong, sets_wrong, rules_wrong, measures_wrong};

use floor::{Refusal, Settings};
use sets::{meets, size, within};

// Refusal 1.
pub fn sizes_wrong(s: Settings) -> bool
    ensures { result ≡ sizes_wrong s }
{
    let columns = s.columns;
    let rows = s.rows;
    let all = s.tile_count();
    (columns < 1) | ((8 < columns) | ((rows < 1) | ((8 < rows) | (all < 2))))
}

// Refusal 2. The hoppers are counted only where all of them are on the floor.
fn sets_wrong(s: Settings) -> bool
    requires { sizes_wrong s ≡ false }
    ensures { result ≡ sets_wrong s }
{
    let all = s.columns * s.rows;
    if !within(s.hoppers, all) {
        return true;
    }
    let n = size(s.hoppers);
    let own = meets(s.hoppers, s.sources);
    let on = within(s.sources, all);
    (n < 1) | ((4 < n) | (own | !on))
}

// The measures without the division.
fn rules_wrong(s: Settings) -> bool
    ensures { result ≡ rules_wrong s }
{
    let d = s.spacing();
    let width = s.width as u32;
    (s.width < 2) | ((60000 < s.width) | ((s.travel < 1) | ((s.length <= s.travel) | (width <= d))))
}

// Refusal 3. Where the rules hold, d is at least 1 and l is below U.
fn measures_wrong(s: Settings) -> bool
    ensures { result ≡ measures_wrong s }
{
    if rules_wrong(s) {
        return true;
    }
    let d = s.spacing();
    let span = (s.width as u32) - (s.length as u32);
    3 < span / d
}

// Refuses settings by 1 to 3.
pub fn test_settings(s: Settings) -> Result<(), Refusal>
    ensures { answered result ≡ settings_refusal s }
{
    if sizes_wrong(s) {
        return Err(Refusal::Grid);
    }
    if sets_wrong(s) {
        return Err(Refusal::Sets);
    }
    if measures_wrong(s) {
        return Err(Refusal::Measure);
    }
    Ok(())
}
