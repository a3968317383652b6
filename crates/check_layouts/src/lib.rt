// Whether the layouts that stand in memory are as they must be, on any bytes.
#![tactic(auto)]

ghost use Rattle.std.specs.Prelude.{◌≡◌, true};
ghost use Rattle.laws.specs.Define.{all_below};
ghost use Rattle.floor.specs.Settings.{settings_pass};
ghost use Rattle.floor.specs.Layouts.{name_ok, layout_ok};
ghost use Rattle.floor.specs.Well.{place_ok, place_test};

use floor::{Layout, Settings};
use sets::{meets, minus, within};

// Whether a number is a name: its eight bytes, from the last to the first, whether they are letters and then zeros, and
// whether all are zeros.
pub fn name_ok(n: u64) -> bool
    ensures { result ≡ name_ok n }
{
    let mut spelled = true;
    let mut zeros = true;
    for x in &n.to_le_bytes() {
        spelled = (x.is_ascii_uppercase() & spelled) | ((*x == 0) & zeros);
        zeros &= *x == 0;
    }
    (0 < n) & spelled
}

// A layout: its name, no bit for no tile, no hopper stopped.
fn layout_ok(s: Settings, x: Layout) -> bool
    requires { settings_pass s ≡ true }
    ensures { result ≡ layout_ok s x }
{
    let all = s.columns * s.rows;
    let on = within(x.set, all);
    let stopped = minus(s.hoppers, x.set);
    name_ok(x.name) & (on & !meets(s.hoppers, stopped))
}

// One of the places; `above` is the name in the place after it.
fn place_ok(s: Settings, x: Layout, above: u64) -> bool
    requires { settings_pass s ≡ true }
    ensures { result ≡ place_ok s x above }
{
    if x.name == 0 {
        (x.set == 0) & (above == 0)
    } else {
        layout_ok(s, x) & ((above == 0) | (x.name < above))
    }
}

// The eight places, from the last to the first: each with the name that stands after it.
pub fn layouts_ok(s: Settings, layouts: [Layout; 8]) -> bool
    requires { settings_pass s ≡ true }
    ensures { result ≡ all_below (place_test s layouts) 8 }
{
    let mut above = 0;
    for x in layouts.iter().rev() {
        if !place_ok(s, *x, above) {
            return false;
        }
        above = x.name;
    }
    true
}
