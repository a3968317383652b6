// The trials: document 01's small floors, those of [6] and [9], and a full floor, through the compiled calls.
#![tactic(auto)]

mod full;
mod small;

use trials_tally::Tally;

fn main(rt: HostRuntime) {
    let mut tally = Tally::new(&rt);
    small::all(&mut tally);
    full::all(&mut tally);
    tally.end();
}
