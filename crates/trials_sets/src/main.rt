// Trials with sets of tiles: floors with several hoppers, and named layouts, through the compiled calls.
#![tactic(auto)]

mod hoppers;
mod layouts;

use trials_tally::Tally;

fn main(rt: HostRuntime) {
    let mut tally = Tally::new(&rt);
    hoppers::all(&mut tally);
    layouts::all(&mut tally);
    tally.end();
}
