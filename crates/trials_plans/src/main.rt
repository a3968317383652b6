// Trials of plans, through the compiled calls: a plan run to its end, and what each call refuses, with everything else
// unchanged.
#![tactic(auto)]

mod plans;
mod run;

use trials_tally::Tally;

fn main(rt: HostRuntime) {
    let mut tally = Tally::new(&rt);
    run::all(&mut tally);
    plans::all(&mut tally);
    tally.end();
}
