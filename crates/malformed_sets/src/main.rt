// Floors with several hoppers, and with layouts, that aren't well formed: 30 from every call, and nothing else changed.
#![tactic(auto)]

mod hoppers;
mod layouts;

use trials_tally::Tally;

fn main(rt: HostRuntime) {
    let mut tally = Tally::new(&rt);
    let f = hoppers::sound_floor();
    hoppers::all(&mut tally, &f);
    layouts::all(&mut tally, &layouts::sound_floor(f));
    tally.end();
}
