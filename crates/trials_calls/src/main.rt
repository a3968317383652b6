// Trials of document 02's further calls: bookings without a place, lists of bookings, throughput and pages, through the
// compiled calls.
#![tactic(auto)]

mod anywhere;
mod lists;
mod pages;
mod windows;

use trials_tally::Tally;

fn main(rt: HostRuntime) {
    let mut tally = Tally::new(&rt);
    anywhere::all(&mut tally);
    lists::all(&mut tally);
    windows::all(&mut tally);
    pages::all(&mut tally);
    tally.end();
}
