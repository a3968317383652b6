// What the programs that try the calls share: one line for each trial, how many went as they should, and floors made
// through the calls.
#![tactic(auto)]

ghost use Rattle.std.specs.Prelude.{◌≡◌, ⊤, cond};
ghost use Rattle.trials_tally.specs.Counts.{one_more};

pub mod floors;

use std::alloc::AllocError;
use std::fmt::{Debug, Display};

// Where the trials are told, how many went as they should, and how many differed.
#[derive(Drop)]
pub struct Tally<'a, R> {
    rt: &'a R,
    pub good: u32,
    pub bad: u32,
}

// By hand: a derive would ask for a printer that can be copied.
impl<'a, R> Clone for Tally<'a, R> {
    ghost is_clone = { λ x y. y ≡ x };

    ghost is_infallible = { λ _. ⊤ };

    fn clone(&self) -> Result<Self, AllocError> {
        Ok(*self)
    }
}

impl<'a, R> Copy for Tally<'a, R> {}

impl<'a, R: Print> Tally<'a, R> {
    pub fn new(rt: &'a R) -> Self
        ensures good { result.good ≡ 0 }
        ensures bad { result.bad ≡ 0 }
    {
        Tally {
            rt,
            good: 0,
            bad: 0,
        }
    }

    // One line: the trial's name, and `wrong` where it didn't go as it should.
    pub fn tell<N: Display + Drop, W: Display + Drop>(&mut self, name: N, ok: bool, wrong: W)
        ensures good { self.new.good ≡ cond ok (one_more self.old.good) self.old.good }
        ensures bad { self.new.bad ≡ cond ok self.old.bad (one_more self.old.bad) }
    {
        let rt = self.rt;
        if ok {
            let _ = println!(rt; "{name}: ok");
            self.good = self.good.saturating_add(1);
        } else {
            let _ = println!(rt; "{name}: {wrong}");
            self.bad = self.bad.saturating_add(1);
        }
    }

    // A trial: its name, what it gave and what was due.
    pub fn trial<T: PartialEq + Debug + Drop>(&mut self, name: &str, gave: T, due: T)
        ensures good { self.new.good ≡ cond (T.eq gave due) (one_more self.old.good) self.old.good }
        ensures bad { self.new.bad ≡ cond (T.eq gave due) self.old.bad (one_more self.old.bad) }
    {
        self.tell(
            name,
            gave == due,
            format_args!("gave {gave:?}, due {due:?}"),
        );
    }

    // The last line.
    pub fn end(self) {
        let Tally { rt, good, bad } = self;
        let _ = println!(rt; "trials: {good} ok, {bad} differ");
    }
}
