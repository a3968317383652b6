// The answer of writing an image or a page: the refusal number, 0 where the call was accepted, and the length, 0 where
// refused.
#![tactic(auto)]

ghost use Rattle.std.specs.Prelude.{◌≡◌};
ghost use Rattle.floor.specs.Numbers.{refusal_number};

use floor::Refusal;

#[repr(C)]
#[derive(Clone, Copy, PartialEq, Eq)]
pub struct Written {
    pub refusal: u8,
    pub length: u32,
}

impl Written {
    // The answer of a refused call.
    pub fn refused(why: Refusal) -> Written
        ensures { result ≡ record { refusal = refusal_number why; length = 0 } }
    {
        Written {
            refusal: u8::from(why),
            length: 0,
        }
    }
}
