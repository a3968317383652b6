// After how many rounds what can be delivered is delivered: the answer of the call bound. What it answers is defined in
// specs/; no code.
#![tactic(auto)]

// The rounds, at least one; K, the canisters on tiles with a live path; the canisters on all other tiles; the papers' refusal
// number, 0 where the call was accepted. Refused: zeros.
#[repr(C)]
#[derive(Clone, Copy)]
pub struct Bounded {
    pub rounds: u32,
    pub connected: u32,
    pub unconnected: u32,
    pub refusal: u8,
}
