// Cases beyond the paper's trials, in proofs/; no code.
#![tactic(auto)]
