// Plans joined to the floor, in specs/ and proofs/: what is stated and proved of plans and of lists of calls; no code.
#![tactic(auto)]
