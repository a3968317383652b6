// Throughput joined to the floor, in specs/ and proofs/; no code.
#![tactic(auto)]
