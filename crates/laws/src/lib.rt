// General definitions, in specs/, and laws about them, in proofs/; no code.
#![tactic(auto)]
