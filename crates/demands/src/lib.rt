// The three demands, as theorems about what the public calls promise: see specs/Demands.antt and proofs/. No code.
#![tactic(auto)]
