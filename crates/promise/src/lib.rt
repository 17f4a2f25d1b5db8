// No code: demand 3 is stated in specs/Promise.antt, and proved in proofs/Promise.antt.
#![tactic(auto)]
