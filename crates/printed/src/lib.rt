// No code: what a run prints is stated in proofs/Promise.antt, and that contracts leave nothing open in specs/Determined.antt.
#![tactic(auto)]
