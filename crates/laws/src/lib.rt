// No code: what holds of every call of the machine's definitions is stated and proved in specs/ and proofs/.
#![tactic(auto)]
