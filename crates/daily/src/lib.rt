// No code: request 2's promise, that nothing waits all day beside a slot in daily use, is defined in specs/, stated and proved in proofs/.
#![tactic(auto)]
