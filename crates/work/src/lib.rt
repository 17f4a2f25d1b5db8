// No code: request 7's promise, that an answer 3 says what its step did and where, is defined in specs/, stated and proved in proofs/.
#![tactic(auto)]
