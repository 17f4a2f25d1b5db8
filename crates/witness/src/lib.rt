// No code: runs that the checker computes, which show that demand 3 can fail and that its bound is reached.
#![tactic(auto)]
