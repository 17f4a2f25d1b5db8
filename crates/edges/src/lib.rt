// No code: document 01's edges and the machines it rules out, as tables in specs/, which proofs/ computes.
#![tactic(auto)]
