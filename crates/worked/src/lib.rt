// No code: what is printed of some inputs, and packed of some texts, which the checker computes.
#![tactic(auto)]
