// Specifications only: what is so after a whole series of calls.
#![tactic(auto)]
