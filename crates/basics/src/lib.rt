// Bits of a number, lists and tests: specifications only.
#![tactic(auto)]
