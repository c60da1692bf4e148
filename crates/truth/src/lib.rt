// The truth of a formula: specifications only.
#![tactic(auto)]
