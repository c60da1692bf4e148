// Walks over a relation: specifications only.
#![tactic(auto)]
