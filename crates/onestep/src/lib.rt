// One step of a packet state: specifications only.
#![tactic(auto)]
