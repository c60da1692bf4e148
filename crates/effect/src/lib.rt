// What a command changes: specifications only.
#![tactic(auto)]
