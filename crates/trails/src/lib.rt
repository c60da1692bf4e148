// Routes: specifications only.
#![tactic(auto)]
