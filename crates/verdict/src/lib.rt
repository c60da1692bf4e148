// The verdict on a network.
#![tactic(auto)]

pub mod judge;
