// The tests of a policy's node, in the work buffer.
#![tactic(auto)]

pub mod node;
