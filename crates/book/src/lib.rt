// The check call and the command call: specifications only, with the type of the command call's answers.
#![tactic(auto)]

use judgement::Violation;

// What the command call answers to a command that no row refuses. No Result: that a command is blocked is an answer, and of the
// call's Result only a refusal is the error.
#[derive(Clone, Copy)]
pub enum Commanded {
    Forwarded { count: usize },
    Blocked(Violation),
}
