// When a network holds: specifications only, with the type of what breaks it.
#![tactic(auto)]

// A broken policy, and a state that breaks it.
#[derive(Clone, Copy)]
pub struct Violation {
    pub policy: usize,
    pub state: usize,
}
