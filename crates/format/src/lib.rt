// The records of 24 bytes: specifications only, with the types that these use.
#![tactic(auto)]

pub mod kinds;

// The wire version of a network's switches.
#[derive(Clone, Copy)]
pub enum Version {
    OpenFlow10,
    OpenFlow13,
}

// A bit of a pattern.
#[derive(Clone, Copy)]
pub enum Ternary {
    Fixed0,
    Fixed1,
    Star,
}

// A bucket: the header pattern that it sets, and where it sends the frame, to a port (kind 1) or to a lower group (kind 2).
#[derive(Clone, Copy)]
pub struct Bucket {
    pub value: u8,
    pub care: u8,
    // The byte of the record, as `IsBucket` says; `TargetKind` reads it.
    pub kind: u8,
    pub target: u8,
}
