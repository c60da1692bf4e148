// The 24-byte records of a network: their fields, and the largest network.
#![tactic(auto)]

ghost use Rattle.std.specs.Prelude.{◌≡◌, ◌+◌, ◌*◌, ◌≤◌, length, take, drop};
ghost use Rattle.format.specs.Search.{record_at};

pub mod fields;
pub mod groups;
pub mod wire;

// The records of the largest network.
pub const MOST_RECORDS: usize = 657;

// The bytes of the largest network, which every store has.
pub const STORE_BYTES: usize = 15768;

// The rules that a network has at most.
pub const MOST_RULES: usize = 256;

// The policies that a network has at most.
pub const MOST_POLICIES: u8 = 8;

// The nodes that a policy has at most.
pub const MOST_NODES: usize = 32;

// The groups that a network has at most.
pub const MOST_GROUPS: usize = 16;

// The N bytes from number `at` on. They are N, so that the Err is not reached.
fn part<const N: usize>(bytes: &[u8], at: usize) -> &[u8; N]
    requires { at + N ≤ length bytes.now }
    ensures { result.now ≡ take N (drop at bytes.now) }
{
    match <&[u8; N]>::try_from(&bytes[at..at + N]) {
        Ok(part) => part,
        Err(_) => unreachable!(),
    }
}

// Record i of a store.
pub fn record(store: &[u8], i: usize) -> &[u8; 24]
    requires { i * 24 + 24 ≤ length store.now }
    ensures { result.now ≡ record_at store.now i }
{
    part(store, i * 24)
}
