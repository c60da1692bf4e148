// The wire version, byte 4 of the widths record.
ghost use Rattle.std.specs.Prelude.{◌≡◌, ℕ, ◌≤◌, ◌<◌, length};
ghost use Rattle.format.specs.Record.{records};
ghost use Rattle.format.specs.Version.{version_good, version_of};

use format::Version;

// The byte names a version.
#[tactic(auto, unfolding(format::specs::Version::version_good))]
pub fn version_good(b: u8) -> bool
    ensures { result ≡ version_good b }
{
    matches!(b, 0 | 1 | 4)
}

// The version that the first record of a store gives: 0 reads as 4, and so does any byte but 1, by which alone it goes. The arms
// are numbers, since a byte is read.
#[tactic(auto, using(format::specs::Laws::Records::byte_of_lem), unfolding(format::specs::Version::version_of, format::specs::Version::version_named))]
pub fn version_of(store: &[u8]) -> Version
    requires { 24 ≤ length store.now }
    ensures { (n : ℕ) → 0 < n → result ≡ version_of (records n store.now) }
{
    match store[4] {
        1 => Version::OpenFlow10,
        0 | 2..=255 => Version::OpenFlow13,
    }
}
