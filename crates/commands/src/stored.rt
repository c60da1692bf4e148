// The records that a command is applied to.
ghost use Rattle.std.specs.Prelude.{◌*◌, ◌≤◌, length};

// The n records of a store.
#[derive(Clone, Copy)]
pub struct Stored<'a> {
    pub store: &'a [u8],
    pub n: usize,
    pub ghost within: { n * 24 ≤ length store.now },
}
