// A record among those of a store.
ghost use Rattle.std.specs.Prelude.{◌≡◌, ◌*◌, ◌^◌, ◌≤◌, ◌<◌, length};
ghost use Rattle.format.specs.Search.{record_at, records_after};
ghost use Rattle.refusals.specs.Rows.{ends_policy};

// Number i of the n records of a store.
#[derive(Clone, Copy)]
pub struct At<'a> {
    pub store: &'a [u8],
    pub n: usize,
    pub i: usize,
    pub ghost room: { n * 24 ≤ length store.now },
    pub ghost within: { i < n },
}

impl<'a> At<'a> {
    // The record.
    pub fn record(&self) -> &'a [u8; 24]
        ensures is { result.now ≡ record_at self.now.store.now self.now.i }
        ensures fits { self.now.n * 24 < 2 ^ 64 }
    {
        records::record(self.store, self.i)
    }

    // The next record is no node of the same policy: by bytes, kind 5 and the policy's number, as the definition compares them.
    pub fn ends_policy(&self) -> bool
        ensures { result ≡ ends_policy (record_at self.now.store.now self.now.i) (records_after self.now.n self.now.store.now self.now.i) }
    {
        let at = self.i * 24;
        let next = at + 24;
        self.i + 1 == self.n || self.store[next] != 5 || self.store[next + 1] != self.store[at + 1]
    }
}
