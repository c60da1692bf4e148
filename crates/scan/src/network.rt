// A network in a lent store.
ghost use Rattle.std.specs.Prelude.{◌≡◌, ◌+◌, ◌*◌, ◌<◌};
ghost use Rattle.format.specs.Search.{record_at};
ghost use Rattle.widths.specs.Widths.{plane_bytes};
ghost use Rattle.scan.specs.Stored.{Stored};

use crate::Layout;

// The n records of a store, whose fields are good and whose parts stand as the layout says.
#[derive(Clone, Copy)]
pub struct Network<'a> {
    pub store: &'a [u8],
    pub n: usize,
    pub layout: Layout,
    pub ghost stored: { Stored n layout store.now },
}

impl<'a> Network<'a> {
    // Record i.
    pub fn record(&self, i: usize) -> &'a [u8; 24]
        requires { i < self.now.n }
        ensures { result.now ≡ record_at self.now.store.now i }
    {
        records::record(self.store, i)
    }

    // The work that a verdict needs: a plane for each node of the longest policy, and two more.
    pub fn work_needed(&self) -> usize
        ensures { result ≡ (self.now.layout.longest + 2) * plane_bytes self.now.layout.widths }
    {
        self.layout.work_needed()
    }
}
