// The groups of a network, and what their buckets make of headers, worked out once for each bucket and header.
ghost use Rattle.std.specs.Prelude.{◌≡◌, true, ◌<◌, get_or};
ghost use Rattle.format.specs.Record.{most_groups, records};
ghost use Rattle.widths.specs.Widths.{within_limits};
ghost use Rattle.onestep.specs.Groups.{bucket_header};
ghost use Rattle.groups.specs.BucketHeaders.{entry, BucketHeaders};

use patterns::put;
use records::groups::bucket_at;
use scan::network::Network;
use widths::Widths;

// The entries of the table: 64 headers for each of 3 buckets of each of 16 groups.
pub const BUCKET_HEADERS: usize = 3072;

// The groups of a network, with the lent table of what their buckets make of headers.
#[derive(Drop)]
pub struct Groups<'s, 't> {
    pub net: Network<'s>,
    pub headers: &'t [u8; BUCKET_HEADERS],
    pub ghost worked_out: { BucketHeaders (records net.n net.store.now) net.layout headers.now },
}

impl<'s, 't> Groups<'s, 't> {
    // Works the table out, in this one.
    pub fn of(net: &Network<'s>, headers: &'t mut [u8; BUCKET_HEADERS]) -> Self
        ensures { result.net ≡ net.now }
    {
        bucket_headers(net, headers);
        Groups { net: *net, headers }
    }

    // What SET by bucket j of group k of the network makes of header h.
    pub fn header_by(&self, k: usize, j: usize, h: u8) -> u8
        requires { (k < most_groups) × (j < 3) × (h < 64) }
        ensures { result ≡ get_or self.now.headers.now (entry k j h) 0 }
    {
        header_by(self.headers, k, j, h)
    }
}

// What SET by bucket j of group k makes of header h, from any table; the method lends it its own.
pub fn header_by(headers: &[u8; BUCKET_HEADERS], k: usize, j: usize, h: u8) -> u8
    requires { (k < most_groups) × (j < 3) × (h < 64) }
    ensures { result ≡ get_or headers.now (entry k j h) 0 }
{
    headers[(k * 3 + j) * 64 + usize::from(h)]
}

// What SET by bucket j of a group's record makes of header h.
#[tactic(auto, using(widths::specs::Laws::Limits::limits))]
fn header_set(w: Widths, r: &[u8; 24], j: usize, h: u8) -> u8
    requires { (j < 3) × (within_limits w ≡ true) }
    ensures { result ≡ bucket_header w r.now j h }
{
    let b = bucket_at(r, j);
    put(w.h, b.value, b.care, h)
}

// Works out what SET by each bucket of each group makes of each header: one loop over the entries, as `BucketHeaders` numbers
// them.
pub fn bucket_headers(net: &Network, headers: &mut [u8; BUCKET_HEADERS])
    ensures { BucketHeaders (records net.now.n net.now.store.now) net.now.layout headers.new }
{
    let l = net.layout;
    for x in 0..(net.n - l.groups) * 192 {
        let r = net.record(l.groups + x / 192);
        // A `usize` has no `From` into a `u8`; a remainder by 64 fits.
        headers[x] = header_set(l.widths, r, x / 64 % 3, (x % 64) as u8);
    }
}
