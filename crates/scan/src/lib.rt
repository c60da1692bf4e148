// Reading a network: rows 1 to 11 and 16, or where its parts stand.
#![tactic(auto)]

pub mod network;

ghost use Rattle.std.specs.Prelude.{◌≡◌, true, [], ◌+◌, ◌*◌, ◌≤◌, length};
ghost use Rattle.format.specs.Record.{Net, most_nodes, records};
ghost use Rattle.widths.specs.Widths.{within_limits, plane_bytes};
ghost use Rattle.refusals.specs.Refusal.{file_row, check_refusal};
ghost use Rattle.recordrow.specs.Scan.{SeenOf};
ghost use Rattle.scan.specs.Layout.{Bounded, Ended};
ghost use Rattle.scan.specs.Reading.{Read};

use crate::network::Network;
use noderows::Policies;
use noderows::at::At;
use recordrow::turn::Turn;
use recordrow::{Notes, Seen, turn_at};
use refusals::{Refused, Row};
use rows::groups::{Groups, groups_there};
use widths::Widths;

// Where the parts of a network stand, the widths record being number 0 and the links beginning at 1: where the misses, the
// rules, the nodes and the groups begin; how many policies there are, and the nodes of the longest.
#[derive(Clone, Copy)]
pub struct Layout {
    pub widths: Widths,
    pub misses: usize,
    pub rules: usize,
    pub nodes: usize,
    pub groups: usize,
    pub policies: usize,
    pub longest: usize,
}

impl Layout {
    // The work that a verdict needs: a plane for each node of the longest policy, and two more.
    pub fn work_needed(self) -> usize
        requires { (within_limits self.widths ≡ true) × (self.longest ≤ most_nodes) }
        ensures { result ≡ (self.longest + 2) * plane_bytes self.widths }
    {
        (self.longest + 2) * self.widths.plane_bytes()
    }
}

// What is known before the first record. In full and no Default: widths of zero bits are none, and a type that has a default
// would offer them.
fn start() -> Seen
    ensures { SeenOf [] result }
{
    Seen {
        last: 0,
        widths: Widths { h: 0, p: 0, w: 0 },
        links: 0,
        misses: 0,
        rules: 0,
        policies: Policies {
            count: 0,
            nodes: 0,
            free: 0,
            longest: 0,
        },
        groups: Groups {
            count: 0,
            switch: 0,
            number: 0,
        },
    }
}

// The end of n records: misses incomplete, or where the parts stand.
fn end(s: Seen, n: usize) -> Result<Layout, Refused>
    requires { Bounded s n }
    ensures { (net : Net) → SeenOf net s → length net ≡ n → Ended net result }
{
    if s.incomplete() {
        return Err(Refused {
            row: Row::Miss,
            place: n,
        });
    }
    let misses = 1 + s.links;
    let rules = misses + s.misses;
    Ok(Layout {
        widths: s.widths,
        misses,
        rules,
        nodes: rules + s.rules,
        groups: n - s.groups.count,
        policies: s.policies.count,
        longest: s.policies.longest,
    })
}

// The first n records: rows 3 to 10 and 16. C lends a store and a count; they are a Network when this has passed.
pub fn scan<'a>(store: &'a [u8], n: usize) -> Result<Network<'a>, Refused>
    requires { n * 24 ≤ length store.now }
    ensures { Read store.now n (file_row [] (records n store.now)) result }
{
    let there = groups_there(store, n);
    let mut notes = Notes::new();
    let mut seen = start();
    for i in 0..n {
        let at = At { store, n, i };
        let turn = Turn {
            at,
            there: &there,
            seen,
        };
        // A match: where the refusal is stands beside its row, and not in a closure of `map_err`.
        match turn_at(&turn, &mut notes) {
            Ok(next) => seen = next,
            Err(row) => return Err(Refused { row, place: i }),
        }
    }
    let layout = end(seen, n)?;
    Ok(Network { store, n, layout })
}

// The network of n records in a store, with so much work: rows 1 to 11 and 16.
pub fn check_rows<'a>(store: &'a [u8], n: usize, work: usize) -> Result<Network<'a>, Refused>
    ensures { Read store.now n (check_refusal store.now n work) result }
{
    if n == 0 || records::MOST_RECORDS < n {
        return Err(Refused {
            row: Row::Count,
            place: 0,
        });
    }
    if store.len() < records::STORE_BYTES {
        return Err(Refused {
            row: Row::Store,
            place: 0,
        });
    }
    let net = scan(store, n)?;
    if work < net.work_needed() {
        return Err(Refused {
            row: Row::Work,
            place: 0,
        });
    }
    Ok(net)
}
