// Groups: which are there, whether those that a record names are, and their order.
ghost use Rattle.std.specs.Prelude.{◌≡◌, [], ◌∷◌, ◌++◌, ◌*◌, ◌≤◌, ◌<◌, length};
ghost use Rattle.format.specs.Record.{Net, kind, records};
ghost use Rattle.format.specs.Group.{runs_there, actions_there, goes_there, buckets_there};
ghost use Rattle.refusals.specs.Rows.{out_of_order};
ghost use Rattle.rows.specs.Groups.{There, Noted, GroupsOf};
ghost use Rattle.format.specs.Laws.NamedGroups.{ActionsNamed, BucketsNamed};

use crate::table;
use format::kinds::{ActionKind, RecordKind, TargetKind};
use records::groups::bucket_at;
use records::record;

// Notes in a table the group that a record is, if it is one that a sound record can name.
#[tactic(auto, using(crate::proofs::Named::names_group, crate::proofs::Named::names_no_group, crate::specs::Laws::Groups::noted_other, crate::specs::Laws::Groups::noted_switch, crate::specs::Laws::Groups::noted_number, crate::specs::Laws::Groups::noted_group))]
fn note(there: &mut [u8; 32], r: &[u8; 24])
    ensures { Noted r.now there.old there.new }
{
    if let RecordKind::Group = RecordKind::from(r[0]) {
        if r[1] < 16 && r[2] < 16 {
            table::set(there, r[1], r[2]);
        }
    }
}

// The groups of the first n records, wherever they stand, sound or not.
#[tactic(auto, using(crate::specs::Laws::Groups::there_none, crate::specs::Laws::Groups::there_more))]
pub fn groups_there(store: &[u8], n: usize) -> [u8; 32]
    requires { n * 24 ≤ length store.now }
    ensures { There (records n store.now) result }
{
    let mut there = [0u8; 32];
    for i in 0..n {
        note(&mut there, record(store, i));
    }
    there
}

// Action i of a record runs no group, or one that is there.
#[tactic(auto, using(crate::proofs::Named::runs_a_group, crate::proofs::Named::runs_none), unfolding(format::specs::Group::runs_there))]
fn runs_there(there: &[u8; 32], r: &[u8; 24], i: usize) -> bool
    requires { (i < 4) × ActionsNamed r.now }
    ensures { (net : Net) → There net there.now → result ≡ runs_there net r.now i }
{
    let at = 9 + 3 * i;
    match ActionKind::from(r[at]) {
        ActionKind::RunGroup => table::has(there, r[1], r[at + 1]),
        ActionKind::Output | ActionKind::Set | ActionKind::InPort | ActionKind::Unknown => true,
    }
}

// The groups that a record's actions run are there.
pub fn actions_there(there: &[u8; 32], r: &[u8; 24]) -> bool
    requires { ActionsNamed r.now }
    ensures { (net : Net) → There net there.now → result ≡ actions_there net r.now }
{
    (0..4).all(|i| runs_there(there, r, i))
}

// Bucket j of a group goes on to no group, or to one that is there.
#[tactic(auto, using(crate::proofs::Named::goes_to_group, crate::proofs::Named::goes_to_none), unfolding(format::specs::Group::goes_there))]
fn goes_there(there: &[u8; 32], r: &[u8; 24], j: usize) -> bool
    requires { (j < 3) × BucketsNamed r.now }
    ensures { (net : Net) → There net there.now → result ≡ goes_there net r.now j }
{
    let b = bucket_at(r, j);
    match TargetKind::from(b.kind) {
        TargetKind::LowerGroup => table::has(there, r[1], b.target),
        TargetKind::Port | TargetKind::Unknown => true,
    }
}

// The groups to which a group's buckets go on are there. Apart from actions_there, as buckets_good is from actions_good in
// records.
pub fn buckets_there(there: &[u8; 32], r: &[u8; 24]) -> bool
    requires { BucketsNamed r.now }
    ensures { (net : Net) → There net there.now → result ≡ buckets_there net r.now }
{
    (0..3).all(|j| goes_there(there, r, j))
}

// What is known of the groups of the records before: how many there are, and the switch and number of the last, as wide as the
// count so that the bytes stand with no gap between and are copied as words. An Option beside the count would say twice that
// there is none.
#[derive(Clone, Copy)]
pub struct Groups {
    pub count: usize,
    pub switch: usize,
    pub number: usize,
}

impl Groups {
    // There is a group before, and the last does not stand before r.
    pub fn out_of_order(self, r: &[u8; 24]) -> bool
        ensures { (before : Net) → GroupsOf before self → result ≡ out_of_order before r.now }
    {
        let place = (usize::from(r[1]), usize::from(r[2]));
        self.count != 0 && place <= (self.switch, self.number)
    }

    // With the group r.
    pub fn with_group(self, r: &[u8; 24]) -> Groups
        requires { (kind r.now ≡ 9) × (self.count < 16) }
        ensures { (before : Net) → GroupsOf before self → GroupsOf (before ++ (r.now ∷ [])) result }
    {
        Groups {
            count: self.count + 1,
            switch: usize::from(r[1]),
            number: usize::from(r[2]),
        }
    }
}
