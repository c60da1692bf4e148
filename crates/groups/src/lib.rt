// What the groups of a switch send.
#![tactic(auto)]

ghost use Rattle.std.specs.Prelude.{◌≡◌, true, ◌<◌};
ghost use Rattle.format.specs.Record.{records};
ghost use Rattle.format.specs.Group.{is_group, target_kind};
ghost use Rattle.format.specs.Fields.{target_fields};
ghost use Rattle.groups.specs.ByPlace.{GroupFound};
ghost use Rattle.groups.specs.Marks.{mark};
ghost use Rattle.groups.specs.Relayed.{Ran, HeaderFits, target_sends, group_sends};

use format::Bucket;
use format::kinds::TargetKind;
use planes::{get_bit, set_bit};
use records::groups::bucket_at;
use relay::Relay;
use scan::network::Network;

pub mod buckets;
pub mod copies;
pub mod lent;
pub mod relay;

pub use lent::run_group;

// The record of a group is that of number g of a switch.
fn is_group(r: &[u8; 24], sw: u8, g: u8) -> bool
    ensures { result ≡ is_group sw g r.now }
{
    r[1] == sw && r[2] == g
}

// The place of the record of group g of a switch: from the first on, since at most 16 are so soon gone over that halving is no
// quicker.
fn find_group(net: &Network, sw: u8, g: u8) -> Option<usize>
    ensures { GroupFound (records net.now.n net.now.store.now) net.now.layout sw g result }
{
    for i in net.layout.groups..net.n {
        if is_group(net.record(i), sw, g) {
            return Some(i);
        }
    }
    None
}

// The number of the mark of group g and header h.
fn mark_of(g: u8, h: u8) -> usize
    ensures { result ≡ mark g h }
{
    usize::from(g) * 64 + usize::from(h)
}

impl Relay<'_, '_, '_> {
    // Runs a bucket of group g, which set this header, by its target: matched once, each with other arguments, so that a closure
    // for each would be no plainer.
    #[cycle(run_bucket_run_group)]
    fn run_bucket(&mut self, g: u8, b: Bucket, header: u8)
        requires header_fits { HeaderFits self.old header }
        requires g_bound { (g < 16) × (target_fields (target_kind b.kind) self.old.groups.now.net.layout.widths g b.target ≡ true) }
        ensures { Ran (target_sends self.old g b header) self.old self.new }
    {
        match TargetKind::from(b.kind) {
            TargetKind::Port => self.send_on(header, b.target),
            TargetKind::LowerGroup => self.run_group(b.target, header),
            TargetKind::Unknown => {}
        }
    }

    // Runs group g of the switch for the frame, which enters it with this header, unless that is marked; marks it when all its
    // buckets have run.
    #[cycle(run_bucket_run_group)]
    pub fn run_group(&mut self, g: u8, header: u8)
        requires { HeaderFits self.old header × (g < 16) }
        ensures { Ran (group_sends self.old g header) self.old self.new }
    {
        let m = mark_of(g, header);
        if get_bit(&self.marks, m) {
            return;
        }
        let groups = self.groups;
        let Some(i) = find_group(&groups.net, self.frame.switch, g) else {
            return;
        };
        let r = groups.net.record(i);
        let k = i - groups.net.layout.groups;
        for j in 0..usize::from(r[8]) {
            let b = bucket_at(r, j);
            self.run_bucket(g, b, groups.header_by(k, j, header));
        }
        set_bit(&mut self.marks, m);
    }
}
