// What the groups of a switch send into a line of any buffer, with marks of any length, whatever the arrival port.
ghost use Rattle.std.specs.Prelude.{◌≡◌, true, ◌<◌};
ghost use Rattle.format.specs.Record.{records};
ghost use Rattle.format.specs.Group.{target_kind};
ghost use Rattle.format.specs.Fields.{target_fields};
ghost use Rattle.onestep.specs.Groups.{group_sent};
ghost use Rattle.groups.specs.Sent.{Ready, GroupsRan, target_sends};

use crate::buckets::Groups;
use crate::copies::send_on;
use crate::{find_group, mark_of};
use format::Bucket;
use format::kinds::TargetKind;
use planes::{get_bit, set_bit};
use records::groups::bucket_at;
use states::Frame;

// Runs a bucket of group g, which set this header, by its target.
#[cycle(run_bucket_run_group)]
fn run_bucket(
    work: &mut [u8],
    line: usize,
    groups: &Groups,
    frame: Frame,
    g: u8,
    b: Bucket,
    header: u8,
    marks: &mut [u8],
)
    requires ready { Ready (records groups.now.net.n groups.now.net.store.now) groups.now.net.layout.widths line frame.switch frame.port header work.old marks.old }
    requires g_bound { (g < 16) × (target_fields (target_kind b.kind) groups.now.net.layout.widths g b.target ≡ true) }
    ensures { GroupsRan (records groups.now.net.n groups.now.net.store.now) groups.now.net.layout.widths line frame.switch frame.port (target_sends (records groups.now.net.n groups.now.net.store.now) groups.now.net.layout.widths frame.switch frame.port g b.kind b.target header) work.old marks.old work.new marks.new }
{
    let w = groups.net.layout.widths;
    let Frame { switch, port, .. } = frame;
    match TargetKind::from(b.kind) {
        TargetKind::Port => send_on(work, line, w, switch, port, header, b.target),
        TargetKind::LowerGroup => run_group(work, line, groups, frame, b.target, header, marks),
        TargetKind::Unknown => {}
    }
}

// Runs group g of a switch for a frame that arrived there and enters the group with header h, unless that is marked; marks it when
// all its buckets have run. The line, the marks and the arrival port may be any; the method of Relay, with a line and marks of its
// own, is what the calls run.
#[cycle(run_bucket_run_group)]
pub fn run_group(
    work: &mut [u8],
    line: usize,
    groups: &Groups,
    frame: Frame,
    g: u8,
    h: u8,
    marks: &mut [u8],
)
    requires ready { Ready (records groups.now.net.n groups.now.net.store.now) groups.now.net.layout.widths line frame.switch frame.port h work.old marks.old }
    requires g_bound { g < 16 }
    ensures { GroupsRan (records groups.now.net.n groups.now.net.store.now) groups.now.net.layout.widths line frame.switch frame.port (group_sent (records groups.now.net.n groups.now.net.store.now) groups.now.net.layout.widths frame.switch frame.port g h) work.old marks.old work.new marks.new }
{
    let m = mark_of(g, h);
    if get_bit(marks, m) {
        return;
    }
    let Some(i) = find_group(&groups.net, frame.switch, g) else {
        return;
    };
    let r = groups.net.record(i);
    let k = i - groups.net.layout.groups;
    for j in 0..usize::from(r[8]) {
        let b = bucket_at(r, j);
        let header = groups.header_by(k, j, h);
        run_bucket(work, line, groups, frame, g, b, header, marks);
    }
    set_bit(marks, m);
}
