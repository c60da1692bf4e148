// A frame that arrived, and what is sent of it.
ghost use Rattle.std.specs.Prelude.{◌≡◌, length, replicate};
ghost use Rattle.widths.specs.Widths.{line_bytes};
ghost use Rattle.states.specs.Frames.{FitsIn};
ghost use Rattle.groups.specs.Marks.{Done};
ghost use Rattle.groups.specs.Sent.{sends_at};

use crate::buckets::Groups;
use states::Frame;

// A frame as it arrived at a port of a switch, the line of the copies that were sent of it, and the marks of the groups that have
// run for it, by 64 headers for each of 16 groups: those that are marked have their copies in the line. That a header or a port
// fits stays a clause of what is run: a type for it would be opened at each call.
#[derive(Drop)]
pub struct Relay<'g, 's, 't> {
    pub groups: &'g Groups<'s, 't>,
    pub frame: Frame,
    pub line: [u8; 128],
    pub marks: [u8; 128],
    pub ghost line_len: { length line ≡ 128 },
    pub ghost marks_len: { length marks ≡ 128 },
    pub ghost fits: { FitsIn groups.now.net.layout.widths frame },
    pub ghost done: { Done (sends_at groups.now.net frame) (line_bytes groups.now.net.layout.widths) line marks },
}

impl<'g, 's, 't> Relay<'g, 's, 't> {
    // Nothing is sent yet.
    pub fn of(groups: &'g Groups<'s, 't>, frame: Frame) -> Self
        requires { FitsIn groups.now.net.layout.widths frame }
        ensures { (result.groups.now ≡ groups.now) × (result.frame ≡ frame) × (result.line ≡ replicate 128 0) }
    {
        Relay {
            groups,
            frame,
            line: [0; 128],
            marks: [0; 128],
        }
    }
}
