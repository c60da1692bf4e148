// Copies that depart from a switch.
ghost use Rattle.std.specs.Prelude.{[], ◌∷◌, ◌^◌, ◌<◌};
ghost use Rattle.onestep.specs.Departing.{except, departing};
ghost use Rattle.planes.specs.Adds.{Added};
ghost use Rattle.widths.specs.Widths.{line_bytes};
ghost use Rattle.groups.specs.Sent.{Sends};
ghost use Rattle.groups.specs.Relayed.{Ran, HeaderFits, PortFits, departs};

use crate::relay::Relay;
use states::Frame;
use widths::Widths;

// Sends a copy to port q. This and send_on take a line of any buffer, with all parts apart; the methods of Relay lend them its
// own.
pub fn send(work: &mut [u8], line: usize, w: Widths, sw: u8, h: u8, q: u8)
    requires { Sends w line sw h work.old × (q < 2 ^ w.p) }
    ensures { Added (departing w sw h (q ∷ [])) line (line_bytes w) work.old work.new }
{
    let copy = Frame {
        switch: sw,
        port: q,
        header: h,
    };
    planes::set_at(work, line, copy.number(w, 1));
}

// Sends a copy to port q, unless it is the arrival port p.
pub fn send_on(work: &mut [u8], line: usize, w: Widths, sw: u8, p: u8, h: u8, q: u8)
    requires { Sends w line sw h work.old × (q < 2 ^ w.p) }
    ensures { Added (departing w sw h (except p (q ∷ []))) line (line_bytes w) work.old work.new }
{
    if q != p {
        send(work, line, w, sw, h, q);
    }
}

impl Relay<'_, '_, '_> {
    // Sends a copy with this header to port q.
    pub fn send(&mut self, header: u8, q: u8)
        requires { HeaderFits self.old header × PortFits self.old q }
        ensures { Ran (departs self.old header (q ∷ [])) self.old self.new }
    {
        let w = self.groups.net.layout.widths;
        send(&mut self.line, 0, w, self.frame.switch, header, q);
    }

    // Sends a copy with this header to port q, unless the frame arrived there.
    pub fn send_on(&mut self, header: u8, q: u8)
        requires { HeaderFits self.old header × PortFits self.old q }
        ensures { Ran (departs self.old header (except self.old.frame.port (q ∷ []))) self.old self.new }
    {
        let w = self.groups.net.layout.widths;
        let Frame { switch, port, .. } = self.frame;
        send_on(&mut self.line, 0, w, switch, port, header, q);
    }
}
