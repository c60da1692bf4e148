// One step of a packet state.
#![tactic(auto)]

ghost use Rattle.std.specs.Prelude.{◌≡◌, true, ◌+◌, ◌<◌, ◌≤◌, length};
ghost use Rattle.planes.specs.Plane.{plane_size};
ghost use Rattle.planes.specs.Lines.{Made};
ghost use Rattle.basics.specs.Lists.{member};
ghost use Rattle.format.specs.Record.{Net, records, widths_of};
ghost use Rattle.widths.specs.Widths.{states, within_limits, line_bytes};
ghost use Rattle.onestep.specs.Step.{external};
ghost use Rattle.onestep.specs.Relayed.{relays};
ghost use Rattle.choice.specs.Leads.{Leads};
ghost use Rattle.groups.specs.Relayed.{Ran};
ghost use Rattle.links.specs.Carried.{LinkedPoints};
ghost use Rattle.steps.specs.Arrivals.{arrives, acting_send, frame_sends};
ghost use Rattle.steps.specs.Filled.{LineOf, Filled};

use actions::run_record;
use choice::RuleSet;
use choice::leads::{Lead, MOST_ARRIVING};
use choice::rules::Rules;
use groups::buckets::{BUCKET_HEADERS, Groups};
use groups::relay::Relay;
use links::{Point, Points};
use planes::{clear, put_line};
use records::MOST_RULES;
use records::fields::is_ordinary;
use scan::network::Network;
use states::{Frame, direction};
use tables::Tables;
use widths::Widths;

pub mod tables;

// Runs the rules that act on a frame that arrived, by who leads it. They share the marks of the groups, so that what a group
// sends of the frame is worked out once for all of them.
fn run_leaders(rules: &Rules, lead: Lead, relay: &mut Relay)
    requires same { relay.old.groups.now.net ≡ rules.now.net }
    requires leads { Leads (records rules.now.net.n rules.now.net.store.now) rules.now.net.layout.widths (arrives relay.old.frame) lead × (lead.rank ≡ 0 → ⊥) }
    ensures { Ran (acting_send rules.now.net relay.old.frame) relay.old relay.new }
{
    let l = rules.net.layout;
    let frame = relay.frame;
    for j in usize::from(lead.first)..usize::from(lead.last) + 1 {
        let r = rules.rank(j, frame);
        if r == lead.rank {
            run_record(relay, l.rules + j);
        }
    }
}

// Runs the records that act on a frame that arrived: none at port 0, else the miss of its switch or the rules that lead.
fn run_acting(rules: &Rules, relay: &mut Relay)
    requires { relay.old.groups.now.net ≡ rules.now.net }
    ensures { Ran (frame_sends rules.now.net relay.old.frame) relay.old relay.new }
{
    if relay.frame.port == 0 {
        return;
    }
    let lead = rules.lead(relay.frame);
    if lead.rank == 0 {
        let l = rules.net.layout;
        run_record(relay, l.misses + usize::from(relay.frame.switch));
    } else {
        run_leaders(rules, lead, relay);
    }
}

impl Tables<'_, '_> {
    // Makes the line at a byte of a plane that of the states that s steps to, if it arrives.
    #[tactic(auto, using(widths::specs::Laws::Limits::limits))]
    fn fill_line(&self, work: &mut [u8], at: usize, s: usize)
        requires { at + line_bytes self.now.rules.net.layout.widths ≤ length work.old }
        ensures { LineOf (relays (records self.now.rules.net.n self.now.rules.net.store.now) self.now.rules.net.layout.widths s) at (line_bytes self.now.rules.net.layout.widths) work.old work.new }
    {
        let w = self.rules.net.layout.widths;
        let bytes = w.states() / 8;
        if direction(w, s) != 0 {
            clear(work, at, bytes);
            return;
        }
        let mut relay = Relay::of(&self.groups, Frame::of_state(w, s));
        run_acting(&self.rules, &mut relay);
        put_line(work, at, &relay.line, bytes);
    }

    // Fills the plane at byte base with the steps of arriving states.
    #[tactic(auto, using(widths::specs::Laws::Limits::limits))]
    fn fill_arriving(&self, work: &mut [u8], base: usize)
        requires { base + plane_size (line_bytes self.now.rules.net.layout.widths) ≤ length work.old }
        ensures { Made (λ s t. member t (relays (records self.now.rules.net.n self.now.rules.net.store.now) self.now.rules.net.layout.widths s)) (line_bytes self.now.rules.net.layout.widths) base (states self.now.rules.net.layout.widths) work.old work.new }
    {
        let states = self.rules.net.layout.widths.states();
        for s in 0..states {
            self.fill_line(work, base + s * (states / 8), s);
        }
    }
}

// Fills the plane at byte base with the step relation of a network.
pub fn fill_steps(work: &mut [u8], base: usize, net: &Network)
    requires { base + plane_size (line_bytes net.now.layout.widths) ≤ length work.old }
    ensures { Filled (records net.now.n net.now.store.now) base work.old work.new }
{
    let mut sets = [RuleSet::NONE; MOST_RULES];
    let mut leads = [Lead::NONE; MOST_ARRIVING];
    let mut headers = [0; BUCKET_HEADERS];
    let tables = Tables {
        rules: Rules::of(net, &mut sets, &mut leads),
        groups: Groups::of(net, &mut headers),
    };
    tables.fill_arriving(work, base);
    links::cross(work, base, net);
}

// The point of a state is external, given the points where links end.
#[tactic(auto, using(widths::specs::Laws::Limits::limits))]
pub fn is_external(points: &Points, w: Widths, s: usize) -> bool
    requires { within_limits w ≡ true }
    ensures { (net : Net) → w ≡ widths_of net → LinkedPoints net w points.now → result ≡ external net s }
{
    let frame = Frame::of_state(w, s);
    let at = Point {
        switch: frame.switch,
        port: frame.port,
    };
    is_ordinary(w, frame.port) && !points.contains(w, at)
}
