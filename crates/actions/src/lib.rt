// What the actions of a record send.
#![tactic(auto)]

ghost use Rattle.std.specs.Prelude.{◌≡◌, true, [], ◌∷◌, ℕ, ◌^◌, ◌<◌, ◌≤◌, get_or};
ghost use Rattle.basics.specs.Lists.{from};
ghost use Rattle.format.specs.Record.{records};
ghost use Rattle.format.specs.Fields.{actions_good};
ghost use Rattle.format.specs.Pattern.{pattern_good};
ghost use Rattle.patterns.specs.Matched.{MatchedSet};
ghost use Rattle.groups.specs.Relayed.{Ran, HeaderFits, PortFits, departs};
ghost use Rattle.groups.specs.Sent.{Ready, GroupsRan};
ghost use Rattle.onestep.specs.Actions.{reached, sent};
ghost use Rattle.onestep.specs.ByBytes.{arrival};
ghost use Rattle.onestep.specs.Flooding.{flooded, UsedAction};
ghost use Rattle.actions.specs.Acted.{Acted, record_sends};

use format::kinds::ActionKind;
use groups::buckets::Groups;
use groups::relay::Relay;
use patterns::{in_set, matched, put};
use planes::{load_line, put_line};
use records::fields::is_ordinary;
use states::{Frame, values};

// Sends a copy with this header to port q, if OUTPUT with stars, whose pattern matches these ports, reaches it.
#[tactic(auto, using(widths::specs::Laws::Limits::limits))]
fn offer(relay: &mut Relay, header: u8, ports: u64, q: u8)
    requires { HeaderFits relay.old header × PortFits relay.old q }
    ensures { (value care : ℕ) → MatchedSet relay.old.groups.now.net.layout.widths.p value care ports → Ran (departs relay.old header (flooded relay.old.groups.now.net.layout.widths relay.old.frame.port value care (q ∷ []))) relay.old relay.new }
{
    if is_ordinary(relay.groups.net.layout.widths, q) && in_set(ports, q) {
        relay.send_on(header, q);
    }
}

// Sends a copy with this header to each port that OUTPUT with stars reaches.
#[tactic(auto, using(widths::specs::Laws::Limits::limits))]
fn flood(relay: &mut Relay, header: u8, value: u8, care: u8)
    requires { HeaderFits relay.old header }
    ensures { Ran (departs relay.old header (flooded relay.old.groups.now.net.layout.widths relay.old.frame.port value care (from 0 (2 ^ relay.old.groups.now.net.layout.widths.p)))) relay.old relay.new }
{
    let p = relay.groups.net.layout.widths.p;
    let ports = matched(p, value, care);
    for q in 0..values(p) {
        offer(relay, header, ports, q);
    }
}

// Sends a copy with this header to each port that OUTPUT reaches.
#[tactic(auto, using(widths::specs::Laws::Limits::limits, onestep::specs::Laws::GoodActions::pattern_value_lt, onestep::specs::Laws::CopiesInOrder::reached_one, onestep::specs::Laws::CopiesInOrder::reached_flooded))]
fn output(relay: &mut Relay, header: u8, value: u8, care: u8)
    requires header_fits { HeaderFits relay.old header }
    requires care_value { pattern_good relay.old.groups.now.net.layout.widths.p value care ≡ true }
    ensures { Ran (departs relay.old header (reached relay.old.groups.now.net.layout.widths relay.old.frame.port value care)) relay.old relay.new }
{
    let all = values(relay.groups.net.layout.widths.p) - 1;
    if care == all {
        relay.send_on(header, value);
    } else {
        flood(relay, header, value, care);
    }
}

// Runs action i of a record on a frame that has this header by then; the header after it. The kind is matched once, and each action
// takes other arguments: a closure for each would be no plainer.
#[tactic(auto, using(widths::specs::Laws::Limits::limits))]
fn act(relay: &mut Relay, r: &[u8; 24], i: usize, header: u8) -> u8
    requires header_fits { HeaderFits relay.old header }
    requires used { UsedAction relay.old.groups.now.net.layout.widths r.now i }
    ensures { Acted r.now i header relay.old relay.new result }
{
    let value = r[10 + 3 * i];
    let care = r[11 + 3 * i];
    match ActionKind::from(r[9 + 3 * i]) {
        ActionKind::Output => {
            output(relay, header, value, care);
            header
        }
        ActionKind::Set => put(relay.groups.net.layout.widths.h, value, care, header),
        ActionKind::InPort => {
            relay.send(header, relay.frame.port);
            header
        }
        ActionKind::RunGroup => {
            relay.run_group(value, header);
            header
        }
        ActionKind::Unknown => header,
    }
}

// Runs the actions of a record on a frame, in order.
fn run(relay: &mut Relay, r: &[u8; 24])
    requires { actions_good relay.old.groups.now.net.layout.widths r.now ≡ true }
    ensures { Ran (record_sends relay.old r.now) relay.old relay.new }
{
    let mut header = relay.frame.header;
    for i in 0..usize::from(r[8]) {
        header = act(relay, r, i, header);
    }
}

// Runs the record at place i, a miss or a rule, on a frame that arrived. All records that run on it share the marks of the groups.
pub fn run_record(relay: &mut Relay, i: usize)
    requires { (relay.old.groups.now.net.layout.misses ≤ i) × (i < relay.old.groups.now.net.layout.nodes) }
    ensures { Ran (record_sends relay.old (get_or (records relay.old.groups.now.net.n relay.old.groups.now.net.store.now) i [])) relay.old relay.new }
{
    let groups = relay.groups;
    run(relay, groups.net.record(i));
}

// The same for a line of any buffer, and marks that may be longer: both are loaded into a relay, and put back.
#[tactic(auto, using(widths::specs::Laws::Limits::limits))]
pub fn run_record_in(
    work: &mut [u8],
    line: usize,
    groups: &Groups,
    frame: Frame,
    i: usize,
    marks: &mut [u8],
)
    requires ready { Ready (records groups.now.net.n groups.now.net.store.now) groups.now.net.layout.widths line frame.switch frame.port frame.header work.old marks.old × (frame.port < 2 ^ groups.now.net.layout.widths.p) }
    requires misses_le_i { (groups.now.net.layout.misses ≤ i) × (i < groups.now.net.layout.nodes) }
    ensures { GroupsRan (records groups.now.net.n groups.now.net.store.now) groups.now.net.layout.widths line frame.switch frame.port (sent (records groups.now.net.n groups.now.net.store.now) groups.now.net.layout.widths (arrival frame.switch frame.port frame.header) (get_or (records groups.now.net.n groups.now.net.store.now) i [])) work.old marks.old work.new marks.new }
{
    let bytes = groups.net.layout.widths.states() / 8;
    let own_line = load_line(work, line, bytes);
    let own_marks = load_line(marks, 0, 128);
    let mut relay = Relay {
        groups,
        frame,
        line: own_line,
        marks: own_marks,
    };
    run_record(&mut relay, i);
    put_line(work, line, &relay.line, bytes);
    put_line(marks, 0, &relay.marks, 128);
}
