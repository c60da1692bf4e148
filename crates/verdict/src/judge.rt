// The verdict on a network: its policies in ascending order, over the step plane.
ghost use Rattle.std.specs.Prelude.{◌≡◌, ◌≤◌, ◌<◌};
ghost use Rattle.format.specs.Record.{records};
ghost use Rattle.format.specs.Search.{record_at};
ghost use Rattle.onestep.specs.Step.{external};
ghost use Rattle.planes.specs.Plane.{plane_size};
ghost use Rattle.lines.specs.Shapes.{Line, Plane};
ghost use Rattle.verdict.specs.Judge.{policy_at, Run, Testable, StepsClosed, Searched, Judgeable, Judges};

use format::kinds::NodeKind;
use judgement::Violation;
use nodes::node::Ground;
use policy::Nodes;
use scan::network::Network;

// Record i, a node or one before the nodes. That a number is below the groups stays a clause: a type for it would be no plainer.
fn node<'a>(net: &Network<'a>, i: usize) -> &'a [u8; 24]
    requires { i < net.now.layout.groups }
    ensures { result.now ≡ record_at net.now.store.now i }
{
    net.record(i)
}

// The policy that record i names.
fn policy_of(net: &Network, i: usize) -> u8
    requires { i < net.now.layout.groups }
    ensures { result ≡ policy_at net.now.store.now i }
{
    node(net, i)[1]
}

// Where the nodes of the policy end that begins at record start.
fn policy_end(net: &Network, start: usize) -> usize
    requires { start < net.now.layout.groups }
    ensures { Run net.now.store.now start net.now.layout.groups result }
{
    let last = net.layout.groups;
    for i in start + 1..last {
        if policy_of(net, i) != policy_of(net, start) {
            return i;
        }
    }
    last
}

// Tests the policies in ascending order, up to the first that is broken.
fn search(net: &Network, ground: Ground, work: &mut [u8]) -> Option<Violation>
    requires { Testable net.now.n net.now.layout ground.pitch net.now.store.now ground.external.now ground.closed work.old }
    ensures { Searched (records net.now.n net.now.store.now) ground.entry.pitch work.old result work.new }
{
    let policies = net.layout.policies;
    let mut start = net.layout.nodes;
    for policy in 0..policies {
        let stop = policy_end(net, start);
        let nodes = Nodes {
            store: net.store,
            start,
            count: stop - start,
        };
        if let Some(state) = policy::test(nodes, ground, work) {
            return Some(Violation { policy, state });
        }
        start = stop;
    }
    None
}

// The external states among the first s, as a row.
fn externals(net: &Network, s: usize) -> [u8; 128]
    requires { s ≤ 1024 }
    ensures { Line (external (records net.now.n net.now.store.now)) s result }
{
    let points = links::linked_points(net);
    let mut row = [0u8; 128];
    for z in 0..s {
        let t = steps::is_external(&points, net.layout.widths, z);
        lines::push(&mut row, z, t);
    }
    row
}

// Whether a node is an R of two variables; any answer will do.
fn reads_steps(r: &[u8; 24]) -> bool {
    matches!(NodeKind::from(r[2]), NodeKind::R) && r[3] != r[4]
}

// Whether record i is one; any answer will do.
fn is_step(net: &Network, i: usize) -> bool {
    i < net.layout.groups && reads_steps(node(net, i))
}

// Whether record i is a TC over an R of two variables, in a policy that begins at record start; any answer will do.
fn closes_steps(net: &Network, start: usize, i: usize) -> bool
    requires { (start ≤ i) × (i < net.now.layout.groups) }
{
    let r = node(net, i);
    matches!(NodeKind::from(r[2]), NodeKind::Tc) && is_step(net, start + usize::from(r[3]))
}

// Where the policy of record i begins, if that of the records before it began at start.
fn policy_start(net: &Network, start: usize, i: usize) -> usize
    requires { (start ≤ i) × (i < net.now.layout.groups) }
    ensures { result ≤ i }
{
    if policy_of(net, i) != policy_of(net, start) {
        return i;
    }
    start
}

// Whether some TC among the nodes closes the steps; any answer will do.
fn wants_closure(net: &Network) -> bool {
    let mut start = net.layout.nodes;
    for i in net.layout.nodes..net.layout.groups {
        start = policy_start(net, start, i);
        // Out of a loop that also finds where each policy begins.
        if closes_steps(net, start, i) {
            return true;
        }
    }
    false
}

// The second plane becomes the closure of the step plane, if some TC closes it; answers whether it did.
fn close_steps(net: &Network, work: &mut [u8], pitch: usize) -> bool
    requires { Plane work.old pitch (plane_size pitch) }
    ensures { StepsClosed pitch work.old result work.new }
{
    let wanted = wants_closure(net);
    if wanted {
        reaching::close_into(work, 0, pitch * 8 * pitch, pitch);
    }
    wanted
}

// Judges a network; the work that this needs is zero afterwards.
pub fn judge(net: &Network, work: &mut [u8]) -> Option<Violation>
    requires { Judgeable net.now.n net.now.layout net.now.store.now work.old }
    ensures { Judges (records net.now.n net.now.store.now) work.old result work.new }
{
    let states = net.layout.widths.states();
    let external = externals(net, states);
    steps::fill_steps(work, 0, net);
    let closed = close_steps(net, work, states / 8);
    let ground = Ground {
        external: &external,
        closed,
        pitch: states / 8,
    };
    let found = search(net, ground, work);
    planes::clear(work, 0, net.work_needed());
    found
}
