// The nodes of a policy, worked out by recursion on operands, and the lowest state that breaks it.
#![tactic(auto)]

ghost use Rattle.std.specs.Prelude.{Option, ◌≡◌, ℕ, ◌+◌, ◌*◌, ◌≤◌, ◌<◌, length};
ghost use Rattle.lines.specs.Shapes.{Plane};
ghost use Rattle.forms.specs.Forms.{tests, place};
ghost use Rattle.policy.specs.Evaluated.{nodes_at, node_at, Standing, Planned, PolicyReady, Asked, Given, LowestPassing, Tested};

use format::kinds::NodeKind;
use forms::Form;
use nodes::node;
use nodes::node::{Ground, Node};

// The nodes of a policy: count records of a store, from number start on, as `Standing` speaks of them.
#[derive(Clone, Copy)]
pub struct Nodes<'a> {
    pub store: &'a [u8],
    pub start: usize,
    pub count: usize,
}

impl<'a> Nodes<'a> {
    // Node k.
    fn at(self, k: usize) -> Node
        requires { (self.start + k) * 24 + 24 ≤ length self.store.now }
        ensures { result ≡ node_at self.entry.store.now (self.entry.start + k) }
    {
        let i = (self.start + k) * 24;
        let kind = NodeKind::from(self.store[i + 2]);
        Node::of(kind, self.store[i + 3], self.store[i + 4])
    }
}

// Node k as it is made. The NOT, AND or OR below a SOME or ALL is passed over if it is not made: its operands are taken instead.
fn planned(nodes: Nodes, forms: &[Option<Form>; 32], k: usize) -> Node
    requires standing { Standing nodes.store.now nodes.start nodes.count }
    requires inside { k < nodes.count }
    ensures { Planned (nodes_at nodes.entry.store.now nodes.entry.start nodes.entry.count) k result }
{
    let n = nodes.at(k);
    let Node::Range(r, a) = n else {
        return n;
    };
    if forms[a].is_some() {
        return n;
    }
    let Node::Join(t, p, q) = nodes.at(a) else {
        return n;
    };
    Node::Over(r, t, p, q)
}

// Works out node k of a policy, its operands first, unless it is made, and keeps the forms of all.
fn eval(nodes: Nodes, ground: Ground, work: &mut [u8], forms: &mut [Option<Form>; 32], k: usize)
    requires { Asked nodes.store.now nodes.start nodes.count ground.external.now ground.closed work.old ground.pitch k forms.old }
    ensures { Given (nodes_at nodes.entry.store.now nodes.entry.start nodes.entry.count) ground.entry.pitch ground.entry.external.now k forms.old work.old forms.new work.new }
{
    if forms[k].is_some() {
        return;
    }
    let n = planned(nodes, forms, k);
    if let Some((a, b)) = n.operands() {
        eval(nodes, ground, work, forms, a);
        eval(nodes, ground, work, forms, b);
    }
    let f = node::make(work, ground, forms, n, k);
    forms[k] = Some(f);
}

// The lowest state x with which, and with Y = 0, a form passes.
fn lowest_state(work: &[u8], f: Form, pitch: usize) -> Option<usize>
    requires { Plane work.now pitch (place f) }
    ensures { LowestPassing (pitch * 8) (λ x. tests f work.now pitch x 0) result }
{
    (0..pitch * 8).find(move |x| f.test(work, *x, 0, pitch))
}

// The lowest state that breaks a policy.
pub fn test(nodes: Nodes, ground: Ground, work: &mut [u8]) -> Option<usize>
    requires policy_ready { PolicyReady nodes.store.now nodes.start nodes.count ground.pitch ground.closed work.old }
    requires count_nonzero { 0 < nodes.count }
    ensures { Tested (nodes_at nodes.entry.store.now nodes.entry.start nodes.entry.count) ground.entry.pitch ground.entry.external.now work.old result work.new }
{
    let last = nodes.count - 1;
    let mut forms = [None; 32];
    eval(nodes, ground, work, &mut forms, last);
    let f = forms[last]?;
    lowest_state(work, f, ground.pitch)
}
