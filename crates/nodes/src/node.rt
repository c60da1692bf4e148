// The tests of a policy's node, made of those of its operands.
ghost use Rattle.std.specs.Prelude.{◌≡◌, false, List, ℕ, ◌≤◌, ◌<◌};
ghost use Rattle.lines.specs.Shapes.{op_of, Plane};
ghost use Rattle.forms.specs.Forms.{ranged, Sources, Stands};
ghost use Rattle.nodes.specs.declared.node.Node.TheVariants.{Over};
ghost use Rattle.nodes.specs.Node.{node_of, operands, form_at, joined_at, site_of, Makeable, NodeMade};

use format::kinds::{NodeKind, Var};
use forms::{Form, Joined, Site};
use lines::{Op, Quantifier};
use quantify::Ranging;

// A node of a policy. NOT, AND and OR are an operation on two earlier nodes, NOT on one twice. Operands are numbers of earlier
// nodes, as in the records, and no Box: there is no heap.
#[derive(Clone, Copy)]
pub enum Node {
    Bit(Var, usize),
    R(Var, Var),
    E(Var),
    Join(Op, usize, usize),
    Range(Ranging, usize),
    // A SOME or ALL of an operation on two earlier nodes.
    Over(Ranging, Op, usize, usize),
    Tc(usize, Var, Var),
    Absent,
}

impl Node {
    // The node of a kind, by bytes 3 and 4 of its record.
    pub fn of(kind: NodeKind, a: u8, b: u8) -> Self
        ensures { result ≡ node_of kind a b }
    {
        let p = usize::from(a);
        let q = usize::from(b);
        match kind {
            NodeKind::Bit => Node::Bit(Var::from(a), q),
            NodeKind::R => Node::R(Var::from(a), Var::from(b)),
            NodeKind::E => Node::E(Var::from(a)),
            NodeKind::Not => Node::Join(Op::Not, p, p),
            NodeKind::And => Node::Join(Op::And, p, q),
            NodeKind::Or => Node::Join(Op::Or, p, q),
            NodeKind::Some => Node::Range(Ranging::new(Quantifier::Any, Var::from(b)), p),
            NodeKind::All => Node::Range(Ranging::new(Quantifier::All, Var::from(b)), p),
            NodeKind::Tc => Node::Tc(p, Var::from(b / 2), Var::from(b % 2)),
            NodeKind::Unknown => Node::Absent,
        }
    }

    // The nodes that it is made of, a single one twice.
    pub fn operands(self) -> Option<(usize, usize)>
        ensures { result ≡ operands self }
    {
        match self {
            Node::Bit(_, _) => None,
            Node::R(_, _) => None,
            Node::E(_) => None,
            Node::Join(_, a, b) => Some((a, b)),
            Node::Range(_, a) => Some((a, a)),
            Node::Over(_, _, a, b) => Some((a, b)),
            Node::Tc(a, _, _) => Some((a, a)),
            Node::Absent => None,
        }
    }
}

// What the nodes of a network are made over: its line of external states, whether the second plane is the closure of the first,
// and the bytes of a line.
#[derive(Clone, Copy)]
pub struct Ground<'a> {
    pub external: &'a [u8; 128],
    pub closed: bool,
    pub pitch: usize,
}

// The form of node j, if it is made; else that of the steps.
fn form_at(forms: &[Option<Form>], j: usize) -> Form
    ensures { result ≡ form_at forms.now j }
{
    forms.get(j).copied().flatten().unwrap_or(Form::Both(0))
}

// An operation on the forms of two nodes.
fn joined_at(forms: &[Option<Form>], t: Op, a: usize, b: usize) -> Joined
    ensures { result ≡ joined_at forms.now t a b }
{
    Joined {
        op: t,
        first: form_at(forms, a),
        second: form_at(forms, b),
    }
}

// The plane of node k.
fn site_of(k: usize, pitch: usize) -> Site
    requires { (k < 256) × (pitch ≤ 128) }
    ensures { result ≡ site_of k pitch }
{
    Site {
        base: (k + 2) * (pitch * 8 * pitch),
        pitch,
    }
}

// A SOME or ALL of an operation on two nodes, of their forms; answers its form. The one call for both kinds of node, so that the
// compiler puts `range` in here, and no form is stored in parts and read back as a whole.
fn range_at(
    work: &mut [u8],
    forms: &[Option<Form>],
    r: Ranging,
    t: Op,
    a: usize,
    b: usize,
    to: Site,
) -> Form
    requires plane { Plane work.old to.pitch to.base }
    requires sources { Sources work.old to.pitch to.base (joined_at forms.now t a b) }
    ensures { Stands (ranged (op_of r.by) r.over (joined_at forms.now t a b) work.old to.pitch) result to.pitch to.base work.old work.new }
{
    quantify::range(work, r, joined_at(forms, t, a, b), to)
}

// Makes node k, a SOME or ALL of an operation on two nodes, whatever line of external states there is; answers its form. `make` says
// that of its own line alone.
pub fn make_over(
    work: &mut [u8],
    forms: &[Option<Form>],
    r: Ranging,
    t: Op,
    a: usize,
    b: usize,
    k: usize,
    pitch: usize,
) -> Form
    requires { Makeable (Over r t a b) forms.now k pitch false work.old }
    ensures { (ext : List ℕ) → NodeMade forms.now (Over r t a b) k pitch ext work.old result work.new }
{
    range_at(work, forms, r, t, a, b, site_of(k, pitch))
}

// Makes node k, in its own plane or by reference to the first two, of the forms of its operands; answers its form. The node is
// matched once, and each step takes other arguments: a closure for each would be no plainer. Out of line: policy::eval goes 32 deep
// and would have this frame in each of its own.
#[inline(never)]
pub fn make(work: &mut [u8], ground: Ground, forms: &[Option<Form>], n: Node, k: usize) -> Form
    requires { Makeable n forms.now k ground.pitch ground.closed work.old }
    ensures { NodeMade forms.now n k ground.entry.pitch ground.entry.external.now work.old result work.new }
{
    let to = site_of(k, ground.pitch);
    match n {
        Node::Bit(v, i) => shapes::bit_line(work, v, i, to),
        Node::R(u, v) => pairs::arrange(work, Form::Both(0), (u, v), to),
        Node::E(v) => shapes::keep(work, ground.external, v, to),
        Node::Join(t, a, b) => shapes::apply(work, joined_at(forms, t, a, b), to),
        Node::Range(r, a) => range_at(work, forms, r, Op::Or, a, a, to),
        Node::Over(r, t, a, b) => range_at(work, forms, r, t, a, b, to),
        Node::Tc(a, u, v) => pairs::reach(work, ground.closed, form_at(forms, a), (u, v), to),
        Node::Absent => {
            let none = [0u8; 128];
            shapes::keep(work, &none, Var::X, to)
        }
    }
}
