// SOME and ALL: a form over one variable, made of one or two forms of the same buffer.
#![tactic(auto)]

ghost use Rattle.std.specs.Prelude.{◌≡◌, ◌+◌, ◌*◌, ◌<◌};
ghost use Rattle.lines.specs.Shapes.{over, op_of, pair_bool, Line, LineIs, Lined, Plane, Source};
ghost use Rattle.forms.specs.declared.Way.TheVariants.{Over};
ghost use Rattle.forms.specs.Forms.{other, Pairs, Sources, Paired, joined, Stands, ranged};

use format::kinds::Var;
use forms::{Form, Joined, Site, Way};
use lines::{Join, Pair, Quantifier};

// A SOME or ALL: by what it quantifies, and the variable that runs over every state.
#[derive(Clone, Copy)]
pub struct Ranging {
    pub by: Quantifier,
    pub over: Var,
}

impl Ranging {
    // One of these.
    pub fn new(by: Quantifier, over: Var) -> Self
        ensures by { result.by ≡ by }
        ensures over { result.over ≡ over }
    {
        Ranging { by, over }
    }

    // The same of the other variable.
    fn turned(self) -> Self
        ensures by { result.by ≡ self.by }
        ensures over { result.over ≡ other self.over }
    {
        Ranging {
            by: self.by,
            over: other(self.over),
        }
    }
}

// Line x of the operation on two forms.
fn line_of(work: &[u8], j: Joined, x: usize, pitch: usize) -> Join
    requires paired { Paired work.now pitch j }
    requires x_bound { x < pitch * 8 }
    ensures { LineIs (joined j work.now pitch x) work.now pitch result }
{
    lines::join_of(shapes::rows_of(work, j, x, pitch))
}

// The states y for which the operation on two forms passes with every x, or with some x.
fn gather_x(work: &[u8], q: Quantifier, j: Joined, pitch: usize) -> [u8; 128]
    requires paired { Paired work.now pitch j }
    ensures { Line (λ y. over (op_of q) (pitch * 8) (λ x. joined j work.now pitch x y)) (pitch * 8) result }
{
    let o = q.op();
    let mut r = [lines::units(o); 128];
    for x in 0..pitch * 8 {
        let e = line_of(work, j, x, pitch);
        lines::take_join(&mut r, work, o, e, pitch);
    }
    r
}

// The states x for which the operation on two forms passes with every y, or with some y.
fn gather_y(work: &[u8], q: Quantifier, j: Joined, pitch: usize) -> [u8; 128]
    requires paired { Paired work.now pitch j }
    ensures { Line (λ x. over (op_of q) (pitch * 8) (joined j work.now pitch x)) (pitch * 8) result }
{
    let mut r = [0u8; 128];
    for x in 0..pitch * 8 {
        let e = line_of(work, j, x, pitch);
        let s = lines::join_over(work, q, e, pitch);
        lines::push(&mut r, x, s);
    }
    r
}

// The other variable.
fn other(u: Var) -> Var
    ensures { result ≡ other u }
{
    match u {
        Var::X => Var::Y,
        Var::Y => Var::X,
    }
}

// A SOME or ALL of the operation on two forms that can be read line by line; answers its form.
fn range_lines(work: &mut [u8], r: Ranging, j: Joined, to: Site) -> Form
    requires plane { Plane work.old to.pitch to.base }
    requires paired { Paired work.old to.pitch j }
    ensures { Stands (ranged (op_of r.by) r.over j work.old to.pitch) result to.pitch to.base work.old work.new }
{
    let e = match r.over {
        Var::X => gather_x(work, r.by, j, to.pitch),
        Var::Y => gather_y(work, r.by, j, to.pitch),
    };
    shapes::keep(work, &e, other(r.over), to)
}

// The line at a site becomes equal tests: whether the operation on two lines passes with every state, or with some.
fn same_line(work: &mut [u8], q: Quantifier, s: Pair, to: Site)
    requires plane { Plane work.old to.pitch to.base }
    requires source { Source work.old to.pitch to.base s.first }
    requires source_2 { Source work.old to.pitch to.base s.second }
    ensures { Lined (λ z. over (op_of q) (to.pitch * 8) (pair_bool s work.old)) (to.pitch * 8) to.pitch to.base work.old work.new }
{
    shapes::join_lines(work, s, to);
    let t = lines::line_over(work, q, to.base, to.pitch);
    planes::fill(work, lines::full(t), to.base, to.pitch);
}

// The same as range_lines of two lines over the variable u.
fn range_flat(work: &mut [u8], r: Ranging, j: Joined, u: Var, to: Site) -> Form
    requires plane { Plane work.old to.pitch to.base }
    requires sources { Sources work.old to.pitch to.base j }
    requires flat { Pairs j.first j.second (Over u) }
    ensures { Stands (ranged (op_of r.by) r.over j work.old to.pitch) result to.pitch to.base work.old work.new }
{
    if u == r.over {
        same_line(work, r.by, j.starts(), to);
    } else {
        shapes::join_lines(work, j.starts(), to);
    }
    Form::line(u, to.base)
}

// SOME, ALL: of the operation on two forms; answers its form. The operation on the forms itself is not laid. The way is matched
// once, and each step takes other arguments: a closure for each would be no plainer.
pub fn range(work: &mut [u8], r: Ranging, j: Joined, to: Site) -> Form
    requires plane { Plane work.old to.pitch to.base }
    requires sources { Sources work.old to.pitch to.base j }
    ensures { Stands (ranged (op_of r.by) r.over j work.old to.pitch) result to.pitch to.base work.old work.new }
{
    match j.first.beside(j.second) {
        Way::Over(u) => range_flat(work, r, j, u, to),
        Way::Straight => range_lines(work, r, j, to),
        Way::Exchanged => range_lines(work, r.turned(), j.turned(), to).turned(),
        Way::FirstTurned | Way::SecondTurned => {
            let laid = shapes::straighten(work, j, to);
            range_lines(work, r, laid, to)
        }
    }
}
