// R and TC: a form with other variables, and its closure.
#![tactic(auto)]

ghost use Rattle.std.specs.Prelude.{◌≡◌, true, ◌+◌, ◌*◌, ◌≤◌};
ghost use Rattle.planes.specs.Plane.{bit, cell, plane_size};
ghost use Rattle.truth.specs.Truth.{value};
ghost use Rattle.lines.specs.Shapes.{Line, Plane, Source};
ghost use Rattle.forms.specs.declared.Form.TheVariants.{Both};
ghost use Rattle.forms.specs.Forms.{tests, place, line_form, Placed, Stands, arranged, Arranges, Reached, Closes, Reaches};

use format::kinds::Var;
use forms::{Form, Site};

// The states that the plane at a relates to themselves.
fn diagonal(work: &[u8], a: usize, pitch: usize) -> [u8; 128]
    requires { Plane work.now pitch a }
    ensures { Line (λ z. cell work.now a pitch z z) (pitch * 8) result }
{
    let mut r = [0u8; 128];
    for z in 0..pitch * 8 {
        let t = planes::get_at(work, a + z * pitch, z);
        lines::push(&mut r, z, t);
    }
    r
}

// The states that a form relates to themselves.
fn diagonal_of(work: &[u8], f: Form, pitch: usize) -> [u8; 128]
    requires { Plane work.now pitch (place f) }
    ensures { Line (λ z. tests f work.now pitch z z) (pitch * 8) result }
{
    match f {
        Form::OfX(at) | Form::OfY(at) => planes::load_line(work, at, pitch),
        Form::Both(at) | Form::Turned(at) => diagonal(work, at, pitch),
    }
}

// A form with both variables the variable v; answers its form.
fn same(work: &mut [u8], f: Form, v: Var, to: Site) -> Form
    requires plane { Plane work.old to.pitch to.base }
    requires form { Plane work.old to.pitch (place f) }
    ensures { Stands (arranged v v f work.old to.pitch) result to.pitch to.base work.old work.new }
{
    let e = diagonal_of(work, f, to.pitch);
    shapes::keep(work, &e, v, to)
}

// R, and the pair of a TC: a form with two variables for (X, Y); answers its form. This and `shut` match a form once, each with
// other arguments: a closure for each would be no plainer.
pub fn arrange(work: &mut [u8], f: Form, vars: (Var, Var), to: Site) -> Form
    requires plane { Plane work.old to.pitch to.base }
    requires behind { plane_size to.pitch + plane_size to.pitch ≤ to.base }
    requires lies { Placed to.pitch to.base f }
    ensures { Arranges vars.0 vars.1 f result to.pitch to.base work.old work.new }
{
    match vars {
        (Var::X, Var::X) => same(work, f, Var::X, to),
        (Var::X, Var::Y) => f,
        (Var::Y, Var::X) => f.turned(),
        (Var::Y, Var::Y) => same(work, f, Var::Y, to),
    }
}

// The closure of the plane at byte `at` stands at the site, or in the second plane: that of the step plane, if it is said to be
// there; answers its form.
fn shut_plane(work: &mut [u8], closed: bool, at: usize, to: Site) -> Form
    requires plane { Plane work.old to.pitch to.base }
    requires source { Source work.old to.pitch to.base at }
    requires reached { closed ≡ true → Reached to.pitch work.old }
    ensures { Closes (Both at) result to.pitch to.base work.old work.new }
{
    if closed && at == 0 {
        return Form::Both(to.size());
    }
    reaching::close_into(work, at, to.base, to.pitch);
    Form::Both(to.base)
}

// The line over v at byte `at` is its own closure; answers its form, a copy.
fn shut_line(work: &mut [u8], at: usize, v: Var, to: Site) -> Form
    requires plane { Plane work.old to.pitch to.base }
    requires source { Source work.old to.pitch to.base at }
    ensures { Closes (line_form v at) result to.pitch to.base work.old work.new }
{
    let e = planes::load_line(work, at, to.pitch);
    shapes::keep(work, &e, v, to)
}

// The closure of a form stands at the site or in the second plane; answers its form.
fn shut(work: &mut [u8], closed: bool, f: Form, to: Site) -> Form
    requires plane { Plane work.old to.pitch to.base }
    requires source { Source work.old to.pitch to.base (place f) }
    requires reached { closed ≡ true → Reached to.pitch work.old }
    ensures { Closes f result to.pitch to.base work.old work.new }
{
    match f {
        Form::OfX(at) => shut_line(work, at, Var::X, to),
        Form::OfY(at) => shut_line(work, at, Var::Y, to),
        Form::Both(at) => shut_plane(work, closed, at, to),
        Form::Turned(at) => shut_plane(work, closed, at, to).turned(),
    }
}

// TC: the closure of a form, arranged; answers its form.
pub fn reach(work: &mut [u8], closed: bool, f: Form, vars: (Var, Var), to: Site) -> Form
    requires plane { Plane work.old to.pitch to.base }
    requires source { Source work.old to.pitch to.base (place f) }
    requires behind { plane_size to.pitch + plane_size to.pitch ≤ to.base }
    requires reached { closed ≡ true → Reached to.pitch work.old }
    ensures { Reaches vars.0 vars.1 f result to.pitch to.base work.old work.new }
{
    let g = shut(work, closed, f, to);
    arrange(work, g, vars, to)
}
