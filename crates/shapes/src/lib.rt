// Forms made of two forms of the same buffer, and of a line. A plane of pitch * 8 states has pitch * 8 lines of pitch bytes.
#![tactic(auto)]

ghost use Rattle.std.specs.Prelude.{◌≡◌, ◌+◌, ◌*◌, ◌≤◌, ◌<◌, length, get_or};
ghost use Rattle.basics.specs.Bit.{bit_of};
ghost use Rattle.planes.specs.Plane.{bit};
ghost use Rattle.planes.specs.Lines.{Laid, Made};
ghost use Rattle.truth.specs.Truth.{value};
ghost use Rattle.lines.specs.Shapes.{pair_byte, pair_bool, Lined, Plane, Source, Span};
ghost use Rattle.forms.specs.Forms.{place, row_of, rows_of, Mixed, Joinable, Sources, joined, Straightened, Stands};

use format::kinds::Var;
use forms::{Form, Joined, Site, Way};
use lines::{Pair, Row, Rows};

// Line x of a form that does not stand exchanged.
pub fn row_of(work: &[u8], f: Form, x: usize, pitch: usize) -> Row
    requires plane { Plane work.now pitch (place f) }
    requires x_bound { x < pitch * 8 }
    ensures { result ≡ row_of f work.now pitch x }
{
    match f {
        Form::OfX(at) => Row::Full(lines::full(planes::get_at(work, at, x))),
        Form::Both(at) => Row::From(at + x * pitch),
        Form::OfY(at) | Form::Turned(at) => Row::From(at),
    }
}

// The operation on line x of two forms that do not stand exchanged.
pub fn rows_of(work: &[u8], j: Joined, x: usize, pitch: usize) -> Rows
    requires first { Plane work.now pitch (place j.first) }
    requires second { Plane work.now pitch (place j.second) }
    requires x_bound { x < pitch * 8 }
    ensures { result ≡ rows_of j work.now pitch x }
{
    Rows {
        op: j.op,
        first: row_of(work, j.first, x, pitch),
        second: row_of(work, j.second, x, pitch),
    }
}

// The plane of a site becomes the operation on two forms, line by line.
fn combine_lines(work: &mut [u8], j: Joined, to: Site)
    requires plane { Plane work.old to.pitch to.base }
    requires joinable { Joinable work.old to.pitch to.base j }
    ensures { Made (joined j work.old to.pitch) to.pitch to.base (to.pitch * 8) work.old work.new }
{
    for x in 0..to.pitch * 8 {
        let r = rows_of(work, j, x, to.pitch);
        lines::join_rows(work, r, to.base + x * to.pitch, to.pitch);
    }
}

// The len bytes from base on become the operation on those from two places on. Where one of these is base, the call says so, and
// the compiler need not think of bytes that overlap in part.
fn join_planes(work: &mut [u8], s: Pair, base: usize, len: usize)
    requires span { Span work.old len base s.first }
    requires span_2 { Span work.old len base s.second }
    requires len_in_bounds { base + len ≤ length work.old }
    ensures { Laid (λ j. pair_byte s work.old j) base len work.old work.new }
{
    if s.first == base {
        lines::join_span(work, Pair { first: base, ..s }, base, len);
    } else if s.second == base {
        lines::join_span(work, Pair { second: base, ..s }, base, len);
    } else {
        lines::join_span(work, s, base, len);
    }
}

// The plane of a site becomes the operation on two forms, of which one may be that plane.
fn combine(work: &mut [u8], j: Joined, to: Site)
    requires plane { Plane work.old to.pitch to.base }
    requires joinable { Joinable work.old to.pitch to.base j }
    ensures { Made (joined j work.old to.pitch) to.pitch to.base (to.pitch * 8) work.old work.new }
{
    let (Form::Both(_), Form::Both(_)) = (j.first, j.second) else {
        combine_lines(work, j, to);
        return;
    };
    join_planes(work, j.starts(), to.base, to.size());
}

// The line of a node over the variable v is kept; answers its form.
pub fn keep(work: &mut [u8], e: &[u8; 128], v: Var, to: Site) -> Form
    requires { Plane work.old to.pitch to.base }
    ensures { Stands (λ x y. bit e.now (value v x y)) result to.pitch to.base work.old work.new }
{
    planes::put_line(work, to.base, e, to.pitch);
    Form::line(v, to.base)
}

// The line at a site becomes the operation on two lines.
pub fn join_lines(work: &mut [u8], s: Pair, to: Site)
    requires plane { Plane work.old to.pitch to.base }
    requires source { Source work.old to.pitch to.base s.first }
    requires source_2 { Source work.old to.pitch to.base s.second }
    ensures { Lined (λ z. pair_bool s work.old z) (to.pitch * 8) to.pitch to.base work.old work.new }
{
    lines::join_span(work, s, to.base, to.pitch);
}

// Of two forms, the one that stands exchanged is laid as a plane: both can then be read line by line.
pub fn straighten(work: &mut [u8], j: Joined, to: Site) -> Joined
    requires plane { Plane work.old to.pitch to.base }
    requires sources { Sources work.old to.pitch to.base j }
    requires mixed { Mixed j.first j.second }
    ensures { Straightened j result to.pitch to.base work.old work.new }
{
    let laid = Form::Both(to.base);
    if let Form::Turned(p) = j.first {
        exchange::exchange(work, p, to.base, to.pitch);
        return Joined {
            op: j.op,
            first: laid,
            second: j.second,
        };
    }
    exchange::exchange(work, j.second.start(), to.base, to.pitch);
    Joined {
        op: j.op,
        first: j.first,
        second: laid,
    }
}

// NOT, AND, OR: the operation on two forms; answers its form. The way is matched once, and each step takes other arguments: a
// closure for each would be no plainer.
pub fn apply(work: &mut [u8], j: Joined, to: Site) -> Form
    requires plane { Plane work.old to.pitch to.base }
    requires sources { Sources work.old to.pitch to.base j }
    ensures { Stands (joined j work.old to.pitch) result to.pitch to.base work.old work.new }
{
    match j.first.beside(j.second) {
        Way::Over(v) => {
            join_lines(work, j.starts(), to);
            Form::line(v, to.base)
        }
        Way::Straight => {
            combine(work, j, to);
            Form::Both(to.base)
        }
        Way::Exchanged => {
            combine(work, j.turned(), to);
            Form::Turned(to.base)
        }
        Way::FirstTurned | Way::SecondTurned => {
            let laid = straighten(work, j, to);
            combine(work, laid, to);
            Form::Both(to.base)
        }
    }
}

// BIT: the test of bit i of the variable v; answers its form.
pub fn bit_line(work: &mut [u8], v: Var, i: usize, to: Site) -> Form
    requires plane { Plane work.old to.pitch to.base }
    requires i_bound { i < 64 }
    ensures { Stands (λ x y. bit_of (value v x y) i) result to.pitch to.base work.old work.new }
{
    lines::lay_bits(work, i, to.base, to.pitch);
    Form::line(v, to.base)
}
