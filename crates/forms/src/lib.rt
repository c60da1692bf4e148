// The forms in which the tests of a node stand in the work buffer.
#![tactic(auto)]

ghost use Rattle.std.specs.Prelude.{◌≡◌, ◌*◌, ◌≤◌, ◌<◌};
ghost use Rattle.planes.specs.Plane.{plane_size};
ghost use Rattle.lines.specs.Shapes.{pair, Plane};
ghost use Rattle.forms.specs.Forms.{turned, line_form, tests, place, Pairs, turned_joined};

use format::kinds::Var;
use lines::{Op, Pair};

// A line over X, a line over Y, a plane, a plane with X and Y exchanged; with the byte at which it starts.
#[derive(Clone, Copy)]
pub enum Form {
    OfX(usize),
    OfY(usize),
    Both(usize),
    Turned(usize),
}

impl Form {
    // The line over a variable that starts at a byte.
    pub fn line(v: Var, at: usize) -> Self
        ensures { result ≡ line_form v at }
    {
        match v {
            Var::X => Form::OfX(at),
            Var::Y => Form::OfY(at),
        }
    }

    // The same tests with X and Y exchanged.
    pub fn turned(self) -> Self
        ensures { result ≡ turned self }
    {
        match self {
            Form::OfX(at) => Form::OfY(at),
            Form::OfY(at) => Form::OfX(at),
            Form::Both(at) => Form::Turned(at),
            Form::Turned(at) => Form::Both(at),
        }
    }

    // The byte at which it starts.
    pub fn start(self) -> usize
        ensures { result ≡ place self }
    {
        match self {
            Form::OfX(at) | Form::OfY(at) | Form::Both(at) | Form::Turned(at) => at,
        }
    }

    // The test with X = x, Y = y.
    pub fn test(self, work: &[u8], x: usize, y: usize, pitch: usize) -> bool
        requires plane { Plane work.now pitch (place self) }
        requires x_bound { (x < pitch * 8) × (y < pitch * 8) }
        ensures { result ≡ tests self work.now pitch x y }
    {
        match self {
            Form::OfX(at) => planes::get_at(work, at, x),
            Form::OfY(at) => planes::get_at(work, at, y),
            Form::Both(at) => planes::get_at(work, at + x * pitch, y),
            Form::Turned(at) => planes::get_at(work, at + y * pitch, x),
        }
    }

    // How it is taken together with another: lines as a line, and a plane line by line rather than bit by bit.
    pub fn beside(self, other: Form) -> Way
        ensures { Pairs self other result }
    {
        match (self, other) {
            (Form::OfX(_), Form::OfX(_)) => Way::Over(Var::X),
            (Form::OfX(_), Form::OfY(_)) => Way::Straight,
            (Form::OfY(_), Form::OfX(_)) => Way::Straight,
            (Form::OfY(_), Form::OfY(_)) => Way::Over(Var::Y),
            (Form::Both(_), Form::Turned(_)) => Way::SecondTurned,
            (Form::Turned(_), Form::Both(_)) => Way::FirstTurned,
            (Form::Turned(_), _) => Way::Exchanged,
            (_, Form::Turned(_)) => Way::Exchanged,
            (Form::Both(_), _) => Way::Straight,
            (_, Form::Both(_)) => Way::Straight,
        }
    }
}

// How two forms are taken together: as lines over a variable, as planes, as planes with X and Y exchanged, as planes of which the
// first, or the second, is to be exchanged before.
#[derive(Clone, Copy)]
pub enum Way {
    Over(Var),
    Straight,
    Exchanged,
    FirstTurned,
    SecondTurned,
}

// An operation on the tests of two forms.
#[derive(Clone, Copy)]
pub struct Joined {
    pub op: Op,
    pub first: Form,
    pub second: Form,
}

impl Joined {
    // The same with X and Y exchanged.
    pub fn turned(self) -> Self
        ensures { result ≡ turned_joined self }
    {
        Joined {
            op: self.op,
            first: self.first.turned(),
            second: self.second.turned(),
        }
    }

    // The operation on the bytes from the starts of the two forms on. It reads like turned, but makes places of forms.
    pub fn starts(self) -> Pair
        ensures { result ≡ pair self.op (place self.first) (place self.second) }
    {
        Pair {
            op: self.op,
            first: self.first.start(),
            second: self.second.start(),
        }
    }
}

// The plane in which the form of a node is made: it starts at byte base, in lines of pitch bytes. That the buffer has room for it,
// and that forms lie apart from it, stands in contracts: planes, exchange and reaching are lent the buffer itself, so that a
// struct that held both would be taken apart at each of these calls.
#[derive(Clone, Copy)]
pub struct Site {
    pub base: usize,
    pub pitch: usize,
}

impl Site {
    // The bytes of the plane.
    pub fn size(self) -> usize
        requires { self.pitch ≤ 128 }
        ensures { result ≡ plane_size self.pitch }
    {
        self.pitch * 8 * self.pitch
    }
}
