// The closure of one plane in another: on words, by a search from each state, or by rounds.
#![tactic(auto)]

ghost use Rattle.std.specs.Prelude.{◌≡◌, true, ◌+◌, ◌*◌, ◌%◌, ◌≤◌, ◌<◌, length, get_or};
ghost use Rattle.planes.specs.Plane.{plane_size, Apart};
ghost use Rattle.planes.specs.Lines.{Laid};
ghost use Rattle.reaching.specs.Into.{ClosedInto, lie_apart, ClosedApart};
ghost use Rattle.sinks.specs.Turns.{MetAll};

use closure::lies_within;
use sinks::Plane;

// Copies the plane at from to the plane at to.
fn copy_plane(work: &mut [u8], from: usize, to: usize, pitch: usize)
    requires { Apart from to pitch (length work.old) }
    ensures { Laid (λ j. get_or work.old (from + j) 0) to (plane_size pitch) work.old work.new }
{
    let size = pitch * 8 * pitch;
    work.copy_within(from..from + size, to);
}

// The plane at to, in lines of whole words, becomes its own closure, if not too many lines have to be taken in; whether it is that,
// and nothing stands beside the yes.
fn search(work: &mut [u8], to: usize, pitch: usize) -> bool
    requires { (to + plane_size pitch ≤ length work.old) × (pitch ≤ 128) × (pitch % 8 ≡ 0) }
    ensures { MetAll to pitch work.old result work.new }
{
    let plane = Plane { work, to, pitch };
    let idle = sinks::idle_states(&plane);
    let order = sinks::search_order(&plane, &idle);
    meeting::meet_all(work, to, pitch, order.entries(), &idle)
}

// The same for lines of any width: a no where they are not of whole words.
fn by_search(work: &mut [u8], to: usize, pitch: usize) -> bool
    requires { (to + plane_size pitch ≤ length work.old) × (pitch ≤ 128) }
    ensures { MetAll to pitch work.old result work.new }
{
    pitch % 8 == 0 && search(work, to, pitch)
}

// The plane at to becomes the closure of the plane at from: on words where a line is no longer than one, by search, or else by
// rounds.
pub fn close_into(work: &mut [u8], from: usize, to: usize, pitch: usize)
    requires { Apart from to pitch (length work.old) }
    ensures { ClosedInto from to pitch work.old work.new }
{
    if pitch <= 4 {
        narrow::close_into(work, from, to, pitch);
        return;
    }
    copy_plane(work, from, to, pitch);
    if by_search(work, to, pitch) {
        return;
    }
    copy_plane(work, from, to, pitch);
    closure::close(work, to, pitch);
}

// Whether two planes of pitch * 8 states lie within len bytes, in lines of at most 128, and share no byte.
fn lie_apart(len: usize, from: usize, to: usize, pitch: usize) -> bool
    ensures { result ≡ lie_apart len from to pitch }
{
    lies_within(len, from, pitch)
        && lies_within(len, to, pitch)
        && (from + pitch * 8 * pitch <= to || to + pitch * 8 * pitch <= from)
}

// Close into, for the benchmark from Rust: answers whether both planes lie within work and share no byte, and closes if so. C takes
// the answer, a bool.
pub fn wegbaro_close_into(work: &mut [u8], from: usize, to: usize, pitch: usize) -> bool
    ensures { ClosedApart from to pitch work.old result work.new }
{
    let apart = lie_apart(work.len(), from, to, pitch);
    if apart {
        close_into(work, from, to, pitch);
    }
    apart
}
