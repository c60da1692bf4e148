// The search from each state of a plane over the lines of those met before.
#![tactic(auto)]

ghost use Rattle.std.specs.Prelude.{◌≡◌, true, ℕ, ◌+◌, ◌*◌, ◌%◌, ◌≤◌, ◌<◌, length, is_some, All};
ghost use Rattle.planes.specs.Plane.{bit, plane_size};
ghost use Rattle.sinks.specs.Turns.{Taken, Idle, Through, Searched, Met, MetAll};
ghost use Rattle.words.specs.Words.{Open};

use sinks::Plane;

// What is known of a plane when the search from a line begins: the states that lead nowhere, those that are met, whose lines have
// the lines of their states, and the one met last.
#[derive(Clone, Copy)]
struct Known<'a, 'b> {
    plane: Plane<'a>,
    idle: &'b [u8; 128],
    met: &'b [u8; 128],
    last: usize,
    ghost nowhere: { Idle plane.to plane.pitch idle.now plane.work.now },
    ghost through: { Through plane.to plane.pitch met.now plane.work.now },
}

// Whether all bits of the bytes are set.
fn are_full(bytes: &[u8]) -> bool
    ensures { result ≡ true → All (λ b. b ≡ 255) bytes.now }
{
    bytes.iter().all(|b| *b == 255)
}

// Whether all bits of the first pitch bytes of r are set.
fn all_of(r: &[u8; 128], pitch: usize) -> bool
    requires { pitch ≤ 128 }
    ensures { result ≡ true → (y : ℕ) → y < pitch * 8 → bit r.now y ≡ true }
{
    are_full(&r[..pitch])
}

impl<'a, 'b> Known<'a, 'b> {
    // Whether k is a state of line that is not in done; a no will always do.
    fn is_open(&self, line: &[u8; 128], done: &[u8; 128], k: usize) -> bool
        ensures { result ≡ true → (k < self.now.plane.pitch * 8) × (bit line.now k ≡ true) }
    {
        k < self.plane.states() && planes::get_bit(line, k) && !planes::get_bit(done, k)
    }

    // A state of line that is not in done: the one met last or another one that is met, if there is one, since its line has all
    // that can be reached from it.
    fn pick(&self, line: &[u8; 128], done: &[u8; 128]) -> Option<usize>
        ensures { Open line.now done.now line.now self.now.plane.pitch result }
    {
        if self.is_open(line, done, self.last) {
            return Some(self.last);
        }
        let pitch = self.plane.pitch;
        let met = self.met;
        let any = words::next_open(line, done, line, pitch)?;
        words::next_open(line, done, met, pitch).or(Some(any))
    }

    // ORs line k of the plane into line. Done is k then, and where k is met, every state of its line.
    fn take(&self, k: usize, line: &mut [u8; 128], done: &mut [u8; 128])
        requires { k < self.now.plane.pitch * 8 }
        ensures { Taken self.now.plane.work.now self.now.plane.to self.now.plane.pitch k self.now.met.now line.old done.old line.new done.new }
    {
        let taken = self.plane.line(k);
        planes::or_bytes(line, 0, taken);
        planes::set_bit(done, k);
        let met = self.met;
        if planes::get_bit(met, k) {
            planes::or_bytes(done, 0, taken);
        }
    }

    // Takes into line the lines of its states, those that came with them too, at most so many; answers how many may still be
    // taken in, and none where something may be left.
    fn search_line(&self, line: &mut [u8; 128], most: usize) -> Option<usize>
        ensures { Searched self.now.plane.work.now self.now.plane.to self.now.plane.pitch line.old (is_some result) line.new }
    {
        let mut done = *self.idle;
        for left in (1..=most).rev() {
            let Some(k) = self.pick(line, &done) else {
                return Some(left);
            };
            self.take(k, line, &mut done);
        }
        None
    }
}

// How far the searches are: the states that lead nowhere, those that are met, the one met last, and how many lines may still be
// taken in.
#[derive(Drop)]
struct Progress<'a> {
    idle: &'a [u8; 128],
    met: [u8; 128],
    last: usize,
    left: usize,
}

// The place of the plane stays three parameters here and below: `Plane` lends work to be read alone, and a struct that lends it
// to be written would have to say at each function that it keeps its place.

// Line x of the plane at to gets all that can be reached from x, and x is met then, if enough lines may be taken in; answers how
// many may still be. Where x is no state or is met, nothing is done.
fn meet(
    work: &mut [u8],
    to: usize,
    pitch: usize,
    x: usize,
    progress: &mut Progress,
) -> Option<usize>
    requires pitch_in_bounds { (to + plane_size pitch ≤ length work.old) × (pitch ≤ 128) × (pitch % 8 ≡ 0) }
    requires idle { Idle to pitch progress.old.idle.now work.old × Through to pitch progress.old.met work.old }
    ensures { Met to pitch work.old progress.new.met work.new × (progress.new.idle.now ≡ progress.old.idle.now) }
{
    if pitch * 8 <= x || planes::get_bit(&progress.met, x) {
        return Some(progress.left);
    }
    let plane = Plane { work, to, pitch };
    let at = to + x * pitch;
    let mut line = planes::load_line(work, at, pitch);
    let known = Known {
        plane,
        idle: progress.idle,
        met: &progress.met,
        last: progress.last,
    };
    let left = known.search_line(&mut line, progress.left)?;
    planes::put_line(work, at, &line, pitch);
    planes::set_bit(&mut progress.met, x);
    Some(left)
}

// The lines of the plane at to in this order, with 16 lines for each to take in; whether all are met, and nothing stands beside the
// yes.
pub fn meet_all(work: &mut [u8], to: usize, pitch: usize, order: &[u16], idle: &[u8; 128]) -> bool
    requires pitch_in_bounds { (to + plane_size pitch ≤ length work.old) × (pitch ≤ 128) × (pitch % 8 ≡ 0) }
    requires idle { Idle to pitch idle.now work.old }
    ensures { MetAll to pitch work.old result work.new }
{
    let mut progress = Progress {
        idle,
        met: *idle,
        last: 0,
        left: pitch * 128,
    };
    for entry in order {
        let x = usize::from(*entry);
        // Out of a loop that also goes on with what is met.
        let Some(left) = meet(work, to, pitch, x, &mut progress) else {
            return false;
        };
        progress.left = left;
        progress.last = x;
    }
    all_of(&progress.met, pitch)
}
