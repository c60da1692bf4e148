// The search for a route: distances backwards from the end, over the exchanged steps, then the route forwards by the smallest
// state that is one step nearer. The work buffer has the steps in its first plane and the exchanged ones in its second, in lines
// of pitch bytes.
#![tactic(auto)]

ghost use Rattle.std.specs.Prelude.{◌≡◌, ℕ, ◌+◌, ◌*◌, ◌<◌, ◌≤◌, length, get_or};
ghost use Rattle.planes.specs.Plane.{cell};
ghost use Rattle.trace.specs.Search.{Searchable, LineOf, Marked, Advanced, Measured, Nearer, Writable, RouteWritten, Drawn};

use words::States;

// The steps at the front of work: of the two planes there the second has those of the first exchanged.
#[derive(Clone, Copy)]
struct Steps<'a> {
    work: &'a [u8],
    pitch: usize,
    ghost searchable: { Searchable pitch work.now },
}

impl<'a> Steps<'a> {
    // How many states there are.
    fn states(&self) -> usize
        ensures { result ≡ self.now.pitch * 8 }
    {
        self.pitch * 8
    }

    // The states that x steps to. This and `before` are two, since each says of a plane of its own what the bits mean.
    fn after(&self, x: usize) -> States<'a>
        requires { x < self.now.pitch * 8 }
        ensures line { LineOf (λ y. cell self.now.work.now 0 self.now.pitch x y) self.now.pitch result.line.now }
        ensures start { result.next ≡ 0 }
    {
        let work = self.work;
        let at = x * self.pitch;
        States::of(&work[at..at + self.pitch])
    }

    // The states that step to x.
    fn before(&self, x: usize) -> States<'a>
        requires { x < self.now.pitch * 8 }
        ensures line { LineOf (λ y. cell self.now.work.now 0 self.now.pitch y x) self.now.pitch result.line.now }
        ensures start { result.next ≡ 0 }
    {
        let work = self.work;
        let at = self.pitch * 8 * self.pitch + x * self.pitch;
        States::of(&work[at..at + self.pitch])
    }
}

// Gives the distance k + 1 to each state without one that steps to x. A distance of 0 says that none is known, as `Marked` and
// `Measured` say: an Option for each would take twice the stack.
fn mark(steps: &Steps, distances: &mut [u16; 1024], x: usize, k: usize)
    requires { (x < steps.now.pitch * 8) × (k < 1024) }
    ensures { Marked steps.now.work.now steps.now.pitch x k (steps.now.pitch * 8) distances.old distances.new }
{
    // A `usize` has no `From` into a `u16`; k + 1 is at most 1024.
    let distance = (k + 1) as u16;
    for y in steps.before(x) {
        if distances[y] == 0 {
            distances[y] = distance;
        }
    }
}

// Goes one step back from each state at the distance k, and answers whether there is one.
fn advance(steps: &Steps, distances: &mut [u16; 1024], k: usize) -> bool
    requires { (1 ≤ k) × (k < 1024) }
    ensures { Advanced steps.now.work.now steps.now.pitch k (steps.now.pitch * 8) distances.old result distances.new }
{
    let mut some = false;
    for x in 0..steps.states() {
        if usize::from(distances[x]) == k {
            mark(steps, distances, x, k);
            some = true;
        }
    }
    some
}

// Works out the distances to the end, until the start has one or no state is farther.
fn measure(steps: &Steps, distances: &mut [u16; 1024], start: usize, end: usize)
    requires within { (start < steps.now.pitch * 8) × (end < steps.now.pitch * 8) }
    requires unknown { (x : ℕ) → get_or distances.old x 0 ≡ 0 }
    ensures { Measured steps.now.work.now steps.now.pitch start end distances.new }
{
    mark(steps, distances, end, 0);
    for k in 1..steps.states() {
        if distances[start] != 0 {
            return;
        }
        if !advance(steps, distances, k) {
            return;
        }
    }
}

// The smallest state that x steps to and that is at the distance k. Start, end and list go on as C lends them from here on: a
// struct would be taken apart at each call.
fn nearer(steps: &Steps, distances: &[u16; 1024], x: usize, k: usize) -> Option<usize>
    requires { x < steps.now.pitch * 8 }
    ensures { Nearer steps.now.work.now steps.now.pitch distances.now x k result }
{
    for y in steps.after(x) {
        if usize::from(distances[y]) == k {
            return Some(y);
        }
    }
    None
}

// Writes the route into the list, by the distances, and answers the count of its states.
fn write_route(
    steps: &Steps,
    distances: &[u16; 1024],
    start: usize,
    end: usize,
    list: &mut [u16],
) -> usize
    requires { Writable steps.now.work.now steps.now.pitch start end distances.now list.old }
    ensures { RouteWritten steps.now.work.now steps.now.pitch start end distances.now list.old result list.new }
{
    // A `usize` has no `From` into a `u16`; each state is below 1024.
    let last = usize::from(distances[start]);
    list[0] = start as u16;
    let mut x = start;
    for i in 1..last {
        x = nearer(steps, distances, x, last - i).unwrap();
        list[i] = x as u16;
    }
    list[last] = end as u16;
    last + 1
}

// The same over distances that are not known yet; where there is no route, the list is as before.
fn draw_by(
    steps: &Steps,
    distances: &mut [u16; 1024],
    start: usize,
    end: usize,
    list: &mut [u16],
) -> Option<usize>
    requires within { (start < steps.now.pitch * 8) × (end < steps.now.pitch * 8) × (steps.now.pitch * 8 + 1 ≤ length list.old) }
    requires unknown { (x : ℕ) → get_or distances.old x 0 ≡ 0 }
    ensures { Drawn steps.now.work.now steps.now.pitch start end list.old result list.new }
{
    measure(steps, distances, start, end);
    if distances[start] == 0 {
        return None;
    }
    Some(write_route(steps, distances, start, end, list))
}

// Draws the route from start to end into the list, and answers the count of its states, if there is one.
pub fn draw(work: &[u8], pitch: usize, start: usize, end: usize, list: &mut [u16]) -> Option<usize>
    requires { Searchable pitch work.now × (start < pitch * 8) × (end < pitch * 8) × (pitch * 8 + 1 ≤ length list.old) }
    ensures { Drawn work.now pitch start end list.old result list.new }
{
    let steps = Steps { work, pitch };
    let mut distances = [0u16; 1024];
    draw_by(&steps, &mut distances, start, end, list)
}
