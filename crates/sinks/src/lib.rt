// The states of a relation that lead nowhere, and an order of the others in which to search from them.
#![tactic(auto)]

ghost use Rattle.std.specs.Prelude.{◌≡◌, true, ◌+◌, ◌*◌, ◌%◌, ◌≤◌, ◌<◌, length, take, IfSome};
ghost use Rattle.std.specs.List.{between};
ghost use Rattle.planes.specs.Plane.{plane_size};
ghost use Rattle.words.specs.Words.{Lacks};
ghost use Rattle.sinks.specs.Turns.{Idle};

use words::States;

// The plane at byte `to` of work, read only, in lines of whole words.
#[derive(Clone, Copy)]
pub struct Plane<'a> {
    pub work: &'a [u8],
    pub to: usize,
    pub pitch: usize,
    ghost fits: { to + plane_size pitch ≤ length work.now },
    ghost narrow: { pitch ≤ 128 },
    ghost whole: { pitch % 8 ≡ 0 },
}

impl<'a> Plane<'a> {
    // How many states there are.
    pub fn states(&self) -> usize
        ensures { result ≡ self.now.pitch * 8 }
    {
        self.pitch * 8
    }

    // The line of state x.
    pub fn line(&self, x: usize) -> &'a [u8]
        requires { x < self.now.pitch * 8 }
        ensures part { result.now ≡ between (self.now.to + x * self.now.pitch) (self.now.to + x * self.now.pitch + self.now.pitch) self.now.work.now }
        ensures width { length result.now ≡ self.now.pitch }
    {
        let at = self.to + x * self.pitch;
        &self.work[at..at + self.pitch]
    }
}

// A list of at most 1024 states: an array and how much of it is used, as there is no heap, so no Vec.
#[derive(Drop)]
pub struct StateList {
    states: [u16; 1024],
    count: usize,
    ghost room: { count ≤ 1024 },
}

impl StateList {
    // The list of none.
    fn new() -> StateList {
        StateList {
            states: [0; 1024],
            count: 0,
        }
    }

    // Adds a state at the end, if there is room.
    fn push(&mut self, x: usize)
        requires { x < 65536 }
    {
        if self.count < 1024 {
            // A `usize` has no `From` into a `u16`; x fits.
            self.states[self.count] = x as u16;
            self.count += 1;
        }
    }

    // The last state.
    fn last(&self) -> Option<usize>
        ensures { IfSome result (λ x. x < 65536) }
    {
        if self.count == 0 {
            return None;
        }
        Some(usize::from(self.states[self.count - 1]))
    }

    // Takes the last state off.
    fn pop(&mut self) {
        self.count = self.count.saturating_sub(1);
    }

    // The states in order.
    pub fn entries(&self) -> &[u16]
        ensures { result.now ≡ take self.now.count self.now.states }
    {
        &self.states[..self.count]
    }
}

// Whether the bytes are all zero; a no will always do. Of records, `zeros` says it both ways; neither crate stands on the other.
fn all_zero(bytes: &[u8]) -> bool
    ensures { result ≡ true → Lacks bytes.now 0 (length bytes.now * 8) }
{
    let mut all = 0;
    for b in bytes {
        all |= *b;
    }
    all == 0
}

// Whether a line has no state; a no will always do. A line of 128 bytes is gone over by a loop of that length.
fn is_blank(line: &[u8]) -> bool
    requires { length line.now ≤ 128 }
    ensures { result ≡ true → Lacks line.now 0 (length line.now * 8) }
{
    if let Some(whole) = line.first_chunk::<128>() {
        return all_zero(whole);
    }
    States::of(line).next().is_none()
}

// The states of a plane whose lines have no state.
pub fn idle_states(plane: &Plane) -> [u8; 128]
    ensures { Idle plane.now.to plane.now.pitch result plane.now.work.now }
{
    let mut idle = [0u8; 128];
    for x in 0..plane.states() {
        if is_blank(plane.line(x)) {
            planes::set_bit(&mut idle, x);
        }
    }
    idle
}

// A state that x is related to and that is not in seen; any answer will do.
fn next_unseen(plane: &Plane, x: usize, seen: &[u8; 128]) -> Option<usize>
    ensures { IfSome result (λ y. y < plane.now.pitch * 8) }
{
    if plane.states() <= x {
        return None;
    }
    let line = plane.line(x);
    words::next_open(line, seen, line, plane.pitch)
}

// Adds the states that a search from root comes to, as it leaves them; the stack, empty before and after, is lent since it is
// large. Each state goes on and off it once: twice as many turns are enough.
fn search_from(
    plane: &Plane,
    root: usize,
    seen: &mut [u8; 128],
    stack: &mut StateList,
    order: &mut StateList,
)
    requires { root < plane.now.pitch * 8 }
{
    planes::set_bit(seen, root);
    stack.push(root);
    for _ in 0..plane.states() * 2 {
        let Some(x) = stack.last() else {
            return;
        };
        if let Some(y) = next_unseen(plane, x, seen) {
            planes::set_bit(seen, y);
            stack.push(y);
        } else {
            order.push(x);
            stack.pop();
        }
    }
}

// The states that are not idle in the order in which a depth-first search leaves them; any list will do.
pub fn search_order(plane: &Plane, idle: &[u8; 128]) -> StateList {
    let mut seen = *idle;
    let mut stack = StateList::new();
    let mut order = StateList::new();
    for root in 0..plane.states() {
        if !planes::get_bit(&seen, root) {
            search_from(plane, root, &mut seen, &mut stack, &mut order);
        }
    }
    order
}
