// The numbers of packet states.
#![tactic(auto)]

ghost use Rattle.std.specs.Prelude.{◌≡◌, true, ◌+◌, ◌*◌, ◌/◌, ◌%◌, ◌^◌, ◌≤◌, ◌<◌};
ghost use Rattle.widths.specs.Widths.{within_limits};
ghost use Rattle.format.specs.State.{state, header_of, port_of, switch_of, direction_of};
ghost use Rattle.states.specs.Frames.{frame_of, FitsIn};

use widths::Widths;

// A frame at a port of a switch, by its header.
#[derive(Clone, Copy)]
pub struct Frame {
    pub switch: u8,
    pub port: u8,
    pub header: u8,
}

impl Frame {
    // The frame of a state.
    #[tactic(auto, using(widths::specs::Laws::Limits::limits, format::specs::Laws::States::switch_lt, format::specs::Laws::States::port_lt, format::specs::Laws::States::header_lt), unfolding(format::specs::State::switch_of, format::specs::State::port_of, format::specs::State::header_of))]
    pub fn of_state(w: Widths, s: usize) -> Self
        requires { within_limits w ≡ true }
        ensures is { result ≡ frame_of w s }
        ensures fits { FitsIn w result }
    {
        Frame {
            switch: bits(s, w.h + w.p, w.w),
            port: bits(s, w.h, w.p),
            header: bits(s, 0, w.h),
        }
    }

    // The number of its state in a direction: 0 arriving, 1 departing, a number since `state` counts with it.
    #[tactic(auto, using(widths::specs::Laws::Limits::limits, basics::specs::Laws::Shifts::scaled, format::specs::Laws::States::state_digits))]
    pub fn number(self, w: Widths, direction: u8) -> usize
        requires { within_limits w ≡ true }
        ensures { result ≡ state w direction self.switch self.port self.header }
    {
        let at_switch = join(usize::from(direction), w.w, self.switch);
        let at_port = join(at_switch, w.p, self.port);
        join(at_port, w.h, self.header)
    }

    // The number of the state in which it arrives.
    pub fn arriving(self, w: Widths) -> usize
        requires { within_limits w ≡ true }
        ensures { result ≡ state w 0 self.switch self.port self.header }
    {
        self.number(w, 0)
    }

    // The number of the state in which it departs.
    pub fn departing(self, w: Widths) -> usize
        requires { within_limits w ≡ true }
        ensures { result ≡ state w 1 self.switch self.port self.header }
    {
        self.number(w, 1)
    }
}

// The number with low in its k bits below a.
#[tactic(auto, using(basics::specs::Laws::Shifts::shifted, basics::specs::Laws::Shifts::scaled))]
pub fn join(a: usize, k: u8, low: u8) -> usize
    requires { (a < 16777216) × (k ≤ 6) }
    ensures { result ≡ a * 2 ^ k + low }
{
    (a << k) + usize::from(low)
}

// How many values k bits have.
#[tactic(auto, using(basics::specs::Laws::Shifts::shl_one))]
pub fn values(k: u8) -> u8
    requires { k ≤ 6 }
    ensures { result ≡ 2 ^ k }
{
    1u8 << k
}

// The k bits of s from bit i on.
#[tactic(auto, using(basics::specs::Laws::Shifts::shl_one))]
fn bits(s: usize, i: u8, k: u8) -> u8
    requires { (i < 64) × (k ≤ 8) }
    ensures { result ≡ s / 2 ^ i % 2 ^ k }
{
    // A `usize` has no `From` into a `u8`; k bits of it, at most 8, fit.
    ((s >> i) % (1usize << k)) as u8
}

// The direction of a state: 0 arriving, 1 departing, a number as `direction_of` is.
#[tactic(auto, using(widths::specs::Laws::Limits::limits), unfolding(format::specs::State::direction_of))]
pub fn direction(w: Widths, s: usize) -> usize
    requires { within_limits w ≡ true }
    ensures { result ≡ direction_of w s }
{
    s >> (w.h + w.p + w.w)
}
