// The widths of a network, their limits and the sizes that follow from them.
#![tactic(auto)]

ghost use Rattle.std.specs.Prelude.{◌≡◌, ◌≤◌};
ghost use Rattle.widths.specs.Widths.{width, states, plane_bytes, within_limits};

// The widths of a network: of headers, of ports and of switches. They may be outside their limits, as row 4 tells; what needs these
// asks for them.
#[derive(Clone, Copy, Debug, PartialEq, Eq)]
pub struct Widths {
    pub h: u8,
    pub p: u8,
    pub w: u8,
}

impl Widths {
    pub const MIN_H: u8 = 1;

    pub const MAX_H: u8 = 6;

    pub const MIN_P: u8 = 2;

    pub const MAX_P: u8 = 4;

    pub const MAX_W: u8 = 4;

    pub const MAX_N: u8 = 10;

    // All widths are within their limits.
    pub fn within_limits(self) -> bool
        ensures { result ≡ within_limits self }
    {
        (Self::MIN_H..=Self::MAX_H).contains(&self.h)
            && (Self::MIN_P..=Self::MAX_P).contains(&self.p)
            && self.w <= Self::MAX_W
            && 1 + self.h + self.p + self.w <= Self::MAX_N
    }

    // N, the bits of a state.
    pub fn bits(self) -> u8
        requires { width self ≤ 10 }
        ensures { result ≡ width self }
    {
        1 + self.h + self.p + self.w
    }

    // The number of states.
    pub fn states(self) -> usize
        requires { width self ≤ 10 }
        ensures { result ≡ states self }
    {
        let n = self.bits();
        1usize << n
    }

    // The bytes of a plane.
    pub fn plane_bytes(self) -> usize
        requires { width self ≤ 10 }
        ensures { result ≡ plane_bytes self }
    {
        let s = self.states();
        s * s / 8
    }
}
