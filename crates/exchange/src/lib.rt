// A plane with X and Y exchanged: by its set bits, or by blocks of eight by eight bits.
#![tactic(auto)]

ghost use Rattle.std.specs.Prelude.{◌≡◌, true, List, ℕ, ◌+◌, ◌*◌, ◌/◌, ◌%◌, ◌^◌, ◌≤◌, ◌<◌, length};
ghost use Rattle.std.specs.Int.Bits.{bit_and, bit_or};
ghost use Rattle.planes.specs.Plane.{cell, plane_size, Apart};
ghost use Rattle.planes.specs.Lines.{Made};
ghost use Rattle.exchange.specs.Swapped.{Swapped};
ghost use Rattle.exchange.specs.Blocks.{Block, Turned, Spread, Blocked};

use words::States;

// Eight bytes of p, pitch apart, as one number, the first one lowest.
fn block_at(p: &[u8], a: usize, pitch: usize) -> u64
    requires { a + 7 * pitch < length p.now }
    ensures { Block a pitch p.now result }
{
    let mut v: u64 = 0;
    for i in (0..8).rev() {
        v = (v << 8) | u64::from(p[a + i * pitch]);
    }
    v
}

// The bits of v that keep has stay; those that part has change places with those that stand so many places above them.
fn mixed(v: u64, keep: u64, part: u64, by: usize) -> u64
    requires { by < 64 }
    ensures { result ≡ bit_or (bit_or (bit_and keep v) (bit_and part v * 2 ^ by % 2 ^ 64)) (bit_and part (v / 2 ^ by)) }
{
    (keep & v) | ((part & v) << by) | (part & (v >> by))
}

// The block v with lines and columns exchanged: bit by bit, then two by two, then four by four.
fn turned(v: u64) -> u64
    ensures { Turned v result }
{
    let ones = mixed(v, 0xAA55AA55AA55AA55, 0x00AA00AA00AA00AA, 7);
    let twos = mixed(ones, 0xCCCC3333CCCC3333, 0x0000CCCC0000CCCC, 14);
    mixed(twos, 0xF0F0F0F00F0F0F0F, 0x00000000F0F0F0F0, 28)
}

// The bytes of v become eight bytes of p, pitch apart.
fn put_block(p: &mut [u8], a: usize, pitch: usize, v: u64)
    requires { (a + 7 * pitch < length p.old) × (0 < pitch) }
    ensures { Spread a pitch 8 v p.old p.new }
{
    let bytes = v.to_le_bytes();
    for i in 0..8 {
        p[a + i * pitch] = bytes[i];
    }
}

// Two planes that share no byte of a buffer of len bytes, in lines of pitch bytes: the one at to is to become that at from with X
// and Y exchanged. The buffer stands beside it, of that length: with a `&mut` to it inside, each method would have to say that
// the pair keeps its place.
#[derive(Clone, Copy)]
struct Planes {
    from: usize,
    to: usize,
    pitch: usize,
    len: usize,
    ghost narrow: { pitch ≤ 128 },
    ghost first: { from + plane_size pitch ≤ len },
    ghost second: { to + plane_size pitch ≤ len },
    ghost parted: { to < from + plane_size pitch → to + plane_size pitch ≤ from },
}

impl Planes {
    // Sets, in the plane at to, bit x of the line of each state that line x of the plane at from has.
    fn swap_line(self, work: &mut [u8], x: usize)
        requires { (length work.old ≡ self.len) × (x < self.pitch * 8) × (self.pitch % 8 ≡ 0) }
        ensures { (before : List ℕ) → Swapped self.from self.to self.pitch x 0 before work.old
            → Swapped self.from self.to self.pitch (x + 1) 0 before work.new }
    {
        let line = planes::load_line(work, self.from + x * self.pitch, self.pitch);
        for y in States::of(&line[..self.pitch]) {
            planes::set_at(work, self.to + y * self.pitch, x);
        }
    }

    // The exchange by set bits, for lines of whole words.
    fn by_bits(self, work: &mut [u8])
        requires { (length work.old ≡ self.len) × (self.pitch % 8 ≡ 0) }
        ensures { Made (λ x y. cell work.old self.from self.pitch y x) self.pitch self.to (self.pitch * 8) work.old work.new }
    {
        let states = self.pitch * 8;
        planes::clear(work, self.to, states * self.pitch);
        for x in 0..states {
            self.swap_line(work, x);
        }
    }

    // Byte r of eight lines of the plane at to, from line 8 * c on, from byte c of as many lines of the plane at from.
    fn turn_block(self, work: &mut [u8], c: usize, r: usize)
        requires { (length work.old ≡ self.len) × (c < self.pitch) × (r < self.pitch) }
        ensures { (before : List ℕ) → Blocked self.from self.to self.pitch c r before work.old
            → Blocked self.from self.to self.pitch c (r + 1) before work.new }
    {
        let v = block_at(work, self.from + r * 8 * self.pitch + c, self.pitch);
        put_block(
            work,
            self.to + c * 8 * self.pitch + r,
            self.pitch,
            turned(v),
        );
    }

    // Eight lines of the plane at to, from line 8 * c on.
    fn turn_lines(self, work: &mut [u8], c: usize)
        requires { (length work.old ≡ self.len) × (c < self.pitch) }
        ensures { (before : List ℕ) → Blocked self.from self.to self.pitch c 0 before work.old
            → Blocked self.from self.to self.pitch (c + 1) 0 before work.new }
    {
        for r in 0..self.pitch {
            self.turn_block(work, c, r);
        }
    }

    // The exchange by blocks.
    fn by_blocks(self, work: &mut [u8])
        requires { length work.old ≡ self.len }
        ensures { Made (λ x y. cell work.old self.from self.pitch y x) self.pitch self.to (self.pitch * 8) work.old work.new }
    {
        for c in 0..self.pitch {
            self.turn_lines(work, c);
        }
    }

    // The set bits in a word of every fourth line or so of the plane at from, one column after the other; any answer will do.
    fn sampled(self, work: &[u8]) -> usize
        requires { length work.now ≡ self.len }
    {
        let size = self.pitch * 8 * self.pitch;
        let step = self.pitch * 4 + 8;
        let mut count = 0;
        for i in 0..(size + step - 8) / step {
            // A `u32` has no `From` into a `usize`; at most 64 bits are set.
            count += words::eight(work, self.from + i * step).count_ones() as usize;
        }
        count
    }

    // Whether set bits are the quicker way, as measured: lines of whole words, and few set bits in the sample. A no will always do.
    fn has_few(self, work: &[u8]) -> bool
        requires { length work.now ≡ self.len }
        ensures { result ≡ true → self.pitch % 8 ≡ 0 }
    {
        self.pitch % 8 == 0 && self.sampled(work) < self.pitch + 32
    }
}

// The plane at to becomes that at from with X and Y exchanged: by set bits where they are few, by blocks else.
pub fn exchange(work: &mut [u8], from: usize, to: usize, pitch: usize)
    requires { Apart from to pitch (length work.old) }
    ensures { Made (λ x y. cell work.old from pitch y x) pitch to (pitch * 8) work.old work.new }
{
    let len = work.len();
    let apart = Planes {
        from,
        to,
        pitch,
        len,
    };
    if apart.has_few(work) {
        apart.by_bits(work);
    } else {
        apart.by_blocks(work);
    }
}
