// Lines of bits, in the buffer and of 128 bytes: a line tests each state below 1024.
#![tactic(auto)]

ghost use Rattle.std.specs.Prelude.{◌≡◌, ℕ, ◌+◌, ◌*◌, ◌/◌, ◌≤◌, ◌<◌, length, get_or};
ghost use Rattle.basics.specs.Bit.{bit_of};
ghost use Rattle.planes.specs.Lines.{Laid};
ghost use Rattle.lines.specs.declared.Row.TheVariants.{Full, From};
ghost use Rattle.lines.specs.declared.Join.TheVariants.{Same, Two};
ghost use Rattle.lines.specs.Shapes.{op_byte, unit_byte, over, op_of, weight_if, full_byte, bit_byte, bits_of, Pushed, Span, row_byte, pair, pair_byte, Ready, Even, join_byte, JoinWithin, Joins};

// An operation on tests.
#[derive(Clone, Copy, Debug, PartialEq, Eq)]
pub enum Op {
    Not,
    And,
    Or,
}

impl Op {
    // The operation on the eight tests of a byte; NOT is of the first.
    pub fn byte(self, a: u8, b: u8) -> u8
        ensures { result ≡ op_byte self a b }
    {
        match self {
            Op::Not => a ^ 255,
            Op::And => a & b,
            Op::Or => a | b,
        }
    }
}

// What quantifies: for all, and for some.
#[derive(Clone, Copy, Debug, PartialEq, Eq)]
pub enum Quantifier {
    All,
    Any,
}

impl Quantifier {
    // The operation that takes in test after test.
    pub fn op(self) -> Op
        ensures { result ≡ op_of self }
    {
        match self {
            Quantifier::All => Op::And,
            Quantifier::Any => Op::Or,
        }
    }
}

// The bytes of a line: one over and over, or those from some byte of the buffer on.
#[derive(Clone, Copy, Debug, PartialEq, Eq)]
pub enum Row {
    Full(u8),
    From(usize),
}

// An operation on the bytes of two rows.
#[derive(Clone, Copy, Debug, PartialEq, Eq)]
pub struct Rows {
    pub op: Op,
    pub first: Row,
    pub second: Row,
}

// An operation on the bytes from two places of a buffer on.
#[derive(Clone, Copy, Debug, PartialEq, Eq)]
pub struct Pair {
    pub op: Op,
    pub first: usize,
    pub second: usize,
}

// The len bytes from to on become f of those from a on. A caller's f is a `move` closure: behind a reference, what it holds would
// be read anew for each byte. That len bytes lie in a buffer stays a clause here and below: the buffer is lent on.
fn lay_from<F: Fn(u8) -> u8>(work: &mut [u8], a: usize, to: usize, len: usize, f: F)
    requires span { Span work.old len to a }
    requires len_in_bounds { to + len ≤ length work.old }
    requires callable { F.IsAlwaysCallable f }
    ensures { (g : ℕ → ℕ) → ((x v : ℕ) → F.post f x v → v ≡ g x) → Laid (λ j. g (get_or work.old (a + j) 0)) to len work.old work.new }
{
    for j in 0..len {
        work[to + j] = f(work[a + j]);
    }
}

// The len bytes from to on become the operation on those from two places on. This, take_span and lay_bits are three loops: they
// read and write other buffers, and one over a closure would need a contract of every buffer that it passes through.
pub fn join_span(work: &mut [u8], s: Pair, to: usize, len: usize)
    requires span { Span work.old len to s.first }
    requires span_2 { Span work.old len to s.second }
    requires len_in_bounds { to + len ≤ length work.old }
    ensures { Laid (λ j. pair_byte s work.old j) to len work.old work.new }
{
    let (o, a, b) = (s.op, s.first, s.second);
    for j in 0..len {
        work[to + j] = o.byte(work[a + j], work[b + j]);
    }
}

// The len bytes from to on become the operation on those of two rows.
pub fn join_rows(work: &mut [u8], r: Rows, to: usize, len: usize)
    requires ready { Ready work.old len to r.first }
    requires ready_2 { Ready work.old len to r.second }
    requires len_in_bounds { to + len ≤ length work.old }
    ensures { Laid (λ j. op_byte r.op (row_byte r.first work.old j) (row_byte r.second work.old j)) to len work.old work.new }
{
    let o = r.op;
    match (r.first, r.second) {
        (Row::Full(c), Row::Full(d)) => planes::fill(work, o.byte(c, d), to, len),
        (Row::Full(c), Row::From(b)) => lay_from(work, b, to, len, move |y| o.byte(c, y)),
        (Row::From(a), Row::Full(d)) => lay_from(work, a, to, len, move |x| o.byte(x, d)),
        (Row::From(a), Row::From(b)) => {
            let both = Pair {
                op: o,
                first: a,
                second: b,
            };
            join_span(work, both, to, len);
        }
    }
}

// A byte of eight equal tests.
pub fn full(t: bool) -> u8
    ensures { result ≡ full_byte t }
{
    if t { 255 } else { 0 }
}

// The weight of bit i of a byte where t is true, else 0.
pub fn weight_if(t: bool, i: usize) -> u8
    requires { i < 8 }
    ensures { result ≡ weight_if t i }
{
    if t { 1 << i } else { 0 }
}

// Sets bit z of a line where t is true.
pub fn push(r: &mut [u8; 128], z: usize, t: bool)
    requires { z < 1024 }
    ensures { Pushed z t r.old r.new }
{
    r[z / 8] |= weight_if(t, z % 8);
}

// Byte j of the line that tests bit i. The arms are numbers, no kinds: the masks of the three bits that change within a byte.
fn bit_byte(i: usize, j: usize) -> u8
    requires { i < 64 }
    ensures { result ≡ bit_byte i j }
{
    match i {
        0 => 170,
        1 => 204,
        2 => 240,
        3.. => full((j >> (i - 3)) % 2 == 1),
    }
}

// The len bytes from to on become those of the line that tests bit i.
pub fn lay_bits(work: &mut [u8], i: usize, to: usize, len: usize)
    requires i_bound { i < 64 }
    requires len_in_bounds { to + len ≤ length work.old }
    ensures { Laid (bit_byte i) to len work.old work.new }
{
    for j in 0..len {
        work[to + j] = bit_byte(i, j);
    }
}

// What the operation gives of no test, in each bit of a byte.
pub fn units(o: Op) -> u8
    ensures { result ≡ unit_byte o }
{
    match o {
        Op::Not => 0,
        Op::And => 255,
        Op::Or => 0,
    }
}

// All bits of a byte, or some.
fn byte_over(q: Quantifier, b: u8) -> bool
    ensures { result ≡ over (op_of q) 8 (bit_of b) }
{
    match q {
        Quantifier::All => b == 255,
        Quantifier::Any => b != 0,
    }
}

// All bits of len bytes, or some.
fn over_bytes<F: Fn(usize) -> u8>(q: Quantifier, len: usize, get: F) -> bool
    requires callable { (j : ℕ) → j < len → F.pre get j }
    ensures { (g : ℕ → ℕ) → ((j v : ℕ) → F.post get j v → v ≡ g j) → result ≡ over (op_of q) (len * 8) (bits_of g) }
{
    let o = q.op();
    let mut c = units(o);
    for j in 0..len {
        c = o.byte(c, get(j));
    }
    byte_over(q, c)
}

// All bits of the len bytes from at on, or some.
pub fn line_over(work: &[u8], q: Quantifier, at: usize, len: usize) -> bool
    requires len_in_bounds { at + len ≤ length work.now }
    ensures { result ≡ over (op_of q) (len * 8) (bits_of (λ j. get_or work.now (at + j) 0)) }
{
    over_bytes(q, len, move |j| work[at + j])
}

// The bytes of an operation on two rows: one over and over, or an operation on those from two places on.
#[derive(Clone, Copy, Debug, PartialEq, Eq)]
pub enum Join {
    Same(u8),
    Two(Pair),
}

// What an operation gives of the bytes from a on and of equal tests, where 0 gives low and 255 gives high: one byte, or what it
// gives of those bytes taken twice.
fn join_full(t: Op, low: u8, high: u8, a: usize) -> Join
    ensures one { low ≡ high → result ≡ Same low }
    ensures own { (low ≡ high → ⊥) → result ≡ Two (pair t a a) }
{
    if low == high {
        Join::Same(low)
    } else {
        Join::Two(Pair {
            op: t,
            first: a,
            second: a,
        })
    }
}

// The operation on two rows.
pub fn join_of(r: Rows) -> Join
    requires even { Even r.first × Even r.second }
    ensures { Joins r.op r.first r.second result }
{
    let t = r.op;
    match (r.first, r.second) {
        (Row::Full(c), Row::Full(d)) => Join::Same(t.byte(c, d)),
        (Row::Full(c), Row::From(b)) => join_full(t, t.byte(c, 0), t.byte(c, 255), b),
        (Row::From(a), Row::Full(d)) => join_full(t, t.byte(0, d), t.byte(255, d), a),
        (Row::From(a), Row::From(b)) => Join::Two(Pair {
            op: t,
            first: a,
            second: b,
        }),
    }
}

// All bits of the len bytes of a join, or some.
pub fn join_over(work: &[u8], q: Quantifier, e: Join, len: usize) -> bool
    requires join_within { JoinWithin (length work.now) len e }
    requires len_nonzero { 0 < len }
    ensures { result ≡ over (op_of q) (len * 8) (bits_of (join_byte e work.now)) }
{
    match e {
        Join::Same(c) => byte_over(q, c),
        Join::Two(s) => over_bytes(
            q,
            len,
            move |j| s.op.byte(work[s.first + j], work[s.second + j]),
        ),
    }
}

// The first len bytes of r become the operation o on them and on what s gives of those from its two places on.
fn take_span(r: &mut [u8], work: &[u8], o: Op, s: Pair, len: usize)
    requires len_in_bounds { len ≤ length r.old }
    requires len_in_bounds_2 { (s.first + len ≤ length work.now) × (s.second + len ≤ length work.now) }
    ensures { Laid (λ j. op_byte o (get_or r.old j 0) (pair_byte s work.now j)) 0 len r.old r.new }
{
    let (t, a, b) = (s.op, s.first, s.second);
    for j in 0..len {
        r[j] = o.byte(r[j], t.byte(work[a + j], work[b + j]));
    }
}

// The first len bytes of r become the operation on them and those of a join.
pub fn take_join(r: &mut [u8], work: &[u8], o: Op, e: Join, len: usize)
    requires len_in_bounds { len ≤ length r.old }
    requires join_within { JoinWithin (length work.now) len e }
    ensures { Laid (λ j. op_byte o (get_or r.old j 0) (join_byte e work.now j)) 0 len r.old r.new }
{
    match e {
        Join::Same(c) => lay_from(r, 0, 0, len, move |x| o.byte(x, c)),
        Join::Two(s) => take_span(r, work, o, s, len),
    }
}
