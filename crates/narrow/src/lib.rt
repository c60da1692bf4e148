// The closure of a plane of at most 32 states in another, by Warshall's algorithm on words: a line is one word.
#![tactic(auto)]

ghost use Rattle.std.specs.Prelude.{◌≡◌, ◌&&◌, cond, ltb, ℕ, ◌+◌, ◌*◌, ◌≤◌, ◌<◌, length, get_or};
ghost use Rattle.basics.specs.Bit.{bit_of};
ghost use Rattle.planes.specs.Plane.{cell, plane_size};
ghost use Rattle.planes.specs.Lines.{Laid, Made};
ghost use Rattle.basics.specs.Tabulated.{grid_test};
ghost use Rattle.walks.specs.Computed.{closed};
ghost use Rattle.narrow.specs.Words.{Joins, test, Lines, Spread, ClosedWords, byte_of};

// A pitch of at most 4 stays a number: it is counted with in each function, so that a type of its own would be no plainer.

// Byte j of the pitch bytes of p from at on, or 0 behind them.
fn byte_at(p: &[u8], at: usize, pitch: usize, j: usize) -> u8
    requires { at + pitch ≤ length p.now }
    ensures { result ≡ cond (ltb j pitch) (get_or p.now (at + j) 0) 0 }
{
    if j < pitch { p[at + j] } else { 0 }
}

// The pitch bytes of p from at on as one word, the lowest first. Each byte is read by itself: a call that copies so few takes
// longer than that.
fn word_at(p: &[u8], at: usize, pitch: usize) -> u32
    requires { (at + pitch ≤ length p.now) × (pitch ≤ 4) }
    ensures { Joins p.now at pitch result }
{
    u32::from_le_bytes([
        byte_at(p, at, pitch, 0),
        byte_at(p, at, pitch, 1),
        byte_at(p, at, pitch, 2),
        byte_at(p, at, pitch, 3),
    ])
}

// The lines of the plane at from.
fn load(work: &[u8], from: usize, pitch: usize) -> [u32; 32]
    requires { (from + plane_size pitch ≤ length work.now) × (pitch ≤ 4) }
    ensures { Lines (cell work.now from pitch) (pitch * 8) result }
{
    let mut words = [0u32; 32];
    for x in 0..pitch * 8 {
        words[x] = word_at(work, from + x * pitch, pitch);
    }
    words
}

// Bit k of a word: `planes::bit_of` takes words of 64 bits, of which the compiler has half as many in a register.
fn has(v: u32, k: usize) -> bool
    requires { k < 32 }
    ensures { result ≡ bit_of v k }
{
    (v >> k) % 2 == 1
}

// A word, or one without a bit.
fn word_if(t: bool, v: u32) -> u32
    ensures { (i : ℕ) → bit_of result i ≡ (t && bit_of v i) }
{
    if t { v } else { 0 }
}

// The round of state k: each state related to k becomes related to what k is related to.
fn round(words: &mut [u32; 32], k: usize)
    requires { k < 32 }
    ensures { Spread k (get_or words.old k 0) 32 words.old words.new }
{
    let line = words[k];
    for x in 0..32 {
        words[x] |= word_if(has(words[x], k), line);
    }
}

// A round for each of the first n states.
fn rounds(words: &mut [u32; 32], n: usize)
    requires { n ≤ 32 }
    ensures { ClosedWords n words.old words.new }
{
    for k in 0..n {
        round(words, k);
    }
}

// Byte j of a word.
fn byte_of(v: u32, j: usize) -> u8
    requires { j < 4 }
    ensures { result ≡ byte_of v j }
{
    // A `u32` has no `From` into a `u8`; a remainder by 256 fits.
    ((v >> (j * 8)) % 256) as u8
}

// The pitch bytes of work from at on become those of a word, byte by byte as in word_at.
fn put_word(work: &mut [u8], at: usize, v: u32, pitch: usize)
    requires { (at + pitch ≤ length work.old) × (pitch ≤ 4) }
    ensures { Laid (byte_of v) at pitch work.old work.new }
{
    for j in 0..pitch {
        work[at + j] = byte_of(v, j);
    }
}

// The lines of the plane at to become the words.
fn lay(work: &mut [u8], to: usize, words: &[u32; 32], pitch: usize)
    requires { (to + plane_size pitch ≤ length work.old) × (pitch ≤ 4) }
    ensures { Made (test words.now) pitch to (pitch * 8) work.old work.new }
{
    for x in 0..pitch * 8 {
        put_word(work, to + x * pitch, words[x], pitch);
    }
}

// The plane at to becomes the closure of the plane at from.
pub fn close_into(work: &mut [u8], from: usize, to: usize, pitch: usize)
    requires { (from + plane_size pitch ≤ length work.old) × (to + plane_size pitch ≤ length work.old) × (pitch ≤ 4) }
    ensures { Made (λ x y. grid_test (closed (pitch * 8) (cell work.old from pitch)) x y) pitch to (pitch * 8) work.old work.new }
{
    let mut words = load(work, from, pitch);
    rounds(&mut words, pitch * 8);
    lay(work, to, &words, pitch);
}
