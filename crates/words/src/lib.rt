// The states of a line: the bits of its bytes that are set, found eight bytes at a time where the line is of whole words, or else
// bit by bit.
#![tactic(auto)]

ghost use Rattle.std.specs.Prelude.{◌≡◌, ◌+◌, ◌-◌, ◌*◌, ◌%◌, ◌≤◌, ◌<◌, length};
ghost use Rattle.std.specs.Iterator.{at_most};
ghost use Rattle.words.specs.Words.{Word, Lowest, First, Stepped, Open};

// The eight bytes of p from a on as one number, the lowest first; written out, since LLVM makes one load of that.
pub fn eight(p: &[u8], a: usize) -> u64
    requires { a + 8 ≤ length p.now }
    ensures { Word a p.now result }
{
    u64::from_le_bytes([
        p[a],
        p[a + 1],
        p[a + 2],
        p[a + 3],
        p[a + 4],
        p[a + 5],
        p[a + 6],
        p[a + 7],
    ])
}

// The lowest bit of v that is set.
pub fn lowest(v: u64) -> usize
    requires { 0 < v }
    ensures { Lowest v result }
{
    // A `u32` has no `From` into a `usize`; the count is below 64.
    v.trailing_zeros() as usize
}

// A state of line that is in among and not in done, of those below pitch * 8.
#[inline(always)]
pub fn next_open(line: &[u8], done: &[u8], among: &[u8], pitch: usize) -> Option<usize>
    requires widths { (pitch ≤ length line.now) × (pitch ≤ length done.now) × (pitch ≤ length among.now) }
    requires whole { (pitch ≤ 128) × (pitch % 8 ≡ 0) }
    ensures { Open line.now done.now among.now pitch result }
{
    for i in 0..pitch / 8 {
        let open = eight(line, i * 8) & eight(among, i * 8) & !eight(done, i * 8);
        if open != 0 {
            return Some(i * 64 + lowest(open));
        }
    }
    None
}

// The states of a line in order, from the one at `next` on.
#[derive(Drop)]
pub struct States<'a> {
    line: &'a [u8],
    next: usize,
    ghost short: { length line.now ≤ 128 },
}

impl<'a> States<'a> {
    // All states of a line.
    pub fn of(line: &'a [u8]) -> States<'a>
        requires { length line.now ≤ 128 }
        ensures { (result.line.now ≡ line.now) × (result.next ≡ 0) }
    {
        States { line, next: 0 }
    }

    // The first state of a line of whole words from its word w on.
    fn from_word(&self, w: usize) -> Option<usize>
        requires { length self.now.line.now % 8 ≡ 0 }
        ensures { First self.now.line.now (w * 64) result }
    {
        for i in w..self.line.len() / 8 {
            let v = eight(self.line, i * 8);
            if v != 0 {
                return Some(i * 64 + lowest(v));
            }
        }
        None
    }

    // The first state from `next` on, of a line of whole words.
    fn by_words(&self) -> Option<usize>
        requires { length self.now.line.now % 8 ≡ 0 }
        ensures { First self.now.line.now self.now.next result }
    {
        let k = self.next;
        if self.line.len() * 8 <= k {
            return None;
        }
        let w = k / 64;
        let left = eight(self.line, w * 8) >> (k % 64);
        if left != 0 {
            return Some(k + lowest(left));
        }
        self.from_word(w + 1)
    }

    // The same, bit by bit.
    fn by_bits(&self) -> Option<usize>
        ensures { First self.now.line.now self.now.next result }
    {
        for i in self.next..self.line.len() * 8 {
            if planes::get_bit(self.line, i) {
                return Some(i);
            }
        }
        None
    }

    // The first state from `next` on.
    fn first(&self) -> Option<usize>
        ensures { First self.now.line.now self.now.next result }
    {
        if self.line.len() % 8 == 0 {
            self.by_words()
        } else {
            self.by_bits()
        }
    }
}

impl<'a> Iterator for States<'a> {
    type Item = usize;

    ghost next_gives = { λ s r t. Stepped s.line.now s.next r t.line.now t.next };

    ghost remaining = { λ s. at_most (length s.line.now * 8 - s.next) };

    fn next(&mut self) -> Option<usize> {
        let y = self.first()?;
        self.next = y + 1;
        Some(y)
    }
}
