// Patterns, bit by bit: what a pattern matches, and what SET makes of a number.
#![tactic(auto)]

ghost use Rattle.std.specs.Prelude.{◌≡◌, ◌≤◌, ◌<◌, ◌^◌};
ghost use Rattle.basics.specs.Bit.{bit_of};
ghost use Rattle.format.specs.Pattern.{ternary, written, put_bits};
ghost use Rattle.patterns.specs.Matched.{MatchedSet, widened};

use format::Ternary;
use planes::bit_of;

// Bit i of a pattern. Value and care stay two numbers, as the definitions take them: callers read them from a record just before.
fn ternary_at(value: u8, care: u8, i: u8) -> Ternary
    requires { i < 8 }
    ensures { result ≡ ternary value care i }
{
    let i = usize::from(i);
    match (bit_of(u64::from(care), i), bit_of(u64::from(value), i)) {
        (false, _) => Ternary::Star,
        (true, true) => Ternary::Fixed1,
        (true, false) => Ternary::Fixed0,
    }
}

// The numbers of i + 1 bits that match, where set has those of i bits: with bit i 0, with bit i 1, or both.
fn widened(t: Ternary, set: u64, i: u8) -> u64
    requires { (i < 6) × (set < 2 ^ (2 ^ i)) }
    ensures { result ≡ widened t set i }
{
    // The same numbers with bit i 1: each is 2^i higher, and so is its bit.
    let upper = set << (1usize << i);
    match t {
        Ternary::Fixed0 => set,
        Ternary::Fixed1 => upper,
        Ternary::Star => set | upper,
    }
}

// The numbers of k bits that match a pattern, number x as bit x.
pub fn matched(k: u8, value: u8, care: u8) -> u64
    requires { k ≤ 6 }
    ensures { MatchedSet k value care result }
{
    let mut set = 1u64;
    for bits in 0..k {
        set = widened(ternary_at(value, care, bits), set, bits);
    }
    set
}

// The number x is in a set of numbers.
pub fn in_set(set: u64, x: u8) -> bool
    requires { x < 64 }
    ensures { result ≡ bit_of set x }
{
    bit_of(set, usize::from(x))
}

// What SET makes of a bit b.
fn written(t: Ternary, b: bool) -> bool
    ensures { result ≡ written t b }
{
    match t {
        Ternary::Fixed0 => false,
        Ternary::Fixed1 => true,
        Ternary::Star => b,
    }
}

// What SET makes of a number of k bits.
pub fn put(k: u8, value: u8, care: u8, x: u8) -> u8
    requires { k ≤ 6 }
    ensures { result ≡ put_bits k value care x }
{
    let mut result: u8 = 0;
    for i in 0..k {
        if written(
            ternary_at(value, care, i),
            bit_of(u64::from(x), usize::from(i)),
        ) {
            result += 1u8 << i;
        }
    }
    result
}
