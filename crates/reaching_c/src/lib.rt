// The closure of one plane in another, as a static library: the call of the crate `reaching`.
#![tactic(auto)]

ghost use Rattle.reaching.specs.Into.{ClosedApart};

// The plane at to becomes the closure of the plane at from, unless they do not lie apart within work; whether they do.
#[unsafe(no_mangle)]
pub extern "C" fn wegbaro_close_into(work: &mut [u8], from: usize, to: usize, pitch: usize) -> bool
    ensures { ClosedApart from to pitch work.old result work.new }
{
    reaching::wegbaro_close_into(work, from, to, pitch)
}
