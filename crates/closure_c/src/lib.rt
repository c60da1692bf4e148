// The transitive closure of a plane in its place, as a static library: the call of the crate `closure`.
#![tactic(auto)]

ghost use Rattle.closure.specs.Closed.{ClosedWithin};

// Closes the plane of pitch * 8 states at byte base of work, unless it does not lie within work; whether it does.
#[unsafe(no_mangle)]
pub extern "C" fn wegbaro_close(work: &mut [u8], base: usize, pitch: usize) -> bool
    ensures { ClosedWithin base pitch work.old result work.new }
{
    closure::wegbaro_close(work, base, pitch)
}
