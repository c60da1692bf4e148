// The route call: how a frame gets from one packet state to another.
#![tactic(auto)]

ghost use Rattle.std.specs.Prelude.{◌≡◌, ◌+◌, ◌<◌, ◌≤◌, length};
ghost use Rattle.std.proofs.Math.Option.{none};
ghost use Rattle.format.specs.Record.{records};
ghost use Rattle.widths.specs.Widths.{states};
ghost use Rattle.verdict.specs.Judge.{Judgeable};
ghost use Rattle.refusals.specs.Refusal.{check_refusal};
ghost use Rattle.trails.specs.Answer.{route_answer_of};
ghost use Rattle.trails.specs.Call.{route_call, RoutePromised};
ghost use Rattle.trace.specs.Search.{Shown};

use refusals::{Refused, Row};
use scan::network::Network;

// Shows the route of a network; the work that a verdict needs is zero afterwards.
fn show(net: &Network, work: &mut [u8], start: usize, end: usize, list: &mut [u16]) -> Option<usize>
    requires judgeable { Judgeable net.now.n net.now.layout net.now.store.now work.old }
    requires bounds { (start < states net.now.layout.widths) × (end < states net.now.layout.widths) × (states net.now.layout.widths + 1 ≤ length list.old) }
    ensures { Shown (records net.now.n net.now.store.now) start end work.old list.old result list.new work.new }
{
    let pitch = net.layout.widths.states() / 8;
    steps::fill_steps(work, 0, net);
    exchange::exchange(work, 0, pitch * 8 * pitch, pitch);
    let count = trace::draw(work, pitch, start, end, list);
    let needed = net.work_needed();
    planes::clear(work, 0, needed);
    count
}

// A route call on a network that rows 1 to 11 and 16 pass: rows 14 and 15, and then the route.
fn after_check(
    net: &Network,
    work: &mut [u8],
    start: usize,
    end: usize,
    list: &mut [u16],
) -> Result<Option<usize>, Refused>
    requires { check_refusal net.now.store.now net.now.n (length work.old) ≡ none }
    ensures { RoutePromised (route_call net.now.store.now net.now.n work.old start end list.old) (route_answer_of result) list.new work.new }
{
    let states = net.layout.widths.states();
    if states <= start || states <= end {
        return Err(Refused {
            row: Row::State,
            place: 0,
        });
    }
    if list.len() < states + 1 {
        return Err(Refused {
            row: Row::List,
            place: 0,
        });
    }
    Ok(show(net, work, start, end, list))
}

// The route call: writes the route from start to end, in the network of n records in the store, into the list. Its parameters are
// those that C lends.
pub fn route(
    store: &[u8],
    n: usize,
    work: &mut [u8],
    start: usize,
    end: usize,
    list: &mut [u16],
) -> Result<Option<usize>, Refused>
    ensures { RoutePromised (route_call store.now n work.old start end list.old) (route_answer_of result) list.new work.new }
{
    let net = scan::check_rows(store, n, work.len())?;
    after_check(&net, work, start, end, list)
}
