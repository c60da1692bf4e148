// The check call and the command call.
#![tactic(auto)]

ghost use Rattle.std.specs.Prelude.{◌≡◌, ◌+◌, ◌≤◌, length};
ghost use Rattle.std.proofs.Math.Option.{none};
ghost use Rattle.format.specs.Record.{Net};
ghost use Rattle.refusals.specs.Refusal.{command_refusal};
ghost use Rattle.scan.specs.Layout.{LayoutOf};
ghost use Rattle.effect.specs.NeverStuck.{GoesOn};
ghost use Rattle.book.specs.Answer.{check_answer_of, command_answer_of};
ghost use Rattle.book.specs.Check.{CheckPromised};
ghost use Rattle.book.specs.Command.{Promised, call};
ghost use Rattle.calls.specs.Judged.{JudgedAs};

use admission::Table;
use book::Commanded;
use commands::stored::Stored;
use judgement::Violation;
use records::wire::version_of;
use refusals::Refused;
use scan::Layout;
use scan::network::Network;

// The check call: judges the network of n records in the store.
pub fn check(store: &[u8], n: usize, work: &mut [u8]) -> Result<Option<Violation>, Refused>
    ensures { CheckPromised store.now n work.old (check_answer_of result) work.new }
{
    let net = scan::check_rows(store, n, work.len())?;
    Ok(verdict::judge::judge(&net, work))
}

// Where the parts of n records stand after a command that left count records: what is behind the rules is as far from the end as
// before.
fn moved(l: Layout, n: usize, count: usize) -> Layout
    requires { (l.nodes ≤ l.groups) × (l.groups ≤ n) × (n ≤ count + l.nodes) }
    ensures { (net after : Net) → length net ≡ n → length after ≡ count → LayoutOf net l → GoesOn net after → LayoutOf after result }
{
    Layout {
        nodes: count - (n - l.nodes),
        groups: count - (n - l.groups),
        ..l
    }
}

// A command that no row refuses, judged by the network that it would leave, which is made in `next`: how many records that has,
// where it holds.
fn judged_in(
    next: &mut [u8; records::STORE_BYTES],
    net: &Network,
    work: &mut [u8],
    given: &[u8; 24],
) -> Result<usize, Violation>
    requires { command_refusal net.now.store.now net.now.n (length work.old) given.now ≡ none }
    ensures { JudgedAs net.now.store.now net.now.n work.old given.now next.new result work.new }
{
    let before = Stored {
        store: net.store,
        n: net.n,
    };
    let count = commands::apply_to(version_of(net.store), next, before, given);
    let left = Network {
        store: next,
        n: count,
        layout: moved(net.layout, net.n, count),
    };
    match verdict::judge::judge(&left, work) {
        Some(v) => Err(v),
        None => Ok(count),
    }
}

// The command call: a command on the network of n records in the store, forwarded or blocked by the network that it would leave.
pub fn command(
    store: &mut [u8],
    n: usize,
    work: &mut [u8],
    given: &[u8],
) -> Result<Commanded, Refused>
    ensures { Promised (call store.old n work.old given.now (command_answer_of result) store.new work.new) }
{
    let installed = scan::check_rows(store, n, work.len())?;
    let table = Table::of(&installed);
    // A match, as in scan: where the refusal is stands beside its row.
    let given = match admission::command_row(&table, given) {
        Ok(given) => given,
        Err(row) => return Err(Refused { row, place: 0 }),
    };
    let mut next = [0u8; records::STORE_BYTES];
    // The network that is left holds or not; the answer says what became of the command.
    match judged_in(&mut next, &installed, work, given) {
        Ok(count) => {
            commands::write_back(store, &next);
            Ok(Commanded::Forwarded { count })
        }
        Err(v) => Ok(Commanded::Blocked(v)),
    }
}
