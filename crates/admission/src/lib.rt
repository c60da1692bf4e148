// The rows that refuse a command: 12, 16 and 13.
#![tactic(auto)]

ghost use Rattle.std.specs.Prelude.{◌≡◌, true, false, IfOk, length};
ghost use Rattle.format.specs.Record.{Net, command_kind, records, of_kind, widths_of};
ghost use Rattle.widths.specs.Widths.{within_limits};
ghost use Rattle.format.specs.Version.{version_of, modify_as, acts_as, is_add};
ghost use Rattle.refusals.specs.Rows.{row12, row13, row16_command};
ghost use Rattle.format.specs.Laws.NamedGroups.{ActionsNamed};
ghost use Rattle.refusals.specs.Refusal.{command_row};
ghost use Rattle.admission.specs.Admission.{Known, admission_refusal};

use format::Version;
use format::kinds::CommandKind;
use records::fields::command_good;
use records::{MOST_RULES, wire};
use refusals::Row;
use rows::groups::{actions_there, groups_there};
use rows::rules::is_present;
use scan::network::Network;
use widths::Widths;

// What is known of n records of a store before a command is looked at: their widths, their version and how many rules they have.
// Nothing else of them need be in order.
#[derive(Clone, Copy)]
pub struct Table<'a> {
    pub store: &'a [u8],
    pub n: usize,
    pub widths: Widths,
    pub version: Version,
    pub rules: usize,
    pub ghost known: { Known widths version store.now n rules },
}

impl<'a> Table<'a> {
    // That of a network.
    pub fn of(net: &Network<'a>) -> Self
        ensures { (result.store.now ≡ net.now.store.now) × (result.n ≡ net.now.n) }
    {
        Table {
            store: net.store,
            n: net.n,
            widths: net.layout.widths,
            version: version_of(net),
            rules: rules_of(net),
        }
    }
}

// Row 12 of 24 bytes: kind not 6 to 8, or a field fault.
#[tactic(auto, using(crate::proofs::CommandRows::by_fields))]
fn is_faulty(w: Widths, given: &[u8; 24]) -> bool
    requires { within_limits w ≡ true }
    ensures { (net : Net) → w ≡ widths_of net → result ≡ row12 net given.now }
{
    !command_good(w, given)
}

// Row 16: it names a group that no record of its switch has.
#[tactic(auto, unfolding(refusals::specs::Rows::row16_command))]
fn names_absent(table: &Table, given: &[u8; 24]) -> bool
    requires { ActionsNamed given.now }
    ensures { result ≡ row16_command (records table.now.n table.now.store.now) given.now }
{
    !actions_there(&groups_there(table.store, table.n), given)
}

// In this version a modify of a new rule acts as an add.
fn modify_adds(version: Version) -> bool
    ensures { result ≡ is_add (modify_as version false) }
{
    match version {
        Version::OpenFlow10 => true,
        Version::OpenFlow13 => false,
    }
}

// A command of this kind acts as an add if its rule is new.
fn adds_new(version: Version, kind: u8) -> bool
    ensures { result ≡ is_add (acts_as version false (command_kind kind)) }
{
    match CommandKind::from(kind) {
        CommandKind::Add => true,
        CommandKind::Modify => modify_adds(version),
        CommandKind::Delete | CommandKind::Unknown => false,
    }
}

// The version of a network.
fn version_of(net: &Network) -> Version
    ensures { result ≡ version_of (records net.now.n net.now.store.now) }
{
    wire::version_of(net.store)
}

// How many rules a network has.
fn rules_of(net: &Network) -> usize
    ensures { result ≡ length (of_kind 4 (records net.now.n net.now.store.now)) }
{
    net.layout.nodes - net.layout.rules
}

// Row 13: add of a new rule with 256 present, or what acts as one.
#[tactic(auto, using(crate::proofs::CommandRows::no_add, crate::proofs::CommandRows::not_full, crate::proofs::CommandRows::when_full))]
fn is_full(table: &Table, given: &[u8; 24]) -> bool
    ensures { result ≡ row13 (records table.now.n table.now.store.now) given.now }
{
    adds_new(table.version, given[0])
        && MOST_RULES <= table.rules
        && !is_present(table.store, table.n, given)
}

// The first of rows 12, 16 and 13 that refuses a command, its place being 0; or the command, whose bytes are 24 then.
#[tactic(auto, using(crate::proofs::CommandRows::wrong_length, crate::proofs::CommandRows::refused_12, crate::proofs::CommandRows::refused_16, crate::proofs::CommandRows::refused_13, crate::proofs::CommandRows::passed_all))]
pub fn command_row<'a>(table: &Table, given: &'a [u8]) -> Result<&'a [u8; 24], Row>
    ensures row { admission_refusal result ≡ command_row (records table.now.n table.now.store.now) given.now }
    ensures passed { IfOk result (λ c. c.now ≡ given.now) }
{
    let Ok(given) = <&[u8; 24]>::try_from(given) else {
        return Err(Row::Command);
    };
    if is_faulty(table.widths, given) {
        return Err(Row::Command);
    }
    if names_absent(table, given) {
        return Err(Row::Group);
    }
    if is_full(table, given) {
        return Err(Row::Full);
    }
    Ok(given)
}
