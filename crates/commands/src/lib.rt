// The effect of a command, made in a second buffer.
#![tactic(auto)]

ghost use Rattle.std.specs.Prelude.{◌≡◌, false, ◌++◌, ◌+◌, ◌-◌, ◌*◌, ◌≤◌, length, take, drop};
ghost use Rattle.format.specs.Record.{store_bytes, most_records, kind, present, records, flat};
ghost use Rattle.format.specs.Search.{first_at};
ghost use Rattle.effect.specs.Apply.{as_rule, with_actions, inserted, added, removed, applied};
ghost use Rattle.commands.specs.Effect.{padded, spliced, joined, above_rules, net_of, Built};

use format::Version;
use format::kinds::CommandKind;
use records::{STORE_BYTES, record};
use rows::rules::find_rule;
use stored::Stored;

pub mod stored;

// The rule of a command. Kind 4 is a rule's: kinds are read from bytes, and nothing else writes one.
#[tactic(auto, unfolding(effect::specs::Apply::as_rule))]
fn as_rule(given: &[u8; 24]) -> [u8; 24]
    ensures { result ≡ as_rule given.now }
{
    let mut rule = *given;
    rule[0] = 4;
    rule
}

// A rule with the action count and actions of a command.
#[tactic(auto, unfolding(effect::specs::Apply::with_actions))]
fn with_actions(given: &[u8; 24], r: &[u8; 24]) -> [u8; 24]
    ensures { result ≡ with_actions given.now r.now }
{
    let mut rule = *r;
    rule[8..21].copy_from_slice(&given[8..21]);
    rule
}

// The place of a new rule: before the first record of a higher kind, by the order of kind bytes, which their names do not have.
#[tactic(auto, using(rows::specs::Laws::Found::none_yet, rows::specs::Laws::Found::none_more, rows::specs::Laws::Found::first_found, rows::specs::Laws::Found::first_none, format::specs::Laws::Records::record_kind_lem))]
fn place(before: Stored) -> usize
    ensures { result ≡ first_at above_rules (net_of before.entry) }
{
    for i in 0..before.n {
        if 4 < before.store[i * 24] {
            return i;
        }
    }
    before.n
}

// After the first `at` bytes of next, the store's records from number j up to n, then zeros.
fn finish(next: &mut [u8; STORE_BYTES], at: usize, before: Stored, j: usize)
    requires { (j ≤ before.n) × (at + (before.n - j) * 24 ≤ store_bytes) }
    ensures { next.new ≡ padded (take at next.old ++ flat (drop j (net_of before.entry))) }
{
    let b = j * 24;
    let e = before.n * 24;
    let end = at + (e - b);
    planes::copy(&mut next[at..end], &before.store[b..e]);
    next[end..].fill(0);
}

// Makes next the n records with a rule in place of those from i up to j, and counts them.
fn splice(
    next: &mut [u8; STORE_BYTES],
    before: Stored,
    rule: &[u8; 24],
    i: usize,
    j: usize,
) -> usize
    requires few { i + 1 + (before.n - j) ≤ most_records }
    requires i_le_j { (i ≤ j) × (j ≤ before.n) }
    ensures { Built (spliced (net_of before.entry) i j rule.now) result next.new }
{
    let a = i * 24;
    planes::copy(&mut next[..a], &before.store[..a]);
    next[a..a + 24].copy_from_slice(rule);
    finish(next, a + 24, before, j);
    i + 1 + (before.n - j)
}

// Makes next the n records without those from i up to j, and counts them: apart from splice, since one for both, over a rule that
// may be missing, is no plainer.
fn join(next: &mut [u8; STORE_BYTES], before: Stored, i: usize, j: usize) -> usize
    requires few { i + (before.n - j) ≤ most_records }
    requires i_le_j { (i ≤ j) × (j ≤ before.n) }
    ensures { Built (joined (net_of before.entry) i j) result next.new }
{
    let a = i * 24;
    planes::copy(&mut next[..a], &before.store[..a]);
    finish(next, a, before, j);
    i + (before.n - j)
}

// A new rule, after the last rule. The buffer, what it is made of and the command go on together from here on: a struct of what
// is written and what is read would be taken apart at each call.
#[tactic(auto, using(crate::proofs::EffectInStore::new_below, crate::proofs::EffectInStore::inserted_new, crate::proofs::RecordBytes::length_spliced))]
fn insert(next: &mut [u8; STORE_BYTES], before: Stored, given: &[u8; 24]) -> usize
    requires few { length (inserted given.now (net_of before)) ≤ most_records }
    ensures { Built (inserted given.now (net_of before.entry)) result next.new }
{
    let i = place(before);
    splice(next, before, &as_rule(given), i, i)
}

// Add: replaces the same rule in its place, or else goes after the last rule.
#[tactic(auto, using(crate::proofs::FoundRule::at_below, crate::proofs::EffectInStore::added_at, crate::proofs::RecordBytes::length_spliced, rows::specs::Laws::Found::found_absent, effect::specs::Laws::RulePlace::added_new))]
fn add(next: &mut [u8; STORE_BYTES], before: Stored, given: &[u8; 24]) -> usize
    requires few { length (added given.now (net_of before)) ≤ most_records }
    ensures { Built (added given.now (net_of before.entry)) result next.new }
{
    match find_rule(before.store, before.n, given) {
        Some(i) => splice(next, before, &as_rule(given), i, i + 1),
        None => insert(next, before, given),
    }
}

// Modify without its rule: in 1.0 it acts as an add, in 1.3 it changes nothing.
#[tactic(auto, using(crate::proofs::EffectInStore::all_kept, crate::proofs::RecordBytes::length_joined, effect::specs::Laws::Applied::modify_adds, effect::specs::Laws::Applied::modify_nothing))]
fn modify_absent(
    version: Version,
    next: &mut [u8; STORE_BYTES],
    before: Stored,
    given: &[u8; 24],
) -> usize
    requires few { length (applied version given.now (net_of before)) ≤ most_records }
    requires is_absent { (kind given.now ≡ 7) × (present given.now (net_of before) ≡ false) }
    ensures { Built (applied version given.now (net_of before.entry)) result next.new }
{
    match version {
        Version::OpenFlow10 => insert(next, before, given),
        Version::OpenFlow13 => join(next, before, before.n, before.n),
    }
}

// Modify: replaces the action count and actions of the same rule, or else goes by the version.
#[tactic(auto, using(crate::proofs::FoundRule::at_below, crate::proofs::EffectInStore::changed_at, crate::proofs::RecordBytes::length_spliced, rows::specs::Laws::Found::found_present, rows::specs::Laws::Found::found_absent, effect::specs::Laws::Applied::modify_there))]
fn modify(version: Version, next: &mut [u8; STORE_BYTES], before: Stored, given: &[u8; 24]) -> usize
    requires few { length (applied version given.now (net_of before)) ≤ most_records }
    requires is_modify { kind given.now ≡ 7 }
    ensures { Built (applied version given.now (net_of before.entry)) result next.new }
{
    match find_rule(before.store, before.n, given) {
        Some(i) => {
            let changed = with_actions(given, record(before.store, i));
            splice(next, before, &changed, i, i + 1)
        }
        None => modify_absent(version, next, before, given),
    }
}

// Delete: removes the same rule and closes up.
#[tactic(auto, using(crate::proofs::FoundRule::at_below, crate::proofs::EffectInStore::removed_at, crate::proofs::EffectInStore::removed_absent, crate::proofs::RecordBytes::length_joined))]
fn delete(next: &mut [u8; STORE_BYTES], before: Stored, given: &[u8; 24]) -> usize
    requires few { length (removed given.now (net_of before)) ≤ most_records }
    ensures { Built (removed given.now (net_of before.entry)) result next.new }
{
    match find_rule(before.store, before.n, given) {
        Some(i) => join(next, before, i, i + 1),
        None => join(next, before, before.n, before.n),
    }
}

// Makes next the network that a command would leave, and counts its records. Each kind has a step of its own: a closure for each
// would be no plainer.
#[tactic(auto, using(crate::proofs::Named::acts_add, crate::proofs::Named::acts_modify, crate::proofs::Named::acts_delete, crate::proofs::Named::acts_none, crate::proofs::EffectInStore::all_kept, crate::proofs::RecordBytes::length_joined))]
pub fn apply_to(
    version: Version,
    next: &mut [u8; STORE_BYTES],
    before: Stored,
    given: &[u8; 24],
) -> usize
    requires few { length (applied version given.now (net_of before)) ≤ most_records }
    ensures { Built (applied version given.now (net_of before.entry)) result next.new }
{
    match CommandKind::from(given[0]) {
        CommandKind::Add => add(next, before, given),
        CommandKind::Modify => modify(version, next, before, given),
        CommandKind::Delete => delete(next, before, given),
        CommandKind::Unknown => join(next, before, before.n, before.n),
    }
}

// Stores a network that was made, and keeps the bytes after it.
pub fn write_back(store: &mut [u8], next: &[u8; STORE_BYTES])
    requires { store_bytes ≤ length store.old }
    ensures { store.new ≡ next.now ++ drop store_bytes store.old }
{
    planes::copy(&mut store[..STORE_BYTES], next);
}
