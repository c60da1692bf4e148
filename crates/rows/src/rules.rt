// Rules: whether two are the same, and where the same rule stands.
ghost use Rattle.std.specs.Prelude.{◌≡◌, [], ◌∷◌, ◌++◌, ◌+◌, ◌*◌, ◌≤◌, ◌<◌, length};
ghost use Rattle.format.specs.Record.{records, same_rule, present};
ghost use Rattle.rows.specs.Found.{found_rule};
ghost use Rattle.rows.specs.Noted.{key_bit, KeysNoted};

use format::kinds::RecordKind;
use records::record;

// The record r is the same rule as c.
#[tactic(auto, using(crate::proofs::Same::same_pointwise, crate::proofs::Named::names_rule, crate::proofs::Named::names_no_rule), unfolding(format::specs::Record::same_rule))]
pub fn same_rule(c: &[u8; 24], r: &[u8; 24]) -> bool
    ensures { result ≡ same_rule c.now r.now }
{
    matches!(RecordKind::from(r[0]), RecordKind::Rule) && c[1..8] == r[1..8]
}

// The place of the same rule as c among the first n records.
#[tactic(auto, using(crate::specs::Laws::Found::none_yet, crate::specs::Laws::Found::none_more, crate::specs::Laws::Found::some_found, crate::specs::Laws::Found::first_found, crate::specs::Laws::Found::found_at, crate::specs::Laws::Found::found_none))]
pub fn find_rule(store: &[u8], n: usize, c: &[u8; 24]) -> Option<usize>
    requires { n * 24 ≤ length store.now }
    ensures { result ≡ found_rule c.now (records n store.now) }
{
    for i in 0..n {
        if same_rule(c, record(store, i)) {
            return Some(i);
        }
    }
    None
}

// The same rule as c is among the first n records.
#[tactic(auto, using(crate::specs::Laws::Found::found_present, crate::specs::Laws::Found::found_absent))]
pub fn is_present(store: &[u8], n: usize, c: &[u8; 24]) -> bool
    requires { n * 24 ≤ length store.now }
    ensures { result ≡ present c.now (records n store.now) }
{
    find_rule(store, n, c).is_some()
}

// The bit that the bytes of a rule's key make, of 4096: any weights would do, and these keep the keys of like rules apart.
#[tactic(auto, unfolding(crate::specs::Noted::key_bit))]
fn key_bit(r: &[u8; 24]) -> usize
    ensures { (result ≡ key_bit r.now) × (result < 4096) }
{
    let first = usize::from(r[1]) * 3851 + usize::from(r[2]) * 2651 + usize::from(r[3]) * 1989;
    let last = usize::from(r[5]) * 3253 + usize::from(r[6]) * 1389 + usize::from(r[7]) * 3885;
    (first + usize::from(r[4]) * 1793 + last) % 4096
}

// The same rule as r is among the first n records, of which the keys are noted; that of r is noted with them. Where its bit was
// not set r is new, with no search.
pub fn is_repeated(store: &[u8], n: usize, r: &[u8; 24], keys: &mut [u8; 512]) -> bool
    requires { (n * 24 ≤ length store.now) × KeysNoted (records n store.now) keys.old }
    ensures { (result ≡ present r.now (records n store.now)) × KeysNoted (records n store.now ++ (r.now ∷ [])) keys.new }
{
    let k = key_bit(r);
    if planes::get_bit(keys, k) {
        return is_present(store, n, r);
    }
    planes::set_bit(keys, k);
    false
}
