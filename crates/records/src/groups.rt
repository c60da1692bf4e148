// The fields of a group's record: its buckets.
ghost use Rattle.std.specs.Prelude.{◌≡◌, true, ◌<◌};
ghost use Rattle.format.specs.Record.{kind};
ghost use Rattle.format.specs.Group.{target_kind, IsBucket};
ghost use Rattle.widths.specs.Widths.{within_limits};
ghost use Rattle.format.specs.Fields.{target_fields, bucket_good, buckets_good, fields_good};

use crate::fields::{in_width, pattern_good, zeros};
use format::Bucket;
use format::kinds::TargetKind;
use widths::Widths;

// Bucket j of a group's record. That j is below 3, or an action's number below 4, stays a clause: a type for it would be no
// plainer.
pub fn bucket_at(r: &[u8; 24], j: usize) -> Bucket
    requires { j < 3 }
    ensures { IsBucket r.now j result }
{
    let at = 9 + 4 * j;
    Bucket {
        value: r[at],
        care: r[at + 1],
        kind: r[at + 2],
        target: r[at + 3],
    }
}

// The target of a bucket of group g.
#[tactic(auto, using(widths::specs::Laws::Limits::limits))]
fn target_good(w: Widths, g: u8, kind: u8, target: u8) -> bool
    requires { within_limits w ≡ true }
    ensures { result ≡ target_fields (target_kind kind) w g target }
{
    match TargetKind::from(kind) {
        TargetKind::Port => in_width(w.p, target),
        TargetKind::LowerGroup => target < g,
        TargetKind::Unknown => false,
    }
}

// Bucket j of a group's record that uses `count` of them.
#[tactic(auto, using(widths::specs::Laws::Limits::limits, format::specs::Laws::Fields::bucket_used, format::specs::Laws::Fields::bucket_unused))]
fn bucket_good(w: Widths, r: &[u8; 24], count: u8, j: u8) -> bool
    requires { (within_limits w ≡ true) × (j < 3) }
    ensures { result ≡ bucket_good w r.now count j }
{
    if count <= j {
        let first = 9 + 4 * usize::from(j);
        return zeros(r, first, first + 3);
    }
    let b = bucket_at(r, usize::from(j));
    pattern_good(w.h, b.value, b.care) && target_good(w, r[2], b.kind, b.target)
}

// A bucket count of 1 to 3 and the buckets of a group's record. `actions_good` is apart, though only names and numbers differ: one
// function over a closure, which may be called at the numbers below the count alone, takes a longer contract than both bodies.
#[tactic(auto, using(format::specs::Laws::Fields::buckets_low, format::specs::Laws::Fields::buckets_high))]
fn buckets_good(w: Widths, r: &[u8; 24]) -> bool
    requires { within_limits w ≡ true }
    ensures { result ≡ buckets_good w r.now }
{
    let count = r[8];
    (1..=3).contains(&count) && (0..3).all(|j| bucket_good(w, r, count, j))
}

// The fields of a group.
#[tactic(auto, using(widths::specs::Laws::Limits::limits, format::specs::Laws::Fields::group_fields))]
pub fn group_good(w: Widths, r: &[u8; 24]) -> bool
    requires { (within_limits w ≡ true) × (kind r.now ≡ 9) }
    ensures { result ≡ fields_good w r.now }
{
    in_width(w.w, r[1]) && r[2] <= 15 && zeros(r, 3, 7) && buckets_good(w, r) && zeros(r, 21, 23)
}
