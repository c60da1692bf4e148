// The fields of one record: ranges, widths, patterns and unnamed bytes.
ghost use Rattle.std.specs.Prelude.{◌≡◌, true, [], ◌∷◌, ◌≤◌, ◌<◌, ◌^◌, ◌&&◌, ltb, length, take, drop};
ghost use Rattle.format.specs.Record.{kind, widths_of};
ghost use Rattle.widths.specs.Widths.{within_limits};
ghost use Rattle.format.specs.State.{ordinary};
ghost use Rattle.format.specs.Pattern.{pattern_good};
ghost use Rattle.format.specs.Fields.{zeros, point_good, no_pattern, match_good, action_good, actions_good, node_good, fields_good, command_good};

use crate::wire::version_good;
use crate::{MOST_POLICIES, part};
use format::kinds::{ActionKind, CommandKind, NodeKind};
use widths::Widths;

// The bytes from the first up to the last are zero: all are ORed, with no way out at the first that is not, so that the machine
// may take many at a time.
pub fn zeros(r: &[u8], first: usize, last: usize) -> bool
    requires { (first ≤ last) × (last < length r.now) }
    ensures { result ≡ zeros first last r.now }
{
    r[first..=last].iter().fold(0, |all, b| all | *b) == 0
}

// A number is within a width of k bits.
pub fn in_width(k: u8, x: u8) -> bool
    requires { k ≤ 8 }
    ensures { result ≡ ltb x (2 ^ k) }
{
    u16::from(x) < 1 << k
}

// Value bits lie within care, and care within the width of k bits.
#[tactic(auto, unfolding(format::specs::Pattern::pattern_good))]
pub fn pattern_good(k: u8, value: u8, care: u8) -> bool
    requires { k ≤ 8 }
    ensures { result ≡ pattern_good k value care }
{
    in_width(k, care) && value & care == value
}

// A switch within its width, and a port.
#[tactic(auto, using(widths::specs::Laws::Limits::limits), unfolding(format::specs::Fields::point_good))]
fn point_good(w: Widths, sw: u8, p: u8) -> bool
    requires { within_limits w ≡ true }
    ensures { result ≡ point_good w sw p }
{
    in_width(w.w, sw) && in_width(w.p, p)
}

// The body of a record, bytes 1 to 20.
pub fn body(r: &[u8; 24]) -> &[u8; 20]
    ensures { result.now ≡ take 20 (drop 1 r.now) }
{
    part(r, 1)
}

// The switch and the two patterns of a rule, from the rule's body.
#[tactic(auto, using(widths::specs::Laws::Limits::limits), unfolding(format::specs::Fields::match_good))]
pub fn match_good(w: Widths, body: &[u8; 20]) -> bool
    requires { within_limits w ≡ true }
    ensures { result ≡ match_good w (0 ∷ body.now) }
{
    in_width(w.w, body[0])
        && pattern_good(w.p, body[3], body[4])
        && pattern_good(w.h, body[5], body[6])
}

// An action's value and care are zero.
fn no_pattern(value: u8, care: u8) -> bool
    ensures { result ≡ no_pattern value care }
{
    value == 0 && care == 0
}

// Action i of a body that uses `count` of them.
#[tactic(auto, using(widths::specs::Laws::Limits::limits, format::specs::Laws::Fields::action_used, format::specs::Laws::Fields::action_unused))]
fn action_good(w: Widths, body: &[u8; 20], count: u8, i: u8) -> bool
    requires { (within_limits w ≡ true) × (i < 4) }
    ensures { result ≡ action_good w (0 ∷ body.now) count i }
{
    let at = 8 + 3 * usize::from(i);
    let (kind, value, care) = (body[at], body[at + 1], body[at + 2]);
    if count <= i {
        return kind == 0 && no_pattern(value, care);
    }
    match ActionKind::from(kind) {
        ActionKind::Output => pattern_good(w.p, value, care),
        ActionKind::Set => pattern_good(w.h, value, care) && i + 1 != count,
        ActionKind::InPort => no_pattern(value, care),
        ActionKind::RunGroup => value <= 15 && care == 0,
        ActionKind::Unknown => false,
    }
}

// An action count of 1 to 4 and the actions of a body.
#[tactic(auto, using(format::specs::Laws::Fields::count_low, format::specs::Laws::Fields::count_high))]
pub fn actions_good(w: Widths, body: &[u8; 20]) -> bool
    requires { within_limits w ≡ true }
    ensures { result ≡ actions_good w (0 ∷ body.now) }
{
    let count = body[7];
    (1..=4).contains(&count) && (0..4).all(|i| action_good(w, body, count, i))
}

// Byte 3 and byte 4 of a policy node of kind k.
#[tactic(auto, using(widths::specs::Laws::Limits::limits), unfolding(format::specs::Fields::node_good, format::specs::Policy::node_kind))]
pub fn node_good(w: Widths, k: u8, a: u8, b: u8) -> bool
    requires { within_limits w ≡ true }
    ensures { result ≡ node_good w k a b }
{
    match NodeKind::from(k) {
        NodeKind::Bit => a <= 1 && b < w.bits(),
        NodeKind::R => a <= 1 && b <= 1,
        NodeKind::E => a <= 1 && b == 0,
        NodeKind::Not => b == 0,
        NodeKind::And | NodeKind::Or => true,
        NodeKind::Some | NodeKind::All => b <= 1,
        NodeKind::Tc => b <= 3,
        NodeKind::Unknown => false,
    }
}

// The fields of a link.
#[tactic(auto, using(format::specs::Laws::Fields::link_fields))]
pub fn link_good(w: Widths, r: &[u8; 24]) -> bool
    requires { (within_limits w ≡ true) × (kind r.now ≡ 2) }
    ensures { result ≡ fields_good w r.now }
{
    point_good(w, r[1], r[2]) && point_good(w, r[3], r[4]) && zeros(r, 5, 23)
}

// The fields of a miss.
#[tactic(auto, using(widths::specs::Laws::Limits::limits, format::specs::Laws::Fields::miss_fields, format::specs::Laws::Fields::actions_body))]
pub fn miss_good(w: Widths, r: &[u8; 24]) -> bool
    requires { (within_limits w ≡ true) × (kind r.now ≡ 3) }
    ensures { result ≡ fields_good w r.now }
{
    in_width(w.w, r[1]) && zeros(r, 2, 7) && actions_good(w, body(r)) && zeros(r, 21, 23)
}

// The match, the actions and the last bytes of a rule, and of an add or a modify.
#[tactic(auto, using(format::specs::Laws::Fields::match_body, format::specs::Laws::Fields::actions_body))]
fn changed_good(w: Widths, r: &[u8; 24]) -> bool
    requires { within_limits w ≡ true }
    ensures { result ≡ (match_good w r.now && actions_good w r.now && zeros 21 23 r.now) }
{
    match_good(w, body(r)) && actions_good(w, body(r)) && zeros(r, 21, 23)
}

// The fields of a rule.
#[tactic(auto, using(format::specs::Laws::Fields::rule_fields))]
pub fn rule_good(w: Widths, r: &[u8; 24]) -> bool
    requires { (within_limits w ≡ true) × (kind r.now ≡ 4) }
    ensures { result ≡ fields_good w r.now }
{
    changed_good(w, r)
}

// The fields of a policy node.
#[tactic(auto, using(format::specs::Laws::Fields::node_fields_lem))]
pub fn policy_node_good(w: Widths, r: &[u8; 24]) -> bool
    requires { (within_limits w ≡ true) × (kind r.now ≡ 5) }
    ensures { result ≡ fields_good w r.now }
{
    r[1] <= MOST_POLICIES && node_good(w, r[2], r[3], r[4]) && zeros(r, 5, 23)
}

// The fields of the widths record, besides the widths: its version. No widths are needed for it.
#[tactic(auto, using(format::specs::Laws::Fields::widths_fields))]
pub fn widths_record_good(r: &[u8; 24]) -> bool
    requires { kind r.now ≡ 1 }
    ensures { (w : Widths) → result ≡ fields_good w r.now }
{
    version_good(r[4]) && zeros(r, 5, 23)
}

// The widths that a record's bytes 1 to 3 give.
#[tactic(auto, unfolding(format::specs::Record::widths_of))]
pub fn widths_at(r: &[u8; 24]) -> Widths
    ensures { result ≡ widths_of (r.now ∷ []) }
{
    Widths {
        h: r[1],
        p: r[2],
        w: r[3],
    }
}

// The fields of a command: as a rule's; delete has bytes 8 to 20 zero.
#[tactic(auto, using(format::specs::Laws::Fields::match_body), unfolding(format::specs::Fields::command_good))]
pub fn command_good(w: Widths, c: &[u8; 24]) -> bool
    requires { within_limits w ≡ true }
    ensures { result ≡ command_good w c.now }
{
    match CommandKind::from(c[0]) {
        CommandKind::Add | CommandKind::Modify => changed_good(w, c),
        CommandKind::Delete => match_good(w, body(c)) && zeros(c, 8, 23),
        CommandKind::Unknown => false,
    }
}

// A port is neither drop nor the controller.
#[tactic(auto, using(basics::specs::Laws::Shifts::shl_one), unfolding(format::specs::State::ordinary))]
pub fn is_ordinary(w: Widths, p: u8) -> bool
    requires { w.p ≤ 4 }
    ensures { result ≡ ordinary w p }
{
    p != 0 && p < (1 << w.p) - 1
}
