// Policy nodes: their operands and free variables, and where a policy ends.
#![tactic(auto)]

pub mod at;

ghost use Rattle.std.specs.Prelude.{◌≡◌, false, true, [], ◌∷◌, ◌++◌, ◌<◌, MatchOption};
ghost use Rattle.basics.specs.Bit.{bit_of};
ghost use Rattle.format.specs.Record.{Rec, Net, most_nodes, at, kind};
ghost use Rattle.format.specs.Policy.{policy_count};
ghost use Rattle.format.specs.Search.{record_at, records_after};
ghost use Rattle.refusals.specs.Rows.{operands_earlier, free_at};
ghost use Rattle.noderows.specs.Policies.{PoliciesOf, follows, Entered, y_said, NodeAnswered};

use crate::at::At;
use format::kinds::NodeKind;
use refusals::Row;

// What is known of the policies of the records before: how many there are, the nodes of the last one, those of them in which
// Y is free as bits, and the nodes of the longest.
#[derive(Clone, Copy)]
pub struct Policies {
    pub count: usize,
    pub nodes: usize,
    pub free: u32,
    pub longest: usize,
}

impl Policies {
    // As a node of policy p comes next, where p is the last or one more.
    fn entered(self, p: u8) -> Option<Policies>
        ensures { (before : Net) → PoliciesOf before self → MatchOption result (follows p (policy_count before) ≡ false) (λ s. (follows p (policy_count before) ≡ true) × Entered before p s) }
    {
        let p = usize::from(p);
        if p == self.count {
            return Some(Policies {
                count: self.count + 1,
                nodes: 0,
                free: 0,
                longest: self.longest,
            });
        }
        if p + 1 == self.count {
            Some(self)
        } else {
            None
        }
    }

    // With one node more of the policy that was entered; y says whether Y is free in it.
    fn with_node(self, y: bool) -> Policies
        requires { self.nodes < most_nodes }
        ensures { (before : Net) (x : Rec) → kind x ≡ 5 → Entered before (at x 1) self → y ≡ free_at before x → PoliciesOf (before ++ (x ∷ [])) result }
    {
        Policies {
            count: self.count,
            nodes: self.nodes + 1,
            free: if y {
                self.free | (1 << self.nodes)
            } else {
                self.free
            },
            longest: (self.nodes + 1).max(self.longest),
        }
    }
}

// The operands of a node of a kind, number i of its policy, are earlier ones.
fn operands_good(k: NodeKind, a: u8, b: u8, i: usize) -> bool
    ensures { result ≡ operands_earlier k a b i }
{
    match k {
        NodeKind::Bit | NodeKind::R | NodeKind::E => true,
        NodeKind::And | NodeKind::Or => usize::from(a) < i && usize::from(b) < i,
        NodeKind::Not | NodeKind::Some | NodeKind::All | NodeKind::Tc => usize::from(a) < i,
        NodeKind::Unknown => false,
    }
}

// Bit i of a mask. The crate would stand on planes for its `bit_of` alone.
fn in_mask(mask: u32, i: u8) -> bool
    ensures { result ≡ bit_of mask i }
{
    i < 32 && (mask >> i) % 2 == 1
}

// Y is free in a node of a kind, where the mask has the earlier nodes in which it is. A byte other than 0 is Y, as `y_said` says.
fn y_free(k: NodeKind, a: u8, b: u8, mask: u32) -> bool
    ensures { result ≡ y_said k a b (bit_of mask) }
{
    match k {
        NodeKind::Bit | NodeKind::E => a != 0,
        NodeKind::R => a != 0 || b != 0,
        NodeKind::Not => in_mask(mask, a),
        NodeKind::And | NodeKind::Or => in_mask(mask, a) || in_mask(mask, b),
        NodeKind::Some | NodeKind::All => b == 0 && in_mask(mask, a),
        NodeKind::Tc => b / 2 != 0 || b % 2 != 0,
        NodeKind::Unknown => false,
    }
}

// The policies with the node that a record is, or the lower of rows 9 and 10 that it meets.
pub fn add_node(at: &At, known: Policies) -> Result<Policies, Row>
    requires { kind (record_at at.now.store.now at.now.i) ≡ 5 }
    ensures { (before : Net) → PoliciesOf before known → NodeAnswered before (record_at at.now.store.now at.now.i) (records_after at.now.n at.now.store.now at.now.i) result }
{
    let r = at.record();
    let kind = NodeKind::from(r[2]);
    let Some(here) = known.entered(r[1]) else {
        return Err(Row::Node);
    };
    if !operands_good(kind, r[3], r[4], here.nodes) {
        return Err(Row::Node);
    }
    let y = y_free(kind, r[3], r[4], here.free);
    if y && at.ends_policy() {
        return Err(Row::Node);
    }
    if records::MOST_POLICIES <= r[1] || records::MOST_NODES <= here.nodes {
        return Err(Row::Limit);
    }
    Ok(here.with_node(y))
}
