// A turn of the scan at each kind of record: the lowest row that the record meets, or what is known of the records before the next.
#![tactic(auto)]

pub mod turn;

ghost use Rattle.std.specs.Prelude.{◌≡◌, ℕ, ◌+◌, ◌^◌, ◌≤◌, ◌<◌, [], ◌∷◌, ◌++◌, false, ltb, OnOk};
ghost use Rattle.planes.specs.Plane.{bit};
ghost use Rattle.format.specs.Record.{most_groups, kind, records};
ghost use Rattle.refusals.specs.Rows.{row3, row16};
ghost use Rattle.rows.specs.Noted.{KeysNoted, PointsNoted};
ghost use Rattle.recordrow.specs.Scan.{NotedOf, Later, Turned};
ghost use Rattle.recordrow.specs.Turn.{before_turn, at_turn, after_turn};

use crate::turn::Turn;
use format::kinds::RecordKind;
use noderows::Policies;
use records::fields;
use records::groups::group_good;
use refusals::Row;
use rows::groups::Groups;
use rows::{groups, links, rules};
use widths::Widths;

// What is known of the records before: the kind byte of the last one, 0 if there is none, the widths, how many links, misses and
// rules there are, the policies and the groups.
#[derive(Clone, Copy)]
pub struct Seen {
    // A byte, 0 for none, and no Option of a RecordKind: row 3 compares bytes, those of no kind too.
    pub last: u8,
    pub widths: Widths,
    pub links: usize,
    pub misses: usize,
    pub rules: usize,
    pub policies: Policies,
    pub groups: Groups,
}

impl Seen {
    // The misses are fewer than the switches.
    pub fn incomplete(&self) -> bool
        requires { self.now.widths.w ≤ 4 }
        ensures { result ≡ ltb self.now.misses (2 ^ self.now.widths.w) }
    {
        self.misses < 1usize << self.widths.w
    }
}

// What is noted of the records before: the keys of the rules, and the points where the links end.
#[derive(Drop)]
pub struct Notes {
    pub keys: [u8; 512],
    pub points: [u8; 32],
}

impl Notes {
    // Those of no record, with no key noted: one noted in vain would cost a search.
    pub fn new() -> Notes
        ensures noted { NotedOf [] result }
        ensures blank { (k : ℕ) → bit result.keys k ≡ false }
    {
        Notes {
            keys: [0; 512],
            points: [0; 32],
        }
    }
}

impl Turn<'_, '_> {
    // Row 3 of a record that is not the widths record: none of those stands before it, or a higher kind does.
    fn misplaced(&self) -> bool
        requires { Later (at_turn self.now) }
        ensures is { result ≡ row3 (before_turn self.now) (at_turn self.now) }
        ensures later { result ≡ false → self.now.seen.last ≡ 0 → ⊥ }
    {
        self.seen.last == 0 || self.at.record()[0] < self.seen.last
    }

    // The widths record.
    fn widths(&self) -> Result<Seen, Row>
        requires { kind (at_turn self.now) ≡ 1 }
        ensures { Turned (before_turn self.now) (at_turn self.now) (after_turn self.now) result }
    {
        let r = self.at.record();
        let widths = fields::widths_at(r);
        if self.seen.last != 0 {
            return Err(Row::Kind);
        }
        if !widths.within_limits() {
            return Err(Row::Widths);
        }
        if !fields::widths_record_good(r) {
            return Err(Row::Field);
        }
        Ok(Seen {
            last: r[0],
            widths,
            ..self.seen
        })
    }

    // A link, where the points at which the links before end are noted; if it is let in, so are its own.
    fn link(&self, points: &mut [u8; 32]) -> Result<Seen, Row>
        requires { (kind (at_turn self.now) ≡ 2) × PointsNoted (before_turn self.now) points.old }
        ensures { Turned (before_turn self.now) (at_turn self.now) (after_turn self.now) result × OnOk result (PointsNoted (before_turn self.now ++ (at_turn self.now ∷ [])) points.new) }
    {
        let r = self.at.record();
        if self.misplaced() {
            return Err(Row::Kind);
        }
        if !fields::link_good(self.seen.widths, r) {
            return Err(Row::Field);
        }
        if links::is_misplaced(points, self.seen.widths, r) {
            return Err(Row::Link);
        }
        links::note_ends(points, r);
        Ok(Seen {
            last: r[0],
            links: self.seen.links + 1,
            ..self.seen
        })
    }

    // A miss.
    fn miss(&self) -> Result<Seen, Row>
        requires { kind (at_turn self.now) ≡ 3 }
        ensures { Turned (before_turn self.now) (at_turn self.now) (after_turn self.now) result }
    {
        let r = self.at.record();
        if self.misplaced() {
            return Err(Row::Kind);
        }
        if !fields::miss_good(self.seen.widths, r) {
            return Err(Row::Field);
        }
        if usize::from(r[1]) != self.seen.misses {
            return Err(Row::Miss);
        }
        if !groups::actions_there(self.there, r) {
            return Err(Row::Group);
        }
        Ok(Seen {
            last: r[0],
            misses: self.seen.misses + 1,
            ..self.seen
        })
    }

    // A rule, where the keys of the rules before are noted; if it is let in, so is its own.
    fn rule(&self, keys: &mut [u8; 512]) -> Result<Seen, Row>
        requires { (kind (at_turn self.now) ≡ 4) × KeysNoted (before_turn self.now) keys.old }
        ensures { Turned (before_turn self.now) (at_turn self.now) (after_turn self.now) result × OnOk result (KeysNoted (before_turn self.now ++ (at_turn self.now ∷ [])) keys.new) }
    {
        let r = self.at.record();
        if self.misplaced() {
            return Err(Row::Kind);
        }
        if !fields::rule_good(self.seen.widths, r) {
            return Err(Row::Field);
        }
        if self.seen.incomplete() {
            return Err(Row::Miss);
        }
        if rules::is_repeated(self.at.store, self.at.i, r, keys) {
            return Err(Row::SameRule);
        }
        if records::MOST_RULES <= self.seen.rules {
            return Err(Row::Limit);
        }
        if !groups::actions_there(self.there, r) {
            return Err(Row::Group);
        }
        Ok(Seen {
            last: r[0],
            rules: self.seen.rules + 1,
            ..self.seen
        })
    }

    // A policy node.
    fn node(&self) -> Result<Seen, Row>
        requires { kind (at_turn self.now) ≡ 5 }
        ensures { Turned (before_turn self.now) (at_turn self.now) (after_turn self.now) result }
    {
        let r = self.at.record();
        if self.misplaced() {
            return Err(Row::Kind);
        }
        if !fields::policy_node_good(self.seen.widths, r) {
            return Err(Row::Field);
        }
        if self.seen.incomplete() {
            return Err(Row::Miss);
        }
        let policies = noderows::add_node(&self.at, self.seen.policies)?;
        Ok(Seen {
            last: r[0],
            policies,
            ..self.seen
        })
    }

    // Row 16 of a group's record.
    fn group_faulty(&self) -> bool
        requires { (kind (at_turn self.now) ≡ 9) × (self.now.seen.last ≡ 0 → ⊥) }
        ensures is { result ≡ row16 (before_turn self.now) (at_turn self.now) (after_turn self.now) }
        ensures few { result ≡ false → self.now.seen.groups.count < most_groups }
    {
        let r = self.at.record();
        !group_good(self.seen.widths, r)
            || self.seen.groups.out_of_order(r)
            || records::MOST_GROUPS <= self.seen.groups.count
            || !groups::buckets_there(self.there, r)
    }

    // A group.
    fn group(&self) -> Result<Seen, Row>
        requires { kind (at_turn self.now) ≡ 9 }
        ensures { Turned (before_turn self.now) (at_turn self.now) (after_turn self.now) result }
    {
        let r = self.at.record();
        if self.misplaced() {
            return Err(Row::Kind);
        }
        if self.seen.incomplete() {
            return Err(Row::Miss);
        }
        if self.group_faulty() {
            return Err(Row::Group);
        }
        Ok(Seen {
            last: r[0],
            groups: self.seen.groups.with_group(r),
            ..self.seen
        })
    }
}

// A record, where the keys and points of the records before are noted: the kind byte decides how the other 23 are read. Each kind
// has a step of its own with other arguments: a closure for each would be no plainer.
pub fn turn_at(turn: &Turn, notes: &mut Notes) -> Result<Seen, Row>
    requires { NotedOf (before_turn turn.now) notes.old }
    ensures { Turned (before_turn turn.now) (at_turn turn.now) (after_turn turn.now) result × OnOk result (NotedOf (records (turn.now.at.i + 1) turn.now.at.store.now) notes.new) }
{
    match RecordKind::from(turn.at.record()[0]) {
        RecordKind::Widths => turn.widths(),
        RecordKind::Link => turn.link(&mut notes.points),
        RecordKind::Miss => turn.miss(),
        RecordKind::Rule => turn.rule(&mut notes.keys),
        RecordKind::Node => turn.node(),
        RecordKind::Group => turn.group(),
        RecordKind::Unknown => Err(Row::Kind),
    }
}
