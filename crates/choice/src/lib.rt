// The rules of a network, and which of them act on an arrival.
#![tactic(auto)]

ghost use Rattle.std.specs.Prelude.{◌≡◌, suc, true, ◌&&◌, cond, ◌<◌, eqb};
ghost use Rattle.basics.specs.Bit.{bit_of};
ghost use Rattle.format.specs.Record.{priority, records};
ghost use Rattle.widths.specs.Widths.{within_limits};
ghost use Rattle.onestep.specs.ByBytes.{arrival, FrameWithin, of_body, rank_of};
ghost use Rattle.choice.specs.RuleSets.{SetsOf, PatternsOf, RuleSets};

pub mod leads;
pub mod rules;

use patterns::{in_set, matched};
use records::MOST_RULES;
use records::fields::body;
use scan::network::Network;
use states::Frame;
use widths::Widths;

// The rank of the rule of that body where it matches: one above its priority.
#[tactic(auto, unfolding(format::specs::Record::priority))]
pub fn priority_rank(body: &[u8; 20]) -> u32
    ensures { result ≡ suc (priority (of_body body.now)) }
{
    1 + u32::from(body[1]) + 256 * u32::from(body[2])
}

// A rule: its switch, its rank, which is one above its priority, and the ports and the headers that its patterns match, number x
// as bit x.
#[derive(Clone, Copy)]
pub struct RuleSet {
    pub switch: u8,
    pub rank: u32,
    pub ports: u64,
    pub headers: u64,
}

impl RuleSet {
    // In place of a rule where there is none.
    pub const NONE: Self = RuleSet {
        switch: 0,
        rank: 0,
        ports: 0,
        headers: 0,
    };

    // What the record of a rule says.
    #[tactic(auto, using(widths::specs::Laws::Limits::limits, format::specs::Laws::Fields::priority_body))]
    fn of_record(w: Widths, rule: &[u8; 24]) -> Self
        requires { within_limits w ≡ true }
        ensures { SetsOf w rule.now result }
    {
        RuleSet {
            switch: rule[1],
            rank: priority_rank(body(rule)),
            ports: matched(w.p, rule[4], rule[5]),
            headers: matched(w.h, rule[6], rule[7]),
        }
    }

    // With the switch and the rank of the rule of that body, where ports and headers are what its patterns match already.
    fn ranked(self, body: &[u8; 20]) -> Self
        ensures { (w : Widths) → PatternsOf w (of_body body.now) self → SetsOf w (of_body body.now) result }
    {
        RuleSet {
            switch: body[0],
            rank: priority_rank(body),
            ..self
        }
    }

    // The rule matches a frame that arrives.
    fn matches(self, frame: Frame) -> bool
        requires { (frame.port < 64) × (frame.header < 64) }
        ensures { result ≡ (eqb self.switch frame.switch && bit_of self.ports frame.port && bit_of self.headers frame.header) }
    {
        self.switch == frame.switch
            && in_set(self.ports, frame.port)
            && in_set(self.headers, frame.header)
    }

    // Its rank for a frame that arrives: 0 where it does not match.
    fn rank_for(self, frame: Frame) -> u32
        requires { (frame.port < 64) × (frame.header < 64) }
        ensures { result ≡ cond (eqb self.switch frame.switch && bit_of self.ports frame.port && bit_of self.headers frame.header) self.rank 0 }
    {
        if self.matches(frame) { self.rank } else { 0 }
    }
}

// The rank of the rule of that body for a frame that arrives: 0 where it does not match, else one above its priority. Of the rule
// only ports and headers need be what its patterns match. `Rules::rank` answers it by a rule's number.
pub fn rank(w: Widths, body: &[u8; 20], rule: RuleSet, frame: Frame) -> u32
    requires patterns { PatternsOf w (of_body body.now) rule }
    requires frame_within { FrameWithin w frame.port frame.header }
    ensures { result ≡ rank_of w (arrival frame.switch frame.port frame.header) (of_body body.now) }
{
    rule.ranked(body).rank_for(frame)
}

// Works out what each rule says, by its number among the rules.
pub fn rule_sets(net: &Network, sets: &mut [RuleSet; MOST_RULES])
    ensures { RuleSets (records net.now.n net.now.store.now) net.now.layout.widths sets.new }
{
    let l = net.layout;
    for j in 0..l.nodes - l.rules {
        sets[j] = RuleSet::of_record(l.widths, net.record(l.rules + j));
    }
}
