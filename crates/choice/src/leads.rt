// Which rules lead: for each arriving state the highest rank of a rule that matches it, and between which rules those of that
// rank stand. Each rule is painted once over the states that it matches.
ghost use Rattle.std.specs.Prelude.{◌≡◌, true, ◌&&◌, ◌^◌, ◌<◌, eqb};
ghost use Rattle.basics.specs.Bit.{bit_of};
ghost use Rattle.format.specs.Record.{records};
ghost use Rattle.widths.specs.Widths.{within_limits};
ghost use Rattle.choice.specs.RuleSets.{PatternSets};
ghost use Rattle.choice.specs.Leads.{NoneLead, raised, Painted, AllLead};

use crate::RuleSet;
use patterns::in_set;
use records::MOST_RULES;
use records::fields::body;
use scan::network::Network;
use states::{Frame, values};
use widths::Widths;

// How many states arrive, at most.
pub const MOST_ARRIVING: usize = 512;

// The highest rank of the rules that match an arrival, 0 where none does, and the first and the last rule of that rank, by their
// numbers among the rules. 0 and no Option, as `rank_of` says: no rule that matches has it.
#[derive(Clone, Copy)]
pub struct Lead {
    pub rank: u32,
    pub first: u8,
    pub last: u8,
}

impl Lead {
    // No rule matches.
    pub const NONE: Self = Lead {
        rank: 0,
        first: 0,
        last: 0,
    };

    // Counts rule j, which has this rank.
    #[tactic(auto, using(crate::proofs::PaintedLeads::takes_lead, crate::proofs::PaintedLeads::joins_lead, crate::proofs::PaintedLeads::stays_behind))]
    fn raise(&mut self, rank: u32, j: u8)
        ensures { self.new ≡ raised rank j self.old }
    {
        if self.rank < rank {
            *self = Lead {
                rank,
                first: j,
                last: j,
            };
        } else if self.rank == rank {
            self.last = j;
        }
    }
}

// Counts rule j for the arrivals at its switch with this header, at each port that it matches. The inner loop of raise_rule: one
// for both over a closure would need a contract of what each paints.
#[tactic(auto, using(widths::specs::Laws::Limits::limits))]
fn raise_ports(leads: &mut [Lead; MOST_ARRIVING], w: Widths, rule: &RuleSet, header: u8, j: u8)
    requires { (within_limits w ≡ true) × (rule.now.switch < 2 ^ w.w) × (header < 2 ^ w.h) }
    ensures { Painted w (λ a. eqb rule.now.switch a.switch && bit_of rule.now.ports a.port && eqb a.header header) rule.now.rank j leads.old leads.new }
{
    for port in 0..values(w.p) {
        if in_set(rule.ports, port) {
            let frame = Frame {
                switch: rule.switch,
                port,
                header,
            };
            leads[frame.arriving(w)].raise(rule.rank, j);
        }
    }
}

// Counts rule j for the arrivals that it matches.
#[tactic(auto, using(widths::specs::Laws::Limits::limits))]
fn raise_rule(leads: &mut [Lead; MOST_ARRIVING], w: Widths, rule: &RuleSet, j: u8)
    requires { (within_limits w ≡ true) × (rule.now.switch < 2 ^ w.w) }
    ensures { Painted w (λ a. eqb rule.now.switch a.switch && bit_of rule.now.ports a.port && bit_of rule.now.headers a.header) rule.now.rank j leads.old leads.new }
{
    for header in 0..values(w.h) {
        if in_set(rule.headers, header) {
            raise_ports(leads, w, rule, header, j);
        }
    }
}

// No rule leads an arrival yet. Of the states those that arrive are the first half, and the table has no other in use.
#[tactic(auto, using(widths::specs::Laws::Limits::limits, format::specs::Laws::States::few_states))]
fn clear(leads: &mut [Lead; MOST_ARRIVING], w: Widths)
    requires { within_limits w ≡ true }
    ensures { NoneLead w leads.new }
{
    leads[..w.states() / 2].fill(Lead::NONE);
}

// Finds for each arrival, by the number of its state, which rules lead. Of the sets only ports and headers need be what a rule's
// patterns match: its switch and its rank are read from its record.
pub fn find_leads(net: &Network, sets: &[RuleSet; MOST_RULES], leads: &mut [Lead; MOST_ARRIVING])
    requires { PatternSets (records net.now.n net.now.store.now) net.now.layout.widths sets.now }
    ensures { AllLead (records net.now.n net.now.store.now) net.now.layout.widths leads.new }
{
    let l = net.layout;
    clear(leads, l.widths);
    for j in 0..l.nodes - l.rules {
        let rule = sets[j].ranked(body(net.record(l.rules + j)));
        // A `usize` has no `From` into a `u8`; the rules are at most 256.
        raise_rule(leads, l.widths, &rule, j as u8);
    }
}
