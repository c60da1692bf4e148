// The rules of a network with what is worked out of them once: what each matches, and which lead each arrival.
ghost use Rattle.std.specs.Prelude.{◌≡◌, [], ◌^◌, ◌<◌, length, get_or};
ghost use Rattle.format.specs.Record.{records, of_kind};
ghost use Rattle.format.specs.State.{state};
ghost use Rattle.states.specs.Frames.{FitsIn};
ghost use Rattle.onestep.specs.ByBytes.{arrival, rank_of};
ghost use Rattle.choice.specs.RuleSets.{RuleSets};
ghost use Rattle.choice.specs.Leads.{lead_at, Leads, AllLead};

use crate::leads::{Lead, MOST_ARRIVING, find_leads};
use crate::{RuleSet, rule_sets};
use records::MOST_RULES;
use scan::network::Network;
use states::Frame;

// The rules of a network, by their numbers among them, and who leads each arrival, by the number of its state,
// in tables that are lent.
#[derive(Drop)]
pub struct Rules<'s, 't> {
    pub net: Network<'s>,
    pub sets: &'t [RuleSet; MOST_RULES],
    pub leads: &'t [Lead; MOST_ARRIVING],
    pub ghost matched: { RuleSets (records net.n net.store.now) net.layout.widths sets.now },
    pub ghost led: { AllLead (records net.n net.store.now) net.layout.widths leads.now },
}

impl<'s, 't> Rules<'s, 't> {
    // Works them out, in these tables.
    pub fn of(
        net: &Network<'s>,
        sets: &'t mut [RuleSet; MOST_RULES],
        leads: &'t mut [Lead; MOST_ARRIVING],
    ) -> Self
        ensures { result.net ≡ net.now }
    {
        rule_sets(net, sets);
        find_leads(net, sets, leads);
        Rules {
            net: *net,
            sets,
            leads,
        }
    }

    // Who leads a frame that arrives.
    pub fn lead(&self, frame: Frame) -> Lead
        requires { FitsIn self.now.net.layout.widths frame }
        ensures is { result ≡ lead_at self.now.leads.now (state self.now.net.layout.widths 0 frame.switch frame.port frame.header) }
        ensures leads { Leads (records self.now.net.n self.now.net.store.now) self.now.net.layout.widths (arrival frame.switch frame.port frame.header) result }
    {
        self.leads[frame.arriving(self.net.layout.widths)]
    }

    // The rank of rule j for a frame that arrives: 0 where it does not match, else one above its priority.
    pub fn rank(&self, j: usize, frame: Frame) -> u32
        requires frame_within { (frame.port < 2 ^ self.now.net.layout.widths.p) × (frame.header < 2 ^ self.now.net.layout.widths.h) }
        requires j_bound { j < length (of_kind 4 (records self.now.net.n self.now.net.store.now)) }
        ensures { result ≡ rank_of self.now.net.layout.widths (arrival frame.switch frame.port frame.header) (get_or (of_kind 4 (records self.now.net.n self.now.net.store.now)) j []) }
    {
        let rule = self.sets[j];
        rule.rank_for(frame)
    }
}
