//! From the words of links, and of the child of one, to the next look.
#![tactic(auto, unfolding(crate::specs::Machine::rest_at, hc_question::specs::Question::links_from))]

ghost use Rattle.std.specs.Prelude.{◌≡◌, ◌+◌, ◌<◌, ◌≤◌};
ghost use Rattle.hc_question.specs.Question.{is_added, of_child, child_bits, child_gate, child_entries};
ghost use Rattle.hc_planner.specs.Left.{left_at, tail_left, links_left};
ghost use Rattle.hc_planner.specs.Machine.{Asks, AsksAfter, add_on, links_on, link_key_seen, child_reference_seen};

use crate::at::{At, FieldLook, LinkLook, Purpose};
use crate::own::{found, skipped};
use crate::seeker::Search;
use bitflags::Flags;
use hc_layout::{GateWord, MapBits};
use hc_plan::{Skip, Way};
use hc_value::{Attrs, Key, Kind};

// Whether a key is that of a property of the name that a store adds.
fn is_added(name: u32, key: Key) -> bool
    ensures { result ≡ is_added name key }
{
    let added = Key {
        name,
        kind: Kind::DataProp,
        attrs: Attrs::empty(),
    };
    key == added
}

impl Search {
    /// A store adds the property.
    pub(crate) fn added(&self) -> At
        ensures asks { Asks self.now result (add_on self.now) }
        ensures fewer { left_at result ≤ tail_left }
    {
        if self.gate.is_locked {
            return found(Way::Reject);
        }
        if self.gate.is_private {
            return skipped(Skip::PrototypeMap(self.map));
        }
        At::Link(LinkLook::Head)
    }

    pub(crate) fn after_head(&self, head: Option<Option<u32>>) -> At
        ensures asks { AsksAfter self.now result head (links_on self.now self.now.most) }
        ensures fewer { left_at result < tail_left }
    {
        let Some(head) = head else {
            return At::Stopped;
        };
        self.links(self.most, head)
    }

    /// The links from one on, so many.
    fn links(&self, left: u32, link: Option<u32>) -> At
        ensures asks { Asks self.now result (λ next. links_on self.now left next link) }
        ensures fewer { left_at result ≤ links_left left }
    {
        let Some(link) = link else {
            return skipped(Skip::NoLink(self.map));
        };
        if left == 0 {
            At::Stopped
        } else {
            At::Link(LinkLook::Key {
                link,
                left: left - 1,
            })
        }
    }

    pub(crate) fn after_link_key(&self, link: u32, left: u32, key: Option<Key>) -> At
        ensures asks { AsksAfter self.now result key (link_key_seen self.now link left) }
        ensures fewer { left_at result < left_at (At.Link (LinkLook.Key link left)) }
    {
        let Some(key) = key else {
            return At::Stopped;
        };
        if is_added(self.what.name, key) {
            At::Link(LinkLook::Child { link })
        } else {
            At::Link(LinkLook::Next { link, left })
        }
    }

    pub(crate) fn after_next(&self, left: u32, next_link: Option<Option<u32>>) -> At
        ensures asks { AsksAfter self.now result next_link (links_on self.now left) }
        ensures fewer { left_at result < 1 + links_left left }
    {
        let Some(link) = next_link else {
            return At::Stopped;
        };
        self.links(left, link)
    }

    pub(crate) fn after_child(&self, child: Option<u32>) -> At
        ensures asks { AsksAfter self.now result child (of_child self.now.chain) }
        ensures fewer { left_at result < 8 }
    {
        match child {
            Some(child) => At::Link(LinkLook::Bits { child }),
            None => At::Stopped,
        }
    }

    pub(crate) fn after_child_bits(&self, child: u32, bits: Option<MapBits>) -> At
        ensures asks { AsksAfter self.now result bits (child_bits child self.now.chain) }
        ensures fewer { left_at result < 7 }
    {
        let Some(bits) = bits else {
            return At::Stopped;
        };
        if bits.deprecated {
            skipped(Skip::Dead(child))
        } else {
            At::Link(LinkLook::Gate { child })
        }
    }

    pub(crate) fn after_child_gate(&self, child: u32, gate: Option<GateWord>) -> At
        ensures asks { AsksAfter self.now result gate (child_gate child self.now.chain) }
        ensures fewer { left_at result < 6 }
    {
        let Some(gate) = gate else {
            return At::Stopped;
        };
        if gate.entries == 0 {
            At::Stopped
        } else {
            At::Link(LinkLook::Base {
                child,
                slot: gate.entries - 1,
            })
        }
    }

    pub(crate) fn after_child_base(&self, child: u32, slot: u32, base: Option<Option<u32>>) -> At
        ensures asks { AsksAfter self.now result base (child_entries child slot self.now.chain) }
        ensures fewer { left_at result < 5 }
    {
        let Some(base) = base else {
            return At::Stopped;
        };
        let Some(first) = base else {
            return At::Stopped;
        };
        At::Link(LinkLook::Reference { child, slot, first })
    }

    pub(crate) fn after_child_reference(&self, child: u32, slot: u32, field: Option<u32>) -> At
        ensures asks { AsksAfter self.now result field (child_reference_seen self.now child slot) }
        ensures fewer { left_at result < 4 }
    {
        match field {
            Some(field) => At::Field(FieldLook::Detail {
                purpose: Purpose::Add { child, slot },
                field,
            }),
            None => At::Stopped,
        }
    }
}
