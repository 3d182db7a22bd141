//! From the words of the map itself, and from those of a searched map's entries, to the next look.
#![tactic(auto, unfolding(crate::specs::Machine::rest_at, hc_question::specs::Question::search))]

ghost use Rattle.std.specs.Prelude.{◌≡◌, ◌==◌, ◌<◌, ◌+◌, ◌-◌, ◌^◌, if◌then◌else◌, IfSome, ◌≤◌};
ghost use Rattle.hc_value.specs.Attrs.{is_read_only};
ghost use Rattle.hc_question.specs.Question.{own_entry};
ghost use Rattle.hc_planner.specs.Left.{left_at, search_left, missing_left, tail_left};
ghost use Rattle.hc_planner.specs.Machine.{Asks, AsksAfter, bits_seen, gate_seen, found_in, missing_in, search_on, in_searched, base_seen, key_seen};

use crate::at::{At, FieldLook, MapLook, Purpose, Searched};
use crate::seeker::Search;
use bitflags::Flags;
use hc_layout::{GateWord, MapBits};
use hc_plan::{Op, Skip, Way};
use hc_question::Answer;
use hc_value::{Attrs, Key, Kind};

pub(crate) fn found(way: Way) -> At
    ensures { result ≡ At.Ended (Answer.Found way) }
{
    At::Ended(Answer::Found(way))
}

pub(crate) fn skipped(skip: Skip) -> At
    ensures { result ≡ At.Ended (Answer.Skipped skip) }
{
    At::Ended(Answer::Skipped(skip))
}

/// Whether ReadOnly is set.
pub(crate) fn read_only(attrs: Attrs) -> bool
    ensures { result ≡ is_read_only attrs }
{
    attrs.contains(Attrs::READ_ONLY)
}

impl Search {
    pub(crate) fn after_bits(&self, bits: Option<MapBits>) -> At
        ensures asks { AsksAfter self.now result bits (bits_seen self.now) }
        ensures fewer { left_at result < left_at (At.Map MapLook.Bits) }
    {
        let Some(bits) = bits else {
            return At::Stopped;
        };
        if bits.deprecated {
            skipped(Skip::Dead(self.map))
        } else {
            At::Map(MapLook::Gate)
        }
    }

    pub(crate) fn after_gate(&mut self, gate: Option<GateWord>) -> At
        ensures asks { AsksAfter self.new result gate (gate_seen self.old) }
        ensures fewer { left_at result < left_at (At.Map MapLook.Gate) }
        ensures same { self.new.map ≡ self.old.map }
    {
        let Some(gate) = gate else {
            return At::Stopped;
        };
        self.gate = gate;
        self.entries_of(Searched::Own, self.map, gate.entries)
    }

    /// The entries of a map.
    pub(crate) fn entries_of(&self, searched: Searched, map: u32, entries: u32) -> At
        ensures asks { Asks self.now result (in_searched self.now searched map entries) }
        ensures fewer { left_at result ≤ 1 + search_left searched entries }
    {
        if entries == 0 {
            self.missing(searched)
        } else {
            At::Map(MapLook::Base {
                searched,
                map,
                entries,
            })
        }
    }

    /// The searched map has no entry of the name.
    fn missing(&self, searched: Searched) -> At
        ensures asks { Asks self.now result (missing_in self.now searched) }
        ensures fewer { left_at result ≤ missing_left searched }
    {
        match searched {
            Searched::Own => At::Map(MapLook::Proto),
            Searched::Holder { proto, left, .. } => self.walked(left, proto),
        }
    }

    pub(crate) fn after_base(
        &self,
        searched: Searched,
        entries: u32,
        base: Option<Option<u32>>,
    ) -> At
        ensures asks { AsksAfter self.now result base (base_seen self.now searched entries) }
        ensures fewer { left_at result < 1 + search_left searched entries }
    {
        let Some(base) = base else {
            return At::Stopped;
        };
        let Some(first) = base else {
            return At::Stopped;
        };
        self.search(searched, first, first, entries)
    }

    /// The entries of the searched map from one on, so many.
    fn search(&self, searched: Searched, first: u32, entry: u32, left: u32) -> At
        ensures asks { Asks self.now result (search_on self.now searched first entry left) }
        ensures fewer { left_at result ≤ search_left searched left }
    {
        if left == 0 {
            self.missing(searched)
        } else {
            At::Map(MapLook::Key {
                searched,
                first,
                entry,
                left: left - 1,
            })
        }
    }

    pub(crate) fn after_key(
        &self,
        searched: Searched,
        first: u32,
        entry: u32,
        left: u32,
        key: Option<Key>,
    ) -> At
        requires { IfSome key (λ k. entry < 2 ^ 32 - 1) }
        ensures asks { AsksAfter self.now result key (key_seen self.now searched first entry left) }
        ensures fewer { left_at result < 1 + search_left searched left }
    {
        let Some(key) = key else {
            return At::Stopped;
        };
        if key.name == self.what.name {
            self.entry_found(searched, entry, entry.saturating_sub(first), key)
        } else {
            self.search(searched, first, entry + 1, left)
        }
    }

    /// An entry of the searched map has the name.
    fn entry_found(&self, searched: Searched, entry: u32, slot: u32, key: Key) -> At
        ensures asks { Asks self.now result (λ next. found_in self.now searched next entry slot key) }
        ensures fewer { left_at result ≤ tail_left }
    {
        match searched {
            Searched::Own => self.own_found(entry, slot, key),
            Searched::Holder { object, .. } => self.held_found(object, entry, slot, key),
        }
    }

    /// The receiver's own property has the name.
    fn own_found(&self, entry: u32, slot: u32, key: Key) -> At
        ensures asks { Asks self.now result (λ next. own_entry self.now.what self.now.chain next entry slot key) }
        ensures fewer { left_at result ≤ tail_left }
    {
        match (self.what.op, key.kind) {
            (Op::Load, Kind::DataProp) => reference(Purpose::LoadOwn { slot }, entry),
            (Op::Load, Kind::AccessorProp) => found(Way::Getter { object: None, slot }),
            (Op::Store, Kind::DataProp) => own_stored(read_only(key.attrs), entry, slot),
            (Op::Store, Kind::AccessorProp) => found(Way::Setter { object: None, slot }),
        }
    }
}

pub(crate) fn reference(purpose: Purpose, entry: u32) -> At
    ensures { result ≡ At.Field (FieldLook.Reference purpose entry) }
{
    At::Field(FieldLook::Reference { purpose, entry })
}

// A store to the receiver's own data property.
fn own_stored(read_only: bool, entry: u32, slot: u32) -> At
    ensures { result ≡ (if read_only then At.Ended (Answer.Found Way.Reject) else At.Field (FieldLook.Reference (Purpose.StoreOwn slot) entry)) }
{
    if read_only {
        found(Way::Reject)
    } else {
        reference(Purpose::StoreOwn { slot }, entry)
    }
}
