//! The entries of maps, as properties of the objects that have the map.
ghost use Rattle.std.specs.Prelude.{◌≡◌, ◌<◌, Some, IsSomeAnd};
ghost use Rattle.hc_descs.specs.Entries.{key_at, detail_at};
ghost use Rattle.hc_heap.specs.Readings.{gate_in, store_in};
ghost use Rattle.hc_heap.specs.States.{Goes, OnlyLoads};
ghost use Rattle.hc_slots.specs.Meaning.{IsConstnessFor, held_in, prop_in, slot_word};
ghost use Rattle.hc_value.specs.Prop.{kind_of};

use crate::held::held_of;
use crate::slots::word_of_slot;
use hc_heap::{Heap, Pace, gates_are_open, unused_says_nothing};
use hc_value::{Constness, Detail, Held, Key, Prop};

// What a map's k-th entry says: its key, and what its field admits.
pub(crate) fn entry_of<P: Pace>(h: &mut Heap<P>, map: u32, k: u32) -> (Key, Detail)
    requires entry { IsSomeAnd (gate_in h.old.view.trail map) (λ g. k < g.entries) }
    ensures key { key_at h.old.view.trail map k ≡ Some result.0 }
    ensures detail { detail_at h.old.view.trail map k ≡ Some result.1 }
    ensures new { h.new ≡ record h.old { desk = h.new.desk } }
    ensures loads { OnlyLoads 4 h.old.desk h.new.desk }
    ensures goes { Goes h.old.desk h.new.desk }
    ensures went { P.went h.old.pace h.old.desk.trail h.new.desk.trail h.new.pace }
{
    gates_are_open();
    unused_says_nothing();
    h.stands();
    let base = h.base(map).unwrap();
    let key = h.entry_key(base + k).unwrap();
    let field = h.reference(base + k).unwrap();
    (key, h.detail(field).unwrap())
}

// The property of a map's k-th entry, with the word of an object's k-th slot.
pub(crate) fn prop_of_entry<P: Pace>(h: &mut Heap<P>, object: u32, map: u32, k: u32) -> Prop
    requires entry { IsSomeAnd (gate_in h.old.view.trail map) (λ g. k < g.entries) }
    requires slot { k < (store_in h.old.view.trail object).capacity }
    ensures value { result ≡ prop_in h.old.view.trail object map k }
    ensures new { h.new ≡ record h.old { desk = h.new.desk } }
    ensures loads { OnlyLoads 6 h.old.desk h.new.desk }
    ensures goes { Goes h.old.desk h.new.desk }
    ensures went { P.went h.old.pace h.old.desk.trail h.new.desk.trail h.new.pace }
{
    let (key, detail) = entry_of(h, map, k);
    let word = word_of_slot(h, object, k);
    let held = held_of(key.kind, detail.rep, word);
    Prop {
        name: key.name,
        attrs: key.attrs,
        held,
    }
}

/// What constness the field of an object's k-th slot is asked for, where the slot is to hold this: a constant field stays so
/// only where this is held already. Of a mutable one nothing is read.
pub fn constness_for<P: Pace>(
    h: &mut Heap<P>,
    object: u32,
    k: u32,
    detail: Detail,
    held: &Held,
) -> Constness
    requires within { k < (store_in h.old.view.trail object).capacity }
    ensures constness { IsConstnessFor detail.constness (held_in (kind_of held.now) detail.rep (slot_word h.old.view.trail object k)) held.now result }
    ensures new { h.new ≡ record h.old { desk = h.new.desk } }
    ensures loads { OnlyLoads 2 h.old.desk h.new.desk }
    ensures goes { Goes h.old.desk h.new.desk }
    ensures went { P.went h.old.pace h.old.desk.trail h.new.desk.trail h.new.pace }
{
    if detail.constness == Constness::Mutable {
        return Constness::Mutable;
    }
    let word = word_of_slot(h, object, k);
    if held_of(held.kind(), detail.rep, word) == *held {
        return Constness::Const;
    }
    Constness::Mutable
}
