//! Fast objects that are or were prototypes: each has a map of its own, which is copied when it is to change.
ghost use Rattle.std.specs.Prelude.{◌≡◌, ◌+◌, ◌<◌, ◌≤◌, ◌↔◌, ℕ, true, false, IsTrue, None, Some, IfSome, length};
ghost use Rattle.hc_layout.specs.declared.capacity.TheConstants.{MAX_FAST};
ghost use Rattle.hc_value.specs.declared.key.Key.{Key as KeyOfProperty};
ghost use Rattle.hc_value.specs.Field.{IsClassInRange};
ghost use Rattle.hc_value.specs.declared.field.Constness.TheVariants.{Const};
ghost use Rattle.hc_value.specs.declared.prop.Kind.TheVariants.{AccessorProp};
ghost use Rattle.hc_heap.specs.Lawful.{HoldsEntries, IsClassThere, IsKey};
ghost use Rattle.hc_heap.specs.Readings.{gate_in, map_in, root_in, store_in};
ghost use Rattle.hc_heap.specs.States.{Goes};
ghost use Rattle.hc_descs.specs.Entries.{IsOpenMap, LacksName, count_of};
ghost use Rattle.hc_table.specs.Attributes.{IsProper};
ghost use Rattle.hc_table.specs.Changes.{Added, Linked, IsThere, reaches};
ghost use Rattle.hc_table.specs.World.{object, place_of, props_at};
ghost use Rattle.hc_tree.specs.Copying.{CopyGets, MayBeLast, copied_count, copy_need};
ghost use Rattle.hc_tree.specs.Growth.{IsUnmoved, MayBePrototype};
ghost use Rattle.hc_tree.specs.Needs.{HasSpace};
ghost use Rattle.hc_tree.specs.Tree.{IsProperKey, IsTree, gate_with, tagged_field};
ghost use Rattle.hc_tree.specs.Details.{NoMap};
ghost use Rattle.hc_modes.specs.Rest.{DeathsAre, MarksBut, Relinks};
ghost use Rattle.hc_modes.specs.Needs.{IsFew};
ghost use Rattle.hc_modes.specs.Came.{Steps, IsStill, world_of};
ghost use Rattle.hc_modes.specs.Admitting.{held_detail};
ghost use Rattle.hc_modes.specs.Changes.{key_of};
ghost use Rattle.hc_modes.specs.Details.{AddKills, AddedGets, DetailsAre, GetsNothing, GrownGets};
ghost use Rattle.hc_modes.specs.Meaning.{kept_of};
ghost use Rattle.hc_modes.specs.Modes.{IsWithin, add_need, link_need};
ghost use Rattle.hc_modes.specs.Privates.{IsCopied, IsGrownAlone, IsMovedToCopy, private_need};
ghost use Rattle.hc_slots.specs.Slots.{AreHandedOut};
ghost use Rattle.hc_table.specs.Ranges.{IsHeldInRange};

use crate::admitting::detail_for_held;
use crate::objects::Objects;
use hc_facts::{honest_after, kept_is_carried, moved_is_carried, stored_is_given};
use hc_heap::{
    Heap, Pace, details_rise, forms_are_kept, gates_are_open, stable_is_kept, unused_says_nothing,
};
use hc_slots::fast::map_of;
use hc_slots::{fill_next, held_word, slots_needed};
use hc_table::changes_keep;
use hc_tree::{
    Need, has_space, maps_are_kept, mark_unstable, of_copy, of_longer_copy, private_copy,
    trees_stay, with_slots,
};
use hc_value::{Constness, Detail, Key, Prop};

// What one property more needs, of an object with n properties and a private map.
fn need_of_growth(n: u32, capacity: u32) -> Need
    requires few { n < MAX_FAST }
    ensures { (key : KeyOfProperty) → result ≡ private_need key n capacity }
{
    with_slots(of_longer_copy(n), slots_needed(n, capacity))
}

// The entry for a property, whose field admits what the property holds.
fn entry_for<P: Pace>(h: &mut Heap<P>, p: Prop) -> (Key, Detail)
    ensures key { result.0 ≡ key_of p }
    ensures detail { result.1 ≡ held_detail h.old.view.trail p.held Const }
    ensures accessor { result.0.kind ≡ AccessorProp → result.1 ≡ tagged_field }
    ensures form { IsClassInRange result.1.class }
    ensures there { IsClassThere h.old.view.shape h.old.view.trail result.1.class }
    ensures same { h.new ≡ record h.old { desk = h.new.desk } }
    ensures goes { Goes h.old.desk h.new.desk }
    ensures went { P.went h.old.pace h.old.desk.trail h.new.desk.trail h.new.pace }
{
    let held = p.held;
    let key = Key {
        name: p.name,
        kind: held.kind(),
        attrs: p.attrs,
    };
    let detail = detail_for_held(h, held, Constness::Const);
    (key, detail)
}

// Makes a map unstable, and then a private copy of it.
pub(crate) fn copy_map<P: Pace>(
    h: &mut Heap<P>,
    map: u32,
    fresh: bool,
    proto: Option<u32>,
    more: Option<(Key, Detail)>,
) -> u32
    requires tree { IsTree h.old.view.trail }
    requires open { IsOpenMap h.old.view.trail map }
    requires few { copied_count more (count_of h.old.view.trail map) ≤ MAX_FAST }
    requires proto { MayBePrototype h.old.view.used h.old.view.trail proto }
    requires alone { IsTrue fresh → more ≡ None }
    requires more { IfSome more (λ e. MayBeLast h.old.view.shape h.old.view.trail map e.0 e.1) }
    requires space { HasSpace h.old.view (copy_need fresh more (count_of h.old.view.trail map)) }
    ensures number { result ≡ h.old.view.used.maps }
    ensures copied { IsCopied fresh more proto h.old.view h.new.view map }
    ensures details { DetailsAre (CopyGets fresh more h.old.view.trail map (count_of h.old.view.trail map) h.old.view.used.fields) h.old.view.trail h.new.view.trail }
    ensures goes { Goes h.old.desk h.new.desk }
    ensures went { P.went h.old.pace h.old.desk.trail h.new.desk.trail h.new.pace }
{
    unused_says_nothing();
    h.stands();
    mark_unstable(h, map);
    let Ok(copy) = private_copy(h, map, fresh, proto, more) else {
        unreachable!()
    };
    copy
}

// Has an object with a private map get a property more: it comes to a copy of its map that has one entry more.
fn grow_to_copy<P: Pace>(h: &mut Heap<P>, object: u32, map: u32, n: u32, p: Prop)
    requires tree { IsTree h.old.view.trail }
    requires few { n < MAX_FAST }
    requires has { map_in h.old.view.trail object ≡ Some map }
    requires open { gate_in h.old.view.trail map ≡ Some (gate_with n true) }
    requires holds { HoldsEntries h.old.view.trail object map (gate_with n true) }
    requires private { IsTrue (root_in h.old.view.trail object).is_proto }
    requires key { IsKey (key_of p) }
    requires proper { IsProperKey (key_of p) }
    requires lacks { LacksName h.old.view.trail map n p.name }
    requires range { IsHeldInRange p.held }
    requires out { AreHandedOut h.old.view.used.slots (store_in h.old.view.trail object) }
    requires handed { object < h.old.view.used.objects }
    requires space { HasSpace h.old.view (private_need (key_of p) n (store_in h.old.view.trail object).capacity) }
    ensures grown { IsGrownAlone h.old.view h.new.view object map n p }
    ensures details { DetailsAre (GrownGets true h.old.view.trail h.old.view.used map n p) h.old.view.trail h.new.view.trail }
    ensures goes { Goes h.old.desk h.new.desk }
    ensures went { P.went h.old.pace h.old.desk.trail h.new.desk.trail h.new.pace }
{
    maps_are_kept();
    details_rise();
    trees_stay();
    unused_says_nothing();
    forms_are_kept();
    gates_are_open();
    h.stands();
    let held = p.held;
    let entry = entry_for(h, p);
    let rep = entry.1.rep;
    let word = held_word(held, rep);
    let proto = h.proto(map).unwrap();
    let copy = copy_map(h, map, false, proto, Some(entry));
    fill_next(h, object, n, word);
    h.set_object_map(object, Some(copy));
}

// Has an object with a private map get a property more. The answer is whether there was room; where there was none,
// nothing is stored.
fn grow_alone<P: Pace>(h: &mut Heap<P>, object: u32, map: u32, n: u32, p: Prop) -> bool
    requires tree { IsTree h.old.view.trail }
    requires few { n < MAX_FAST }
    requires has { map_in h.old.view.trail object ≡ Some map }
    requires open { gate_in h.old.view.trail map ≡ Some (gate_with n true) }
    requires holds { HoldsEntries h.old.view.trail object map (gate_with n true) }
    requires private { IsTrue (root_in h.old.view.trail object).is_proto }
    requires key { IsKey (key_of p) }
    requires proper { IsProperKey (key_of p) }
    requires lacks { LacksName h.old.view.trail map n p.name }
    requires range { IsHeldInRange p.held }
    requires out { AreHandedOut h.old.view.used.slots (store_in h.old.view.trail object) }
    requires handed { object < h.old.view.used.objects }
    ensures room { IsTrue result ↔ HasSpace h.old.view (private_need (key_of p) n (store_in h.old.view.trail object).capacity) }
    ensures grown { IsTrue result → IsGrownAlone h.old.view h.new.view object map n p }
    ensures details { IsTrue result → DetailsAre (GrownGets true h.old.view.trail h.old.view.used map n p) h.old.view.trail h.new.view.trail }
    ensures still { result ≡ false → IsUnmoved h.old h.new }
    ensures goes { Goes h.old.desk h.new.desk }
    ensures went { P.went h.old.pace h.old.desk.trail h.new.desk.trail h.new.pace }
{
    let store = h.store(object);
    if !has_space(h, need_of_growth(n, store.capacity)) {
        return false;
    }
    grow_to_copy(h, object, map, n, p);
    true
}

// Has an object with a private map get another prototype: it comes to a copy of its map that has it. The answer is
// whether there was room; where there was none, nothing is stored.
fn link_alone<P: Pace>(h: &mut Heap<P>, object: u32, map: u32, n: u32, proto: Option<u32>) -> bool
    requires tree { IsTree h.old.view.trail }
    requires has { map_in h.old.view.trail object ≡ Some map }
    requires open { gate_in h.old.view.trail map ≡ Some (gate_with n true) }
    requires holds { HoldsEntries h.old.view.trail object map (gate_with n true) }
    requires private { IsTrue (root_in h.old.view.trail object).is_proto }
    requires handed { object < h.old.view.used.objects }
    requires proto { MayBePrototype h.old.view.used h.old.view.trail proto }
    ensures room { IsTrue result ↔ HasSpace h.old.view (copy_need false None n) }
    ensures linked { IsTrue result → IsMovedToCopy false h.old.view h.new.view object map n proto }
    ensures details { IsTrue result → DetailsAre GetsNothing h.old.view.trail h.new.view.trail }
    ensures still { result ≡ false → IsUnmoved h.old h.new }
    ensures goes { Goes h.old.desk h.new.desk }
    ensures went { P.went h.old.pace h.old.desk.trail h.new.desk.trail h.new.pace }
{
    maps_are_kept();
    details_rise();
    trees_stay();
    unused_says_nothing();
    gates_are_open();
    h.stands();
    if !has_space(h, of_copy(false, n)) {
        return false;
    }
    let copy = copy_map(h, map, false, proto, None);
    h.set_object_map(object, Some(copy));
    true
}

impl<P: Pace> Objects<P> {
    // Gives a fast object that is or was a prototype, and has few properties, a new last one. The answer is whether there
    // was room; where there was none, nothing is stored.
    pub(crate) fn add_private(&mut self, o: u32, p: Prop) -> bool
        requires object { o < length (world_of self.old) }
        requires fast { kept_of self.old.kept o ≡ None }
        requires absent { place_of (props_at (world_of self.old) o) p.name ≡ None }
        requires few { length (props_at (world_of self.old) o) < MAX_FAST }
        requires extensible { (object (world_of self.old) o).extensible ≡ true }
        requires proper { IsProper p }
        requires private { IsTrue (root_in self.old.heap.view.trail o).is_proto }
        ensures room { IsTrue result ↔ HasSpace self.old.heap.view (add_need self.old.heap.view.trail o p) }
        ensures added { IsTrue result → Steps P.went self.old (Added o p) self.new }
        ensures needs { IsWithin (add_need self.old.heap.view.trail o p) self.old.heap.view.used self.new.heap.view.used }
        ensures protos { (q : ℕ) → (root_in self.new.heap.view.trail q).is_proto ≡ (root_in self.old.heap.view.trail q).is_proto }
        ensures still { result ≡ false → IsStill self.old self.new }
        ensures kept { self.new.kept ≡ self.old.kept }
        ensures null { self.new.of_null ≡ self.old.of_null }
        ensures marks { IsTrue result → MarksBut (AddKills self.old.heap.view self.old.kept o p) self.old.heap.view.trail self.new.heap.view.trail o }
        ensures details { IsTrue result → DetailsAre (AddedGets self.old.heap.view o p) self.old.heap.view.trail self.new.heap.view.trail }
    {
        maps_are_kept();
        details_rise();
        trees_stay();
        unused_says_nothing();
        changes_keep();
        forms_are_kept();
        stable_is_kept();
        honest_after();
        kept_is_carried();
        moved_is_carried();
        stored_is_given();
        let map = map_of(&mut self.heap, o);
        let gate = self.heap.gate(map).unwrap();
        grow_alone(&mut self.heap, o, map, gate.entries, p)
    }

    // Gives a fast object that is or was a prototype another prototype, which is or was one already, and whose chain
    // doesn't come to the object. The answer is whether there was room; where there was none, nothing is stored.
    pub(crate) fn link_private(&mut self, o: u32, proto: Option<u32>) -> bool
        requires object { o < length (world_of self.old) }
        requires fast { kept_of self.old.kept o ≡ None }
        requires there { IsThere (world_of self.old) proto }
        requires no_cycle { reaches (world_of self.old) proto o ≡ false }
        requires private { IsTrue (root_in self.old.heap.view.trail o).is_proto }
        requires named { IfSome proto (λ p. IsTrue (root_in self.old.heap.view.trail p).is_proto) }
        ensures room { IsTrue result ↔ HasSpace self.old.heap.view (link_need self.old.heap.view.trail o proto self.old.of_null) }
        ensures linked { IsTrue result → Steps P.went self.old (Linked o proto) self.new }
        ensures needs { IsWithin (link_need self.old.heap.view.trail o proto self.old.of_null) self.old.heap.view.used self.new.heap.view.used }
        ensures protos { (q : ℕ) → (root_in self.new.heap.view.trail q).is_proto ≡ (root_in self.old.heap.view.trail q).is_proto }
        ensures still { result ≡ false → IsStill self.old self.new }
        ensures kept { self.new.kept ≡ self.old.kept }
        ensures null { self.new.of_null ≡ self.old.of_null }
        ensures relinks { IsTrue result → Relinks self.old.heap.view.trail self.new.heap.view.trail o proto }
        ensures details { IsTrue result → DetailsAre GetsNothing self.old.heap.view.trail self.new.heap.view.trail }
        ensures deaths { IsTrue result → DeathsAre NoMap self.old.heap.view.trail self.new.heap.view.trail }
    {
        maps_are_kept();
        details_rise();
        unused_says_nothing();
        changes_keep();
        forms_are_kept();
        stable_is_kept();
        honest_after();
        kept_is_carried();
        moved_is_carried();
        let map = map_of(&mut self.heap, o);
        let gate = self.heap.gate(map).unwrap();
        link_alone(&mut self.heap, o, map, gate.entries, proto)
    }
}
