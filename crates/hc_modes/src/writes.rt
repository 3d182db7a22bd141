//! Changes of one object that is fast.
ghost use Rattle.std.specs.Prelude.{ℕ, ◌≡◌, ◌<◌, ◌↔◌, true, false, IsTrue, None, Some, IfSome, length};
ghost use Rattle.hc_layout.specs.declared.capacity.TheConstants.{MAX_FAST};
ghost use Rattle.hc_value.specs.Prop.{kind_of};
ghost use Rattle.hc_heap.specs.Readings.{root_in};
ghost use Rattle.hc_tree.specs.Needs.{HasSpace};
ghost use Rattle.hc_table.specs.Attributes.{IsProper};
ghost use Rattle.hc_table.specs.Changes.{Added, Wrote, kind_at};
ghost use Rattle.hc_table.specs.World.{object, props_at, place_of};
ghost use Rattle.hc_modes.specs.Details.{AddKills, AddedGets, DetailsAre, DetailsFirst, WroteGets};
ghost use Rattle.hc_modes.specs.Admitting.{FitsField};
ghost use Rattle.hc_modes.specs.Filling.{HasChildFor};
ghost use Rattle.hc_modes.specs.Rest.{Marks, MarksBut};
ghost use Rattle.hc_modes.specs.Modes.{IsWithin, add_need};
ghost use Rattle.hc_modes.specs.Meaning.{kept_of};
ghost use Rattle.hc_modes.specs.State.{IsLive};
ghost use Rattle.hc_table.specs.Ranges.{IsHeldInRange};
ghost use Rattle.hc_modes.specs.Came.{Steps, IsStill, world_of};

use crate::admitting::ask_field;
use crate::growing::grow_object;
use crate::objects::Objects;
use hc_facts::{
    honest_after, kept_is_carried, moved_is_carried, stored_is_given, storing_keeps_constants,
};
use hc_heap::{
    Pace, details_rise, forms_are_kept, gates_are_open, stable_is_kept, unused_says_nothing,
};
use hc_slots::fast::map_of;
use hc_slots::{held_word, put_slot};
use hc_table::changes_keep;
use hc_tree::{maps_are_kept, trees_stay};
use hc_value::{Held, Prop};

impl<P: Pace> Objects<P> {
    // Has the property of a fast object at a place hold something else of its kind, which joins in place with what its field
    // admits. The field admits that first, and stays constant only where that is held already.
    pub(crate) fn write_fast(&mut self, o: u32, i: u32, held: Held)
        requires object { o < length (world_of self.old) }
        requires fast { kept_of self.old.kept o ≡ None }
        requires kind { kind_at (props_at (world_of self.old) o) i ≡ Some (kind_of held) }
        requires range { IsHeldInRange held }
        requires place { FitsField self.old.heap.view.trail o i held }
        ensures steps { Steps P.went self.old (Wrote o i held) self.new }
        ensures kept { self.new.kept ≡ self.old.kept }
        ensures null { self.new.of_null ≡ self.old.of_null }
        ensures used { self.new.heap.view.used ≡ self.old.heap.view.used }
        ensures protos { (q : ℕ) → (root_in self.new.heap.view.trail q).is_proto ≡ (root_in self.old.heap.view.trail q).is_proto }
        ensures marks { Marks self.old.heap.view.trail self.new.heap.view.trail o }
        ensures order { DetailsFirst self.old.heap.view.trail self.new.heap.view.trail }
        ensures details { DetailsAre (WroteGets self.old.heap.view.trail self.old.kept o i held) self.old.heap.view.trail self.new.heap.view.trail }
    {
        maps_are_kept();
        details_rise();
        trees_stay();
        unused_says_nothing();
        gates_are_open();
        changes_keep();
        forms_are_kept();
        honest_after();
        kept_is_carried();
        stored_is_given();
        storing_keeps_constants();
        let again = held;
        let rep = ask_field(&mut self.heap, o, i, held);
        let word = held_word(again, rep);
        put_slot(&mut self.heap, o, i, word);
    }

    // Gives a fast object that has few properties, and isn't a prototype, a new last one, by the child of its map, which may be
    // known. The answer is whether there was room; where there was none, nothing is stored.
    pub(crate) fn add_fast(&mut self, o: u32, p: Prop, known: Option<u32>) -> bool
        requires object { o < length (world_of self.old) }
        requires fast { kept_of self.old.kept o ≡ None }
        requires absent { place_of (props_at (world_of self.old) o) p.name ≡ None }
        requires few { length (props_at (world_of self.old) o) < MAX_FAST }
        requires extensible { (object (world_of self.old) o).extensible ≡ true }
        requires proper { IsProper p }
        requires shared { (root_in self.old.heap.view.trail o).is_proto ≡ false }
        requires live { IsLive self.old.heap.view.trail o }
        requires known { IfSome known (λ child. HasChildFor self.old.heap.view.trail o child (length (props_at (world_of self.old) o)) p) }
        ensures room { IsTrue result ↔ HasSpace self.old.heap.view (add_need self.old.heap.view.trail o p) }
        ensures added { IsTrue result → Steps P.went self.old (Added o p) self.new }
        ensures still { result ≡ false → IsStill self.old self.new }
        ensures needs { IsWithin (add_need self.old.heap.view.trail o p) self.old.heap.view.used self.new.heap.view.used }
        ensures protos { (q : ℕ) → (root_in self.new.heap.view.trail q).is_proto ≡ (root_in self.old.heap.view.trail q).is_proto }
        ensures kept { self.new.kept ≡ self.old.kept }
        ensures null { self.new.of_null ≡ self.old.of_null }
        ensures marks { IsTrue result → MarksBut (AddKills self.old.heap.view self.old.kept o p) self.old.heap.view.trail self.new.heap.view.trail o }
        ensures details { IsTrue result → DetailsAre (AddedGets self.old.heap.view o p) self.old.heap.view.trail self.new.heap.view.trail }
    {
        maps_are_kept();
        details_rise();
        trees_stay();
        unused_says_nothing();
        changes_keep();
        forms_are_kept();
        stable_is_kept();
        honest_after();
        kept_is_carried();
        moved_is_carried();
        stored_is_given();
        let map = map_of(&mut self.heap, o);
        let gate = self.heap.gate(map).unwrap();
        grow_object(&mut self.heap, o, map, gate.entries, p, known)
    }
}
