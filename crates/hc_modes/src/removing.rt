//! Properties that are taken away.
ghost use Rattle.std.specs.Prelude.{ℕ, ◌≡◌, ◌+◌, ◌<◌, ◌∷◌, false, IsTrue, IsSomeAnd, None, Some, OnOk, OnErr, length};
ghost use Rattle.hc_value.specs.declared.reply.Cause.TheVariants.{Deleted};
ghost use Rattle.hc_heap.specs.Lawful.{HoldsEntries};
ghost use Rattle.hc_heap.specs.Readings.{gate_in, map_in, root_in};
ghost use Rattle.hc_heap.specs.States.{IsHeap, Goes};
ghost use Rattle.hc_heap.specs.Writes.{ObjectMap};
ghost use Rattle.hc_table.specs.Changes.{Removed};
ghost use Rattle.hc_table.specs.World.{props_at};
ghost use Rattle.hc_tree.specs.Growth.{marked};
ghost use Rattle.hc_tree.specs.Tree.{IsTree};
ghost use Rattle.hc_modes.specs.Rest.{Marks};
ghost use Rattle.hc_modes.specs.Meaning.{kept_of};
ghost use Rattle.hc_modes.specs.Modes.{if_deleted};
ghost use Rattle.hc_modes.specs.Details.{DetailsAre, GetsNothing};
ghost use Rattle.hc_modes.specs.Came.{IsStill, Made, Moves, Steps, world_of};

use crate::objects::Objects;
use hc_dict::Change;
use hc_facts::{constants_stay_on, honest_after, kept_is_carried, moved_is_carried};
use hc_heap::{
    Heap, Pace, details_rise, forms_are_kept, gates_are_open, stable_is_kept, unused_says_nothing,
};
use hc_slots::fast::map_of;
use hc_table::changes_keep;
use hc_tree::{maps_are_kept, mark_unstable, trees_stay};
use hc_value::{Cause, Memory};

// Has an object that is no prototype leave its map for another, which is filled by the object's slots.
fn move_to_parent<P: Pace>(h: &mut Heap<P>, object: u32, map: u32, parent: u32)
    requires tree { IsTree h.old.view.trail }
    requires handed { object < h.old.view.used.objects }
    requires there { map < h.old.view.used.maps }
    requires has { map_in h.old.view.trail object ≡ Some map }
    requires shared { (root_in h.old.view.trail object).is_proto ≡ false }
    requires parent_there { parent < h.old.view.shape.maps }
    requires filled { IsSomeAnd (gate_in h.old.view.trail parent) (λ g. HoldsEntries h.old.view.trail object parent g) }
    ensures view { h.new.view ≡ record h.old.view { trail = ObjectMap object (Some parent) ∷ marked h.old.view.trail map } }
    ensures marked_tree { IsTree (marked h.old.view.trail map) }
    ensures marked_heap { IsHeap (record h.old.view { trail = marked h.old.view.trail map }) }
    ensures heap { IsHeap h.new.view }
    ensures goes { Goes h.old.desk h.new.desk }
    ensures went { P.went h.old.pace h.old.desk.trail h.new.desk.trail h.new.pace }
{
    mark_unstable(h, map);
    h.set_object_map(object, Some(parent));
}

impl<P: Pace> Objects<P> {
    // Whether a property of a fast object is its last one, and the object is no prototype.
    fn is_last(&mut self, o: u32, i: u32) -> bool
        requires object { o < length (world_of self.old) }
        requires place { i < length (props_at (world_of self.old) o) }
        ensures last { IsTrue result → length (props_at (world_of self.old) o) ≡ i + 1 }
        ensures shared { IsTrue result → (root_in self.old.heap.view.trail o).is_proto ≡ false }
        ensures other { result ≡ false → if_deleted (root_in self.old.heap.view.trail o).is_proto (length (props_at (world_of self.old) o)) i ≡ Some Deleted }
        ensures still { IsStill self.old self.new }
    {
        let count = self.len(o);
        let root = self.heap.object_root(o);
        i + 1 == count && !root.is_proto
    }

    // Takes the last property of a fast object that is no prototype away: the object comes back to the parent of its
    // map. Its slots stay.
    fn remove_last(&mut self, o: u32)
        requires object { o < length (world_of self.old) }
        requires fast { kept_of self.old.kept o ≡ None }
        requires some { 0 < length (props_at (world_of self.old) o) }
        requires shared { (root_in self.old.heap.view.trail o).is_proto ≡ false }
        ensures steps { (i : ℕ) → length (props_at (world_of self.old) o) ≡ i + 1 → Steps P.went self.old (Removed o i) self.new }
        ensures kept { self.new.kept ≡ self.old.kept }
        ensures null { self.new.of_null ≡ self.old.of_null }
        ensures used { self.new.heap.view.used ≡ self.old.heap.view.used }
        ensures protos { (q : ℕ) → (root_in self.new.heap.view.trail q).is_proto ≡ (root_in self.old.heap.view.trail q).is_proto }
        ensures marks { Marks self.old.heap.view.trail self.new.heap.view.trail o }
        ensures details { DetailsAre GetsNothing self.old.heap.view.trail self.new.heap.view.trail }
    {
        maps_are_kept();
        details_rise();
        trees_stay();
        unused_says_nothing();
        gates_are_open();
        changes_keep();
        forms_are_kept();
        stable_is_kept();
        honest_after();
        kept_is_carried();
        moved_is_carried();
        let map = map_of(&mut self.heap, o);
        let parent = self.heap.parent(map).unwrap().unwrap();
        move_to_parent(&mut self.heap, o, map, parent);
    }

    // Takes the property of an object at a place away. A fast object stays so where that is its last one, and the
    // object is no prototype.
    pub fn remove(&mut self, o: u32, i: u32) -> Result<(), Memory>
        requires object { o < length (world_of self.old) }
        requires place { i < length (props_at (world_of self.old) o) }
        ensures did { OnOk result (Made P.went self.old (Removed o i) self.new) }
        ensures moved { OnErr result (Moves P.went self.old self.new) }
        ensures still { OnErr result (IsStill self.old self.new) }
    {
        if self.is_slow(o) {
            self.change_slow(o, Change::Remove(i));
            return Ok(());
        }
        if self.is_last(o, i) {
            self.remove_last(o);
            return Ok(());
        }
        constants_stay_on();
        self.leave(o, Cause::Deleted)?;
        self.change_slow(o, Change::Remove(i));
        Ok(())
    }
}
