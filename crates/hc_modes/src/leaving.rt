//! An object that leaves its map for a dictionary.
ghost use Rattle.std.specs.Prelude.{ℕ, ◌≡◌, ◌≢◌, ◌<◌, ◌∷◌, None, Some, IfOk, OnOk, OnErr, length};
ghost use Rattle.hc_heap.specs.Readings.{map_in, root_in};
ghost use Rattle.hc_heap.specs.States.{IsHeap, Goes};
ghost use Rattle.hc_heap.specs.Writes.{ObjectMap};
ghost use Rattle.hc_slots.specs.Meaning.{dictionary_object};
ghost use Rattle.hc_table.specs.Changes.{Moved};
ghost use Rattle.hc_table.specs.World.{object};
ghost use Rattle.hc_tree.specs.Growth.{marked};
ghost use Rattle.hc_tree.specs.Tree.{IsTree};
ghost use Rattle.hc_modes.specs.Rest.{Marks};
ghost use Rattle.hc_modes.specs.Changes.{KeptBut};
ghost use Rattle.hc_modes.specs.Details.{DetailsAre, GetsNothing};
ghost use Rattle.hc_modes.specs.Meaning.{cause_in, kept_of};
ghost use Rattle.hc_modes.specs.Came.{Steps, IsStill, world_of};

use crate::objects::Objects;
use hc_dict::Dictionary;
use hc_facts::{honest_after, kept_is_carried};
use hc_heap::{Heap, Pace, details_rise, forms_are_kept, stable_is_kept, unused_says_nothing};
use hc_slots::dictionary_of;
use hc_slots::fast::map_of;
use hc_tree::{maps_are_kept, mark_unstable, trees_stay};
use hc_value::{Cause, Memory};

// Has an object leave its map.
fn leave_map<P: Pace>(h: &mut Heap<P>, object: u32, map: u32)
    requires tree { IsTree h.old.view.trail }
    requires handed { object < h.old.view.used.objects }
    requires there { map < h.old.view.used.maps }
    requires has { map_in h.old.view.trail object ≡ Some map }
    ensures view { h.new.view ≡ record h.old.view { trail = ObjectMap object None ∷ marked h.old.view.trail map } }
    ensures marked_tree { IsTree (marked h.old.view.trail map) }
    ensures marked_heap { IsHeap (record h.old.view { trail = marked h.old.view.trail map }) }
    ensures heap { IsHeap h.new.view }
    ensures goes { Goes h.old.desk h.new.desk }
    ensures went { P.went h.old.pace h.old.desk.trail h.new.desk.trail h.new.pace }
{
    mark_unstable(h, map);
    h.set_object_map(object, None);
}

impl<P: Pace> Objects<P> {
    // The dictionary that a fast object makes, for a cause.
    pub(crate) fn dictionary(&mut self, o: u32, cause: Cause) -> Result<Dictionary, Memory>
        requires object { o < length (world_of self.old) }
        requires fast { kept_of self.old.kept o ≡ None }
        ensures value { IfOk result (λ d. dictionary_object d ≡ object (world_of self.old) o) }
        ensures cause { IfOk result (λ d. d.cause ≡ cause) }
        ensures still { IsStill self.old self.new }
    {
        dictionary_of(&mut self.heap, self.alloc, o, cause)
    }

    // Has a fast object be slow from now on, with the dictionary that it makes.
    pub(crate) fn leave_with(&mut self, o: u32, slow: Dictionary)
        requires object { o < length (world_of self.old) }
        requires fast { kept_of self.old.kept o ≡ None }
        requires value { dictionary_object slow ≡ object (world_of self.old) o }
        ensures moved { Steps P.went self.old Moved self.new }
        ensures cause { cause_in self.new.kept o ≡ Some slow.cause }
        ensures null { self.new.of_null ≡ self.old.of_null }
        ensures others { KeptBut o self.old.kept self.new.kept }
        ensures used { self.new.heap.view.used ≡ self.old.heap.view.used }
        ensures roots { (q : ℕ) → root_in self.new.heap.view.trail q ≡ root_in self.old.heap.view.trail q }
        ensures maps { (q : ℕ) → q ≢ o → map_in self.new.heap.view.trail q ≡ map_in self.old.heap.view.trail q }
        ensures marks { Marks self.old.heap.view.trail self.new.heap.view.trail o }
        ensures details { DetailsAre GetsNothing self.old.heap.view.trail self.new.heap.view.trail }
        ensures gone { map_in self.new.heap.view.trail o ≡ None }
    {
        maps_are_kept();
        details_rise();
        trees_stay();
        unused_says_nothing();
        forms_are_kept();
        stable_is_kept();
        honest_after();
        kept_is_carried();
        let map = map_of(&mut self.heap, o);
        leave_map(&mut self.heap, o, map);
        self.kept[o as usize] = Some(slow);
    }

    // Has a fast object be slow from now on, for a cause. For want of memory alone nothing is stored.
    pub(crate) fn leave(&mut self, o: u32, cause: Cause) -> Result<(), Memory>
        requires object { o < length (world_of self.old) }
        requires fast { kept_of self.old.kept o ≡ None }
        ensures moved { OnOk result (Steps P.went self.old Moved self.new) }
        ensures cause { OnOk result (cause_in self.new.kept o ≡ Some cause) }
        ensures still { OnErr result (IsStill self.old self.new) }
        ensures null { self.new.of_null ≡ self.old.of_null }
        ensures others { KeptBut o self.old.kept self.new.kept }
        ensures used { self.new.heap.view.used ≡ self.old.heap.view.used }
        ensures roots { (q : ℕ) → root_in self.new.heap.view.trail q ≡ root_in self.old.heap.view.trail q }
        ensures maps { (q : ℕ) → q ≢ o → map_in self.new.heap.view.trail q ≡ map_in self.old.heap.view.trail q }
        ensures marks { OnOk result (Marks self.old.heap.view.trail self.new.heap.view.trail o) }
        ensures details { DetailsAre GetsNothing self.old.heap.view.trail self.new.heap.view.trail }
    {
        let slow = self.dictionary(o, cause)?;
        self.leave_with(o, slow);
        Ok(())
    }
}
