//! An object that becomes a prototype.
ghost use Rattle.std.specs.Prelude.{ℕ, ◌≡◌, ◌≢◌, ◌<◌, ◌≤◌, ◌↔◌, true, false, IsTrue, None, Some, IsSome, IfOk, IfSome, OnOk, OnErr, length};
ghost use Rattle.hc_layout.specs.declared.capacity.TheConstants.{MAX_FAST};
ghost use Rattle.hc_heap.specs.Lawful.{IsOwnMap};
ghost use Rattle.hc_heap.specs.Readings.{map_in, root_in};
ghost use Rattle.hc_heap.specs.States.{IsHeap, Goes};
ghost use Rattle.hc_descs.specs.Entries.{count_of};
ghost use Rattle.hc_table.specs.Changes.{Moved};
ghost use Rattle.hc_tree.specs.Copying.{CopyGets, copy_need};
ghost use Rattle.hc_tree.specs.Needs.{HasSpace, with_need};
ghost use Rattle.hc_tree.specs.Tree.{IsTree};
ghost use Rattle.hc_modes.specs.Becoming.{HasBecome, IsOwned, IsSettled, IsSpare, with_proto};
ghost use Rattle.hc_modes.specs.Came.{HowBecame, Steps, IsStill, world_of};
ghost use Rattle.hc_modes.specs.Changes.{KeptBut};
ghost use Rattle.hc_modes.specs.Details.{BecameGets, DetailsAre};
ghost use Rattle.hc_modes.specs.Meaning.{cause_in, kept_of};
ghost use Rattle.hc_modes.specs.Modes.{Becomes, if_fast, proto_need};
ghost use Rattle.hc_slots.specs.Fast.{HasMap};

use crate::objects::Objects;
use hc_dict::Dictionary;
use hc_facts::{constants_stay_on, honest_after, kept_is_carried, moved_is_carried};
use hc_heap::{
    Heap, Pace, details_rise, forms_are_kept, gates_are_open, stable_is_kept, unused_says_nothing,
};
use hc_layout::RootWord;
use hc_slots::fast::map_of;
use hc_tree::{has_space, maps_are_kept, mark_unstable, of_copy, private_copy, trees_stay};
use hc_value::{Cause, Memory};

// Has an object be a prototype from now on, whose map, where it has one, is its own.
fn set_is_proto<P: Pace>(h: &mut Heap<P>, object: u32)
    requires tree { IsTree h.old.view.trail }
    requires handed { object < h.old.view.used.objects }
    requires own { IfSome (map_in h.old.view.trail object) (λ m. IsOwnMap h.old.view.trail m) }
    ensures view { h.new.view ≡ record h.old.view { trail = with_proto h.old.view.trail object } }
    ensures tree { IsTree h.new.view.trail }
    ensures heap { IsHeap h.new.view }
    ensures goes { Goes h.old.desk h.new.desk }
    ensures went { P.went h.old.pace h.old.desk.trail h.new.desk.trail h.new.pace }
{
    trees_stay();
    unused_says_nothing();
    h.stands();
    let root = h.object_root(object);
    h.set_object_root(
        object,
        RootWord {
            is_proto: true,
            map: root.map,
        },
    );
}

// Gives a fast object that isn't a prototype a private map, for which there is room, and has it be one.
fn take_own_map<P: Pace>(h: &mut Heap<P>, object: u32, map: u32)
    requires tree { IsTree h.old.view.trail }
    requires handed { object < h.old.view.used.objects }
    requires fast { HasMap h.old.view.trail object }
    requires has { map_in h.old.view.trail object ≡ Some map }
    requires shared { (root_in h.old.view.trail object).is_proto ≡ false }
    requires space { HasSpace h.old.view (copy_need true None (count_of h.old.view.trail map)) }
    ensures owned { IsOwned h.old.view h.new.view object map }
    ensures details { DetailsAre (CopyGets true None h.old.view.trail map (count_of h.old.view.trail map) h.old.view.used.fields) h.old.view.trail h.new.view.trail }
    ensures goes { Goes h.old.desk h.new.desk }
    ensures went { P.went h.old.pace h.old.desk.trail h.new.desk.trail h.new.pace }
{
    maps_are_kept();
    details_rise();
    trees_stay();
    unused_says_nothing();
    gates_are_open();
    forms_are_kept();
    h.stands();
    let proto = h.proto(map).unwrap();
    mark_unstable(h, map);
    let Ok(copy) = private_copy(h, map, true, proto, None) else {
        unreachable!()
    };
    h.set_object_map(object, Some(copy));
    set_is_proto(h, object);
}

impl<P: Pace> Objects<P> {
    // Has a slow object be a prototype from now on.
    fn mark_slow(&mut self, p: u32)
        requires object { p < length (world_of self.old) }
        requires slow { IsSome (kept_of self.old.kept p) }
        ensures moved { Steps P.went self.old Moved self.new }
        ensures became { HasBecome p self.old.heap.view.trail self.new.heap.view.trail }
        ensures kept { self.new.kept ≡ self.old.kept }
        ensures null { self.new.of_null ≡ self.old.of_null }
        ensures used { self.new.heap.view.used ≡ self.old.heap.view.used }
        ensures trail { self.new.heap.view.trail ≡ with_proto self.old.heap.view.trail p }
        ensures how { HowBecame self.old p self.new }
    {
        maps_are_kept();
        details_rise();
        forms_are_kept();
        stable_is_kept();
        honest_after();
        kept_is_carried();
        set_is_proto(&mut self.heap, p);
    }

    // Has a fast object that isn't a prototype be one, with a private map, for which there is room.
    fn own_fast(&mut self, p: u32)
        requires object { p < length (world_of self.old) }
        requires fast { kept_of self.old.kept p ≡ None }
        requires shared { (root_in self.old.heap.view.trail p).is_proto ≡ false }
        requires space { HasSpace self.old.heap.view (proto_need self.old.heap.view.trail p) }
        ensures moved { Steps P.went self.old Moved self.new }
        ensures became { HasBecome p self.old.heap.view.trail self.new.heap.view.trail }
        ensures used { self.new.heap.view.used ≡ with_need (proto_need self.old.heap.view.trail p) self.old.heap.view.used }
        ensures kept { self.new.kept ≡ self.old.kept }
        ensures null { self.new.of_null ≡ self.old.of_null }
        ensures details { DetailsAre (BecameGets self.old.heap.view p) self.old.heap.view.trail self.new.heap.view.trail }
        ensures how { HowBecame self.old p self.new }
    {
        maps_are_kept();
        details_rise();
        unused_says_nothing();
        forms_are_kept();
        stable_is_kept();
        honest_after();
        kept_is_carried();
        moved_is_carried();
        let map = map_of(&mut self.heap, p);
        take_own_map(&mut self.heap, p, map);
    }

    // Whether there is room for a private map of a fast object that isn't a prototype.
    fn fits_own(&mut self, p: u32) -> bool
        requires object { p < length (world_of self.old) }
        requires fast { kept_of self.old.kept p ≡ None }
        requires shared { (root_in self.old.heap.view.trail p).is_proto ≡ false }
        ensures room { IsTrue result ↔ HasSpace self.old.heap.view (proto_need self.old.heap.view.trail p) }
        ensures still { IsStill self.old self.new }
    {
        gates_are_open();
        let map = map_of(&mut self.heap, p);
        let n = self.heap.gate(map).unwrap().entries;
        has_space(&self.heap, of_copy(true, n))
    }

    // The dictionary of an object that is to be a prototype, where it is fast, and there is no room for a private map.
    pub(crate) fn spare(&mut self, p: u32) -> Result<Option<Dictionary>, Memory>
        requires object { p < length (world_of self.old) }
        ensures spare { IfOk result (λ d. IsSpare self.old p d) }
        ensures still { IsStill self.old self.new }
    {
        if self.is_slow(p) {
            return Ok(None);
        }
        if self.heap.object_root(p).is_proto {
            return Ok(None);
        }
        if self.fits_own(p) {
            return Ok(None);
        }
        let slow = self.dictionary(p, Cause::Space)?;
        Ok(Some(slow))
    }

    // Has an object be a prototype from now on: a fast one gets a private map, or is slow with this dictionary, where
    // there is no room for it. It takes no memory.
    pub(crate) fn settle(&mut self, p: u32, spare: Option<Dictionary>)
        requires object { p < length (world_of self.old) }
        requires spare { IsSpare self.old p spare }
        ensures settled { IsSettled P.went self.old p self.new }
        ensures how { HowBecame self.old p self.new }
    {
        constants_stay_on();
        self.stands();
        if let Some(slow) = spare {
            self.leave_with(p, slow);
            self.mark_slow(p);
            return;
        }
        if self.heap.object_root(p).is_proto {
            return;
        }
        if self.is_slow(p) {
            self.mark_slow(p);
            return;
        }
        self.own_fast(p);
    }
}
