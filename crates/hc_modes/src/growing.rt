//! An object that gets one property more, and the map for it.
ghost use Rattle.std.specs.Prelude.{ℕ, ◌≡◌, ◌+◌, ◌<◌, ◌↔◌, false, Some, IfSome, IsTrue};
ghost use Rattle.hc_layout.specs.declared.capacity.TheConstants.{MAX_FAST};
ghost use Rattle.hc_layout.specs.declared.shape.Region.TheVariants.{Slots};
ghost use Rattle.hc_heap.specs.Lawful.{HoldsEntries, IsKey};
ghost use Rattle.hc_heap.specs.Readings.{bits_in, detail_in, gate_in, map_in, root_in, store_in};
ghost use Rattle.hc_heap.specs.States.{IsHeap, Goes, HasRoom};
ghost use Rattle.hc_descs.specs.Entries.{LacksName};
ghost use Rattle.hc_tree.specs.Details.{NoMap};
ghost use Rattle.hc_tree.specs.Growth.{IsUnmoved};
ghost use Rattle.hc_tree.specs.Tree.{IsTree, IsProperKey, gate_with};
ghost use Rattle.hc_modes.specs.Admitting.{AsksLast, IsGrownBy};
ghost use Rattle.hc_modes.specs.Changes.{key_of};
ghost use Rattle.hc_modes.specs.Details.{DetailsAre, GrownGets};
ghost use Rattle.hc_modes.specs.Filling.{FitsAsIs, IsMoved, IsMovedBut, MayGrowBy, with_growth, with_slots};
ghost use Rattle.hc_slots.specs.Slots.{slots_need, AreHandedOut};
ghost use Rattle.hc_table.specs.Ranges.{IsHeldInRange};

use crate::admitting::detail_for_held;
use hc_heap::{Heap, Pace, details_rise, unused_says_nothing};
use hc_layout::Region;
use hc_links::linked_are_unstable;
use hc_slots::{fill_next, held_word, slots_needed};
use hc_tree::{child_or_make, detail_at, live_is_child, maps_are_kept, trees_stay};
use hc_value::{Constness, Key, Prop};

// Fills the slot of an object's next property, and has the object come to a map with one entry more.
fn move_to_child<P: Pace>(h: &mut Heap<P>, object: u32, map: u32, child: u32, n: u32, p: Prop)
    requires tree { IsTree h.old.view.trail }
    requires few { n < MAX_FAST }
    requires has { map_in h.old.view.trail object ≡ Some map }
    requires unstable { IsTrue (bits_in h.old.view.trail map).unstable }
    requires open { gate_in h.old.view.trail map ≡ Some (gate_with n false) }
    requires holds { HoldsEntries h.old.view.trail object map (gate_with n false) }
    requires shared { (root_in h.old.view.trail object).is_proto ≡ false }
    requires child { gate_in h.old.view.trail child ≡ Some (gate_with (n + 1) false) }
    requires grown { IsGrownBy h.old.view.trail map child n p }
    requires range { IsHeldInRange p.held }
    requires out { AreHandedOut h.old.view.used.slots (store_in h.old.view.trail object) }
    requires handed { object < h.old.view.used.objects }
    requires room { HasRoom h.old.view Slots (slots_need n (store_in h.old.view.trail object).capacity) }
    ensures moved { IsMovedBut NoMap h.old.view h.new.view object map n p }
    ensures comes { map_in h.new.view.trail object ≡ Some child }
    ensures details { (f : ℕ) → detail_in h.new.view.trail f ≡ detail_in h.old.view.trail f }
    ensures used { h.new.view.used ≡ with_slots (store_in h.old.view.trail object) n h.old.view.used }
    ensures goes { Goes h.old.desk h.new.desk }
    ensures went { P.went h.old.pace h.old.desk.trail h.new.desk.trail h.new.pace }
{
    maps_are_kept();
    details_rise();
    trees_stay();
    unused_says_nothing();
    h.stands();
    let detail = detail_at(h, child, n);
    fill_next(h, object, n, held_word(p.held, detail.rep));
    h.set_object_map(object, Some(child));
}

// Has an object with n properties get one more: it comes to the child of its map, which may be known. The answer is whether there
// was room; where there was none, nothing is stored.
pub(crate) fn grow_object<P: Pace>(
    h: &mut Heap<P>,
    object: u32,
    map: u32,
    n: u32,
    p: Prop,
    known: Option<u32>,
) -> bool
    requires tree { IsTree h.old.view.trail }
    requires few { n < MAX_FAST }
    requires live { (bits_in h.old.view.trail map).deprecated ≡ false }
    requires has { map_in h.old.view.trail object ≡ Some map }
    requires open { gate_in h.old.view.trail map ≡ Some (gate_with n false) }
    requires holds { HoldsEntries h.old.view.trail object map (gate_with n false) }
    requires shared { (root_in h.old.view.trail object).is_proto ≡ false }
    requires key { IsKey (key_of p) }
    requires proper { IsProperKey (key_of p) }
    requires lacks { LacksName h.old.view.trail map n p.name }
    requires range { IsHeldInRange p.held }
    requires out { AreHandedOut h.old.view.used.slots (store_in h.old.view.trail object) }
    requires handed { object < h.old.view.used.objects }
    requires known { IfSome known (λ child. FitsAsIs h.old.view.trail map child n p) }
    ensures room { IsTrue result ↔ MayGrowBy h.old.view object map n p }
    ensures moved { IsTrue result → IsMoved h.old.view h.new.view object map n p }
    ensures details { IsTrue result → DetailsAre (GrownGets false h.old.view.trail h.old.view.used map n p) h.old.view.trail h.new.view.trail }
    ensures asks { IsTrue result → AsksLast h.old.view.trail h.new.view.trail object n p }
    ensures used { IsTrue result → h.new.view.used ≡ with_growth h.old.view.trail object map n p h.old.view.used }
    ensures still { result ≡ false → IsUnmoved h.old h.new }
    ensures goes { Goes h.old.desk h.new.desk }
    ensures went { P.went h.old.pace h.old.desk.trail h.new.desk.trail h.new.pace }
{
    maps_are_kept();
    details_rise();
    unused_says_nothing();
    linked_are_unstable();
    live_is_child();
    h.stands();
    let store = h.store(object);
    if !h.room(Region::Slots, slots_needed(n, store.capacity)) {
        return false;
    }
    if let Some(child) = known {
        move_to_child(h, object, map, child, n, p);
        return true;
    }
    let held = p.held;
    let key = Key {
        name: p.name,
        kind: held.kind(),
        attrs: p.attrs,
    };
    let detail = detail_for_held(h, held, Constness::Const);
    let Ok(child) = child_or_make(h, map, key, detail) else {
        return false;
    };
    move_to_child(h, object, map, child, n, p);
    true
}
