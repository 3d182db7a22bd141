//! Objects that get another prototype.
ghost use Rattle.std.specs.Prelude.{ℕ, ◌≡◌, ◌<◌, ◌≤◌, ◌*◌, ◌↔◌, true, false, IsTrue, None, Some, IfSome, length};
ghost use Rattle.hc_layout.specs.declared.capacity.TheConstants.{MAX_FAST};
ghost use Rattle.hc_heap.specs.Lawful.{HoldsEntries};
ghost use Rattle.hc_facts.specs.Honest.{IsHonest};
ghost use Rattle.hc_heap.specs.Readings.{gate_in, map_in, root_in, store_in};
ghost use Rattle.hc_slots.specs.Slots.{AreHandedOut};
ghost use Rattle.hc_heap.specs.States.{Goes};
ghost use Rattle.hc_tree.specs.Growth.{IsUnmoved, MayBePrototype, root_need, root_of};
ghost use Rattle.hc_tree.specs.Needs.{HasSpace};
ghost use Rattle.hc_tree.specs.Tree.{IsTree, gate_with};
ghost use Rattle.hc_table.specs.Changes.{IsThere, Linked, reaches};
ghost use Rattle.hc_table.specs.World.{object};
ghost use Rattle.hc_modes.specs.Came.{Steps, IsStill, world_of};
ghost use Rattle.hc_modes.specs.Details.{HasRewalked, IsRewalked};
ghost use Rattle.hc_modes.specs.Linking.{IsRelinked, shared_need};
ghost use Rattle.hc_modes.specs.Meaning.{kept_of};
ghost use Rattle.hc_modes.specs.Rest.{Relinks};
ghost use Rattle.hc_modes.specs.Modes.{IsWithin, arrays_upto, both, link_need, walk_need};
ghost use Rattle.hc_modes.specs.State.{AreRoots};

use crate::coming::come_to;
use crate::objects::Objects;
use hc_facts::{honest_after, kept_is_carried, moved_is_carried};
use hc_heap::{
    Heap, Pace, details_rise, forms_are_kept, gates_are_open, set_is_kept, stable_is_kept,
    unused_says_nothing,
};
use hc_slots::fast::map_of;
use hc_table::changes_keep;
use hc_tree::{has_space, known_root, maps_are_kept, mark_unstable, of_retarget};
use hc_update::map_for;

// Has an object with a shared map get another prototype, for which there is room: it comes to the map with the same
// keys.
fn relink<P: Pace>(
    h: &mut Heap<P>,
    object: u32,
    map: u32,
    n: u32,
    proto: Option<u32>,
    of_null: &mut Option<u32>,
)
    requires tree { IsTree h.old.view.trail }
    requires honest { IsHonest h.old.view.trail }
    requires roots { AreRoots h.old.view.trail of_null.old }
    requires has { map_in h.old.view.trail object ≡ Some map }
    requires open { gate_in h.old.view.trail map ≡ Some (gate_with n false) }
    requires holds { HoldsEntries h.old.view.trail object map (gate_with n false) }
    requires shared { (root_in h.old.view.trail object).is_proto ≡ false }
    requires out { AreHandedOut h.old.view.used.slots (store_in h.old.view.trail object) }
    requires handed { object < h.old.view.used.objects }
    requires proto { MayBePrototype h.old.view.used h.old.view.trail proto }
    requires space { HasSpace h.old.view (shared_need h.old.view.trail n proto of_null.old) }
    ensures relinked { IsRelinked h.old.view h.new.view of_null.old of_null.new object map n proto }
    ensures details { IsRewalked h.old.view of_null.old map proto h.new.view.trail }
    ensures goes { Goes h.old.desk h.new.desk }
    ensures went { P.went h.old.pace h.old.desk.trail h.new.desk.trail h.new.pace }
{
    maps_are_kept();
    details_rise();
    set_is_kept();
    unused_says_nothing();
    h.stands();
    mark_unstable(h, map);
    let found = map_for(h, map, n, proto, of_null);
    come_to(h, object, map, found, n);
}

// Has an object with a shared map get another prototype. The answer is whether there was room; where there was none,
// nothing is stored.
fn link_object<P: Pace>(
    h: &mut Heap<P>,
    object: u32,
    map: u32,
    n: u32,
    proto: Option<u32>,
    of_null: &mut Option<u32>,
) -> bool
    requires tree { IsTree h.old.view.trail }
    requires honest { IsHonest h.old.view.trail }
    requires roots { AreRoots h.old.view.trail of_null.old }
    requires has { map_in h.old.view.trail object ≡ Some map }
    requires open { gate_in h.old.view.trail map ≡ Some (gate_with n false) }
    requires holds { HoldsEntries h.old.view.trail object map (gate_with n false) }
    requires shared { (root_in h.old.view.trail object).is_proto ≡ false }
    requires out { AreHandedOut h.old.view.used.slots (store_in h.old.view.trail object) }
    requires handed { object < h.old.view.used.objects }
    requires proto { MayBePrototype h.old.view.used h.old.view.trail proto }
    ensures room { IsTrue result ↔ HasSpace h.old.view (shared_need h.old.view.trail n proto of_null.old) }
    ensures relinked { IsTrue result → IsRelinked h.old.view h.new.view of_null.old of_null.new object map n proto }
    ensures details { IsTrue result → IsRewalked h.old.view of_null.old map proto h.new.view.trail }
    ensures still { result ≡ false → IsUnmoved h.old h.new }
    ensures null { result ≡ false → of_null.new ≡ of_null.old }
    ensures goes { Goes h.old.desk h.new.desk }
    ensures went { P.went h.old.pace h.old.desk.trail h.new.desk.trail h.new.pace }
{
    gates_are_open();
    h.stands();
    let known = known_root(h, proto, *of_null);
    if !has_space(h, of_retarget(n, known)) {
        return false;
    }
    relink(h, object, map, n, proto, of_null);
    true
}

impl<P: Pace> Objects<P> {
    // Gives a fast object that isn't a prototype another prototype, which is or was one already, and whose chain doesn't
    // come to the object. The answer is whether there was room; where there was none, nothing is stored.
    pub(crate) fn link_shared(&mut self, o: u32, proto: Option<u32>) -> bool
        requires object { o < length (world_of self.old) }
        requires fast { kept_of self.old.kept o ≡ None }
        requires there { IsThere (world_of self.old) proto }
        requires no_cycle { reaches (world_of self.old) proto o ≡ false }
        requires shared { (root_in self.old.heap.view.trail o).is_proto ≡ false }
        requires named { IfSome proto (λ p. IsTrue (root_in self.old.heap.view.trail p).is_proto) }
        requires honest { IsHonest self.old.heap.view.trail }
        ensures room { IsTrue result ↔ HasSpace self.old.heap.view (link_need self.old.heap.view.trail o proto self.old.of_null) }
        ensures linked { IsTrue result → Steps P.went self.old (Linked o proto) self.new }
        ensures needs { IsWithin (link_need self.old.heap.view.trail o proto self.old.of_null) self.old.heap.view.used self.new.heap.view.used }
        ensures protos { (q : ℕ) → (root_in self.new.heap.view.trail q).is_proto ≡ (root_in self.old.heap.view.trail q).is_proto }
        ensures still { result ≡ false → IsStill self.old self.new }
        ensures kept { self.new.kept ≡ self.old.kept }
        ensures relinks { IsTrue result → Relinks self.old.heap.view.trail self.new.heap.view.trail o proto }
        ensures details { IsTrue result → HasRewalked self.old.heap.view self.old.of_null o proto self.new.heap.view.trail }
    {
        maps_are_kept();
        details_rise();
        unused_says_nothing();
        gates_are_open();
        changes_keep();
        forms_are_kept();
        stable_is_kept();
        honest_after();
        kept_is_carried();
        moved_is_carried();
        let map = map_of(&mut self.heap, o);
        let gate = self.heap.gate(map).unwrap();
        link_object(
            &mut self.heap,
            o,
            map,
            gate.entries,
            proto,
            &mut self.of_null,
        )
    }
}
