//! Objects whose maps are deprecated come to the live ones in their place.
ghost use Rattle.std.specs.Prelude.{ℕ, ◌≡◌, ◌≢◌, ◌<◌, ◌↔◌, false, IsTrue, None, OnErr, OnOk, Some, length};
ghost use Rattle.hc_facts.specs.Honest.{IsHonest};
ghost use Rattle.hc_heap.specs.Lawful.{HoldsEntries};
ghost use Rattle.hc_heap.specs.Readings.{bits_in, gate_in, map_in, root_in, store_in};
ghost use Rattle.hc_heap.specs.States.{Goes, OnlyLoads};
ghost use Rattle.hc_slots.specs.Slots.{AreHandedOut};
ghost use Rattle.hc_tree.specs.Growth.{IsUnmoved};
ghost use Rattle.hc_tree.specs.Needs.{HasSpace, walk_need};
ghost use Rattle.hc_tree.specs.Tree.{IsTree, gate_with};
ghost use Rattle.hc_update.specs.Updating.{IsSomeRoot};
ghost use Rattle.hc_modes.specs.Came.{HasMigrated, IsMadeLive, IsStill, LacksUpdate, Moves, world_of};
ghost use Rattle.hc_modes.specs.Meaning.{kept_of};
ghost use Rattle.hc_modes.specs.Resettled.{IsUpdatedFor};
ghost use Rattle.hc_modes.specs.Rest.{AreCalm};
ghost use Rattle.hc_modes.specs.State.{IsLive};

use crate::coming::come_to;
use crate::objects::Objects;
use hc_facts::{honest_after, kept_is_carried, moved_is_carried};
use hc_heap::{
    Heap, Pace, deprecated_are_unstable, details_rise, forms_are_kept, gates_are_open, set_is_kept,
    stable_is_kept, unused_says_nothing,
};
use hc_slots::fast::map_of;
use hc_table::changes_keep;
use hc_tree::{known_root, maps_are_kept, roots_stand};
use hc_update::updated;
use hc_value::{Cause, Memory};

// Has an object with a deprecated shared map come to the live one in its place, which stands under the same root. The answer is whether
// there was room; where there was none, nothing is stored.
fn update_object<P: Pace>(h: &mut Heap<P>, object: u32, map: u32, n: u32, root: u32) -> bool
    requires tree { IsTree h.old.view.trail }
    requires honest { IsHonest h.old.view.trail }
    requires has { map_in h.old.view.trail object ≡ Some map }
    requires open { gate_in h.old.view.trail map ≡ Some (gate_with n false) }
    requires dead { IsTrue (bits_in h.old.view.trail map).deprecated }
    requires holds { HoldsEntries h.old.view.trail object map (gate_with n false) }
    requires shared { (root_in h.old.view.trail object).is_proto ≡ false }
    requires out { AreHandedOut h.old.view.used.slots (store_in h.old.view.trail object) }
    requires handed { object < h.old.view.used.objects }
    requires root { IsSomeRoot h.old.view.trail root }
    ensures room { IsTrue result ↔ HasSpace h.old.view (walk_need n) }
    ensures updated { IsTrue result → IsUpdatedFor h.old.view h.new.view object map n root }
    ensures still { result ≡ false → IsUnmoved h.old h.new }
    ensures goes { Goes h.old.desk h.new.desk }
    ensures went { P.went h.old.pace h.old.desk.trail h.new.desk.trail h.new.pace }
{
    maps_are_kept();
    details_rise();
    set_is_kept();
    deprecated_are_unstable();
    h.stands();
    let Ok(other) = updated(h, map, root) else {
        return false;
    };
    come_to(h, object, map, other, n);
    true
}

impl<P: Pace> Objects<P> {
    // Has a fast object whose map is deprecated come to the live one in its place. The answer is whether there was room; where there
    // was none, nothing is stored.
    fn update_map(&mut self, o: u32) -> bool
        requires object { o < length (world_of self.old) }
        requires fast { kept_of self.old.kept o ≡ None }
        requires dead { (m : ℕ) → map_in self.old.heap.view.trail o ≡ Some m → IsTrue (bits_in self.old.heap.view.trail m).deprecated }
        requires honest { IsHonest self.old.heap.view.trail }
        requires calm { AreCalm self.old.heap.view.trail }
        ensures migrated { IsTrue result → HasMigrated P.went self.old o self.new }
        ensures lacks { result ≡ false → LacksUpdate self.old o }
        ensures still { result ≡ false → IsStill self.old self.new }
    {
        maps_are_kept();
        details_rise();
        unused_says_nothing();
        gates_are_open();
        changes_keep();
        forms_are_kept();
        stable_is_kept();
        honest_after();
        kept_is_carried();
        moved_is_carried();
        set_is_kept();
        deprecated_are_unstable();
        roots_stand();
        let map = map_of(&mut self.heap, o);
        let n = self.heap.gate(map).unwrap().entries;
        let proto = self.heap.proto(map).unwrap();
        let root = known_root(&mut self.heap, proto, self.of_null).unwrap();
        update_object(&mut self.heap, o, map, n, root)
    }

    /// Has the map of an object be live: a deprecated one is exchanged for the live one in its place. Where there is no room for that
    /// the object is slow from now on. A live object, and a slow one, stays as it is. No map of a prototype is unstable.
    pub fn migrate(&mut self, o: u32) -> Result<(), Memory>
        requires object { o < length (world_of self.old) }
        requires honest { IsHonest self.old.heap.view.trail }
        requires calm { AreCalm self.old.heap.view.trail }
        ensures made { OnOk result (IsMadeLive P.went self.old o self.new) }
        ensures moved { OnErr result (Moves P.went self.old self.new) }
        ensures still { OnErr result (IsStill self.old self.new) }
        ensures maps { (q : ℕ) → q ≢ o → map_in self.new.heap.view.trail q ≡ map_in self.old.heap.view.trail q }
        ensures live { IsLive self.old.heap.view.trail o → IsStill self.old self.new }
        ensures loads { IsLive self.old.heap.view.trail o → OnlyLoads 2 self.old.heap.desk self.new.heap.desk }
    {
        self.stands();
        if !self.is_deprecated(o) {
            return Ok(());
        }
        if self.update_map(o) {
            return Ok(());
        }
        self.leave(o, Cause::Space)?;
        self.stands();
        Ok(())
    }
}
