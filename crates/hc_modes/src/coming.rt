//! Objects that come to another map with the same keys.
ghost use Rattle.std.specs.Prelude.{ℕ, ◌≡◌, ◌<◌, ◌≤◌, IsTrue, IsSomeAnd, Some};
ghost use Rattle.hc_heap.specs.Lawful.{HoldsEntry, IsOwnMap};
ghost use Rattle.hc_heap.specs.Readings.{bits_in, gate_in, map_in, root_in, store_in};
ghost use Rattle.hc_heap.specs.States.{Goes};
ghost use Rattle.hc_descs.specs.Entries.{key_at};
ghost use Rattle.hc_tree.specs.Tree.{IsTree};
ghost use Rattle.hc_slots.specs.Anew.{FitsEntry};
ghost use Rattle.hc_slots.specs.Slots.{AreHandedOut};
ghost use Rattle.hc_modes.specs.Resettled.{HasCome};

use hc_heap::{Heap, Pace, unused_says_nothing};
use hc_slots::move_slots;
use hc_tree::trees_stay;

// Has an object come from its map, which is unstable, to another one with the same keys: its slots are written anew where a field is
// wide in one of the two alone, before the map word is.
pub(crate) fn come_to<P: Pace>(h: &mut Heap<P>, object: u32, map: u32, other: u32, n: u32)
    requires tree { IsTree h.old.view.trail }
    requires has { map_in h.old.view.trail object ≡ Some map }
    requires unstable { IsTrue (bits_in h.old.view.trail map).unstable }
    requires map { IsSomeAnd (gate_in h.old.view.trail map) (λ g. g.entries ≡ n) }
    requires other { IsSomeAnd (gate_in h.old.view.trail other) (λ g. g.entries ≡ n) }
    requires own { IsTrue (root_in h.old.view.trail object).is_proto → IsOwnMap h.old.view.trail other }
    requires keys { (k : ℕ) → k < n → key_at h.old.view.trail other k ≡ key_at h.old.view.trail map k }
    requires holds { (k : ℕ) → k < n → HoldsEntry h.old.view.trail object map k }
    requires within { n ≤ (store_in h.old.view.trail object).capacity }
    requires fits { (k : ℕ) → k < n → FitsEntry h.old.view.trail object map other k }
    requires out { AreHandedOut h.old.view.used.slots (store_in h.old.view.trail object) }
    requires handed { object < h.old.view.used.objects }
    ensures come { HasCome h.old.view h.new.view object map other n }
    ensures goes { Goes h.old.desk h.new.desk }
    ensures went { P.went h.old.pace h.old.desk.trail h.new.desk.trail h.new.pace }
{
    trees_stay();
    unused_says_nothing();
    h.stands();
    move_slots(h, object, map, other, n);
    h.set_object_map(object, Some(other));
}
