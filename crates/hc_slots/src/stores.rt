//! Slots for one property more.
ghost use Rattle.std.specs.Prelude.{◌≡◌, ◌<◌, ◌≤◌, IsTrue, IfSome};
ghost use Rattle.hc_layout.specs.declared.capacity.TheConstants.{MAX_FAST};
ghost use Rattle.hc_layout.specs.declared.shape.Region.TheVariants.{Slots};
ghost use Rattle.hc_heap.specs.Readings.{bits_in, map_in, store_in};
ghost use Rattle.hc_heap.specs.States.{IsHeap, Goes, HasRoom};
ghost use Rattle.hc_slots.specs.Slots.{IsFitted, slots_need, AreHandedOut};
ghost use Rattle.hc_slots.specs.Meaning.{slot_word};

use crate::slots::{move_store, put_slot};
use hc_heap::{Heap, Pace};
use hc_layout::cap;

/// How many new slots an object with n properties, and so many slots, needs for one more.
pub fn slots_needed(n: u32, capacity: u32) -> u32
    requires few { n < MAX_FAST }
    ensures value { result ≡ slots_need n capacity }
    ensures most { result ≤ MAX_FAST }
{
    if n < capacity {
        return 0;
    }
    cap(n + 1)
}

// Has an object with n properties get slots for one more, where it has none left.
fn make_room<P: Pace>(h: &mut Heap<P>, object: u32, n: u32)
    requires few { n < MAX_FAST }
    requires capacity { n ≤ (store_in h.old.view.trail object).capacity }
    requires out { AreHandedOut h.old.view.used.slots (store_in h.old.view.trail object) }
    requires handed { object < h.old.view.used.objects }
    requires unstable { IfSome (map_in h.old.view.trail object) (λ m. IsTrue (bits_in h.old.view.trail m).unstable) }
    requires room { HasRoom h.old.view Slots (slots_need n (store_in h.old.view.trail object).capacity) }
    ensures fitted { IsFitted h.old.view h.new.view object n }
    ensures heap { IsHeap h.new.view }
    ensures goes { Goes h.old.desk h.new.desk }
    ensures went { P.went h.old.pace h.old.desk.trail h.new.desk.trail h.new.pace }
{
    h.stands();
    let store = h.store(object);
    if n < store.capacity {
        return;
    }
    move_store(h, object, n);
}

/// Writes the slot of an object's next property. Where none is left, the object moves to new slots first, with the words
/// that it has: that is why its map has to be unstable.
pub fn fill_next<P: Pace>(h: &mut Heap<P>, object: u32, n: u32, word: u64)
    requires few { n < MAX_FAST }
    requires capacity { n ≤ (store_in h.old.view.trail object).capacity }
    requires out { AreHandedOut h.old.view.used.slots (store_in h.old.view.trail object) }
    requires handed { object < h.old.view.used.objects }
    requires unstable { IfSome (map_in h.old.view.trail object) (λ m. IsTrue (bits_in h.old.view.trail m).unstable) }
    requires room { HasRoom h.old.view Slots (slots_need n (store_in h.old.view.trail object).capacity) }
    ensures fitted { IsFitted h.old.view h.new.view object n }
    ensures last { slot_word h.new.view.trail object n ≡ word }
    ensures heap { IsHeap h.new.view }
    ensures goes { Goes h.old.desk h.new.desk }
    ensures went { P.went h.old.pace h.old.desk.trail h.new.desk.trail h.new.pace }
{
    make_room(h, object, n);
    put_slot(h, object, n, word);
}
