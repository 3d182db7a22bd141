//! The slots of objects.
ghost use Rattle.std.specs.Prelude.{ℕ, IfSome, IsTrue, ◌≡◌, ◌+◌, ◌<◌, ◌≤◌, Some, None, IsSomeAnd, ◌∷◌};
ghost use Rattle.hc_heap.specs.Readings.{bits_in, map_in, store_in, slot_in};
ghost use Rattle.hc_layout.specs.Capacity.{cap_of};
ghost use Rattle.hc_layout.specs.declared.capacity.TheConstants.{MAX_FAST};
ghost use Rattle.hc_layout.specs.declared.shape.Region.TheVariants.{Slots};
ghost use Rattle.hc_heap.specs.Kept.{Adds};
ghost use Rattle.hc_heap.specs.States.{IsHeap, Goes, HasRoom, OnlyLoads, with_write};
ghost use Rattle.hc_heap.specs.Writes.{Slot};
ghost use Rattle.hc_slots.specs.Slots.{AreCopied, FillsSlots, HasMoved, AreHandedOut};
ghost use Rattle.hc_slots.specs.Meaning.{slot_word};

use hc_heap::{Heap, Pace, forms_are_kept};
use hc_layout::{Region, StoreWord, cap};

// The word of an object's k-th slot.
pub(crate) fn word_of_slot<P: Pace>(h: &mut Heap<P>, object: u32, k: u32) -> u64
    requires within { k < (store_in h.old.view.trail object).capacity }
    ensures value { result ≡ slot_word h.old.view.trail object k }
    ensures new { h.new ≡ record h.old { desk = h.new.desk } }
    ensures loads { OnlyLoads 2 h.old.desk h.new.desk }
    ensures goes { Goes h.old.desk h.new.desk }
    ensures went { P.went h.old.pace h.old.desk.trail h.new.desk.trail h.new.pace }
{
    forms_are_kept();
    h.stands();
    let store = h.store(object);
    match store.first {
        Some(first) => h.slot(first + k),
        None => 0,
    }
}

// Copies the words of n slots to other slots, that come after these.
pub(crate) fn copy_slots<P: Pace>(h: &mut Heap<P>, from: u32, upto: u32, n: u32)
    requires apart { from + n ≤ upto }
    requires handed { upto + n ≤ h.old.view.used.slots }
    ensures view { h.new.view ≡ record h.old.view { trail = h.new.view.trail } }
    ensures copied { AreCopied h.old.view.trail h.new.view.trail from upto n }
    ensures heap { IsHeap h.new.view }
    ensures goes { Goes h.old.desk h.new.desk }
    ensures went { P.went h.old.pace h.old.desk.trail h.new.desk.trail h.new.pace }
{
    h.stands();
    for k in 0..n {
        let word = h.slot(from + k);
        h.set_slot(upto + k, word);
    }
}

/// Writes the word of an object's k-th slot, and nothing else.
pub fn put_slot<P: Pace>(h: &mut Heap<P>, object: u32, k: u32, word: u64)
    requires within { k < (store_in h.old.view.trail object).capacity }
    requires out { AreHandedOut h.old.view.used.slots (store_in h.old.view.trail object) }
    ensures view { IsSomeAnd (store_in h.old.view.trail object).first (λ first. h.new.view ≡ with_write h.old.view (Slot (first + k) word)) }
    ensures heap { IsHeap h.new.view }
    ensures goes { Goes h.old.desk h.new.desk }
    ensures went { P.went h.old.pace h.old.desk.trail h.new.desk.trail h.new.pace }
{
    forms_are_kept();
    h.stands();
    let first = h.store(object).first.unwrap();
    h.set_slot(first + k, word);
}

// Copies the words of an object's first n slots, of which it has no more, to slots that come after all that it has.
fn copy_store<P: Pace>(h: &mut Heap<P>, object: u32, upto: u32, n: u32)
    requires full { n ≡ (store_in h.old.view.trail object).capacity }
    requires out { AreHandedOut upto (store_in h.old.view.trail object) }
    requires handed { upto + n ≤ h.old.view.used.slots }
    ensures view { h.new.view ≡ record h.old.view { trail = h.new.view.trail } }
    ensures words { (k : ℕ) → k < n → slot_in h.new.view.trail (upto + k) ≡ slot_word h.old.view.trail object k }
    ensures writes { Adds (FillsSlots upto) h.old.view.trail h.new.view.trail }
    ensures heap { IsHeap h.new.view }
    ensures goes { Goes h.old.desk h.new.desk }
    ensures went { P.went h.old.pace h.old.desk.trail h.new.desk.trail h.new.pace }
{
    h.stands();
    let store = h.store(object);
    let Some(from) = store.first else {
        return;
    };
    copy_slots(h, from, upto, n);
}

// Moves an object, whose n slots are all it has, to as many new slots as an object with one property more gets.
pub(crate) fn move_store<P: Pace>(h: &mut Heap<P>, object: u32, n: u32)
    requires few { n < MAX_FAST }
    requires full { n ≡ (store_in h.old.view.trail object).capacity }
    requires handed { object < h.old.view.used.objects }
    requires out { AreHandedOut h.old.view.used.slots (store_in h.old.view.trail object) }
    requires free { IfSome (map_in h.old.view.trail object) (λ m. IsTrue (bits_in h.old.view.trail m).unstable) }
    requires room { HasRoom h.old.view Slots (cap_of (n + 1)) }
    ensures moved { HasMoved h.old.view h.new.view object n (cap_of (n + 1)) }
    ensures heap { IsHeap h.new.view }
    ensures goes { Goes h.old.desk h.new.desk }
    ensures went { P.went h.old.pace h.old.desk.trail h.new.desk.trail h.new.pace }
{
    h.stands();
    let capacity = cap(n + 1);
    let first = h.fresh(Region::Slots, capacity);
    copy_store(h, object, first, n);
    h.set_store(
        object,
        StoreWord {
            capacity,
            first: Some(first),
        },
    );
}
