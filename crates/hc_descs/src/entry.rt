//! One entry of an array, and the array of a map.
ghost use Rattle.std.specs.Prelude.{◌≡◌, ◌+◌, ◌<◌, ◌≤◌, ◌^◌, None, Some, IsSome};
ghost use Rattle.hc_heap.specs.Writes.{EntryKey, Reference, Base, Array};
ghost use Rattle.hc_heap.specs.Readings.{no_array, gate_in, array_in, entry_key_in, reference_in};
ghost use Rattle.hc_heap.specs.Lawful.{IsKey};
ghost use Rattle.hc_heap.specs.States.{IsHeap, Goes, one_load, with_write};
ghost use Rattle.hc_descs.specs.Copies.{own_array};
ghost use Rattle.hc_descs.specs.Entries.{IsFree};
ghost use Rattle.hc_layout.specs.declared.words.TheConstants.{COUNT_BITS};

use hc_heap::{Heap, Pace, forms_are_kept};
use hc_layout::ArrayWord;
use hc_value::Key;

// The key of an entry that is written.
pub(crate) fn key_of<P: Pace>(h: &mut Heap<P>, entry: u32) -> Key
    requires written { IsSome (entry_key_in h.old.view.trail entry) }
    ensures value { entry_key_in h.old.view.trail entry ≡ Some result }
    ensures form { IsKey result }
    ensures new { h.new ≡ record h.old { desk = one_load h.old.desk } }
    ensures heap { IsHeap h.new.view }
    ensures goes { Goes h.old.desk h.new.desk }
    ensures went { P.went h.old.pace h.old.desk.trail h.new.desk.trail h.new.pace }
{
    forms_are_kept();
    h.stands();
    h.entry_key(entry).unwrap()
}

// The field of an entry that is written.
pub(crate) fn field_of<P: Pace>(h: &mut Heap<P>, entry: u32) -> u32
    requires written { IsSome (reference_in h.old.view.trail entry) }
    ensures value { reference_in h.old.view.trail entry ≡ Some result }
    ensures there { result < h.old.view.shape.fields }
    ensures new { h.new ≡ record h.old { desk = one_load h.old.desk } }
    ensures heap { IsHeap h.new.view }
    ensures goes { Goes h.old.desk h.new.desk }
    ensures went { P.went h.old.pace h.old.desk.trail h.new.desk.trail h.new.pace }
{
    forms_are_kept();
    h.stands();
    h.reference(entry).unwrap()
}

// Writes an entry.
pub(crate) fn put_entry<P: Pace>(h: &mut Heap<P>, entry: u32, key: Key, field: u32)
    requires handed { entry < h.old.view.used.entries }
    requires free { IsFree h.old.view.trail entry }
    requires key { IsKey key }
    requires field { field < h.old.view.shape.fields }
    ensures view { h.new.view ≡ with_write (with_write h.old.view (EntryKey entry key)) (Reference entry field) }
    ensures heap { IsHeap h.new.view }
    ensures goes { Goes h.old.desk h.new.desk }
    ensures went { P.went h.old.pace h.old.desk.trail h.new.desk.trail h.new.pace }
{
    h.set_entry_key(entry, key);
    h.set_reference(entry, field);
}

// Gives a map that isn't open yet, and has no array, one of its own.
pub(crate) fn give_array<P: Pace>(h: &mut Heap<P>, map: u32, first: u32, capacity: u32)
    requires handed { map < h.old.view.used.maps }
    requires closed { gate_in h.old.view.trail map ≡ None }
    requires bare { array_in h.old.view.trail map ≡ no_array }
    requires there { first < h.old.view.shape.entries }
    requires array { first + capacity ≤ h.old.view.used.entries }
    requires form { capacity < 2 ^ COUNT_BITS }
    ensures view { h.new.view ≡ with_write (with_write h.old.view (Base map (Some first))) (Array map (own_array capacity)) }
    ensures heap { IsHeap h.new.view }
    ensures goes { Goes h.old.desk h.new.desk }
    ensures went { P.went h.old.pace h.old.desk.trail h.new.desk.trail h.new.pace }
{
    h.set_base(map, Some(first));
    h.set_array(
        map,
        ArrayWord {
            owner: true,
            capacity,
        },
    );
}
