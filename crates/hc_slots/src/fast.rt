//! Reads of a fast object, from the words of its map and of its slots. They leave all as it was, but for loads.
ghost use Rattle.std.specs.Prelude.{◌≡◌, ◌+◌, ◌<◌, None, Some, IsSome, length, slice_get};
ghost use Rattle.hc_heap.specs.Readings.{gate_in, map_in};
ghost use Rattle.hc_heap.specs.States.{Goes, OnlyLoads, one_load};
ghost use Rattle.hc_table.specs.World.{place_of};
ghost use Rattle.hc_slots.specs.Meaning.{object_shown};
ghost use Rattle.hc_slots.specs.Fast.{HasMap};

use crate::entries::prop_of_entry;
use hc_heap::{Heap, Pace, gates_are_open};
use hc_value::Prop;

/// The map of a fast object.
pub fn map_of<P: Pace>(h: &mut Heap<P>, o: u32) -> u32
    requires fast { HasMap h.old.view.trail o }
    ensures map { map_in h.old.view.trail o ≡ Some result }
    ensures open { IsSome (gate_in h.old.view.trail result) }
    ensures new { h.new ≡ record h.old { desk = one_load h.old.desk } }
    ensures goes { Goes h.old.desk h.new.desk }
    ensures went { P.went h.old.pace h.old.desk.trail h.new.desk.trail h.new.pace }
{
    h.object_map(o).unwrap()
}

/// The prototype of a fast object.
pub fn proto<P: Pace>(h: &mut Heap<P>, o: u32) -> Option<u32>
    requires fast { HasMap h.old.view.trail o }
    ensures proto { result ≡ (object_shown h.old.view.trail o None (map_in h.old.view.trail o)).proto }
    ensures same { h.new ≡ record h.old { desk = h.new.desk } }
    ensures loads { OnlyLoads 2 h.old.desk h.new.desk }
{
    gates_are_open();
    h.stands();
    let map = map_of(h, o);
    h.proto(map).unwrap()
}

/// Whether a fast object may get properties.
pub fn extensible<P: Pace>(h: &mut Heap<P>, o: u32) -> bool
    requires fast { HasMap h.old.view.trail o }
    ensures extensible { result ≡ (object_shown h.old.view.trail o None (map_in h.old.view.trail o)).extensible }
    ensures same { h.new ≡ record h.old { desk = h.new.desk } }
    ensures loads { OnlyLoads 2 h.old.desk h.new.desk }
{
    let map = map_of(h, o);
    !h.gate(map).unwrap().is_locked
}

/// How many properties a fast object has.
pub fn len<P: Pace>(h: &mut Heap<P>, o: u32) -> u32
    requires fast { HasMap h.old.view.trail o }
    ensures len { result ≡ length (object_shown h.old.view.trail o None (map_in h.old.view.trail o)).props }
    ensures same { h.new ≡ record h.old { desk = h.new.desk } }
    ensures loads { OnlyLoads 2 h.old.desk h.new.desk }
{
    let map = map_of(h, o);
    h.gate(map).unwrap().entries
}

/// The place of a fast object's property of a name.
pub fn find<P: Pace>(h: &mut Heap<P>, o: u32, name: u32) -> Option<u32>
    requires fast { HasMap h.old.view.trail o }
    ensures place { result ≡ place_of (object_shown h.old.view.trail o None (map_in h.old.view.trail o)).props name }
    ensures same { h.new ≡ record h.old { desk = h.new.desk } }
    ensures loads { OnlyLoads (length (object_shown h.old.view.trail o None (map_in h.old.view.trail o)).props + 3) h.old.desk h.new.desk }
{
    let map = map_of(h, o);
    hc_descs::find(h, map, name)
}

/// A fast object's property at a place, by seven loads.
pub fn prop_at<P: Pace>(h: &mut Heap<P>, o: u32, i: u32) -> Prop
    requires fast { HasMap h.old.view.trail o }
    requires place { i < length (object_shown h.old.view.trail o None (map_in h.old.view.trail o)).props }
    ensures prop { slice_get (object_shown h.old.view.trail o None (map_in h.old.view.trail o)).props i ≡ Some result }
    ensures same { h.new ≡ record h.old { desk = h.new.desk } }
    ensures loads { OnlyLoads 7 h.old.desk h.new.desk }
{
    let map = map_of(h, o);
    prop_of_entry(h, o, map, i)
}
