//! Entries of inline caches: when they may be used, and what they answer.
ghost use Rattle.std.specs.Prelude.{◌≡◌, ◌<◌, length, slice_get};
ghost use Rattle.hc_heap.specs.States.{OnlyLoads};
ghost use Rattle.hc_table.specs.World.{props_at};
ghost use Rattle.hc_objects.specs.Came.{IsStill, world_of};
ghost use Rattle.hc_access.specs.Entries.{is_unbroken};
ghost use Rattle.hc_access.specs.Ways.{IsWayThere, read_property, reply_by, way_for};

use hc_heap::Pace;
use hc_objects::Objects;
use hc_ops::read_held;
use hc_sites::{CacheWay, Cached};
use hc_value::{Reply, Value};

// Whether there is no cell, or it is valid.
fn is_unbroken<P: Pace>(objects: &mut Objects<P>, cell: Option<u32>) -> bool
    ensures unbroken { result ≡ is_unbroken objects.old.heap.view.trail cell }
    ensures still { IsStill objects.old objects.new }
    ensures loads { OnlyLoads 1 objects.old.heap.desk objects.new.heap.desk }
{
    match cell {
        Some(cell) => objects.valid(cell),
        None => true,
    }
}

/// The way of an entry that may be used for a map: it names that, and its cell, where it has one, is valid.
pub(crate) fn way_for<P: Pace>(
    objects: &mut Objects<P>,
    entry: Option<Cached>,
    map: u32,
) -> Option<CacheWay>
    ensures way { result ≡ way_for objects.old.heap.view.trail entry map }
    ensures still { IsStill objects.old objects.new }
    ensures loads { OnlyLoads 1 objects.old.heap.desk objects.new.heap.desk }
{
    let entry = entry?;
    if entry.map == map && is_unbroken(objects, entry.cell) {
        return Some(entry.way);
    }
    None
}

/// What reading by a way gives, where an object was asked.
pub(crate) fn read_by<P: Pace>(objects: &mut Objects<P>, o: u32, way: CacheWay) -> Reply
    requires object { o < length (world_of objects.old) }
    requires there { IsWayThere (world_of objects.old) o way }
    ensures reply { result ≡ reply_by (world_of objects.old) o way }
    ensures still { IsStill objects.old objects.new }
    ensures loads { OnlyLoads 7 objects.old.heap.desk objects.new.heap.desk }
{
    match way {
        CacheWay::Own(place) => read_at(objects, o, o, place),
        CacheWay::Holder(holder, place) => read_at(objects, o, holder, place),
        CacheWay::Absent => Reply::Val(Value::Undefined),
    }
}

// What reading a holder's property gives, where an object was asked.
fn read_at<P: Pace>(objects: &mut Objects<P>, o: u32, holder: u32, place: u32) -> Reply
    requires holder { holder < length (world_of objects.old) }
    requires place { place < length (props_at (world_of objects.old) holder) }
    ensures reply { result ≡ read_property o (slice_get (props_at (world_of objects.old) holder) place) }
    ensures still { IsStill objects.old objects.new }
    ensures loads { OnlyLoads 7 objects.old.heap.desk objects.new.heap.desk }
{
    let property = objects.prop_at(holder, place);
    read_held(o, property.held)
}
