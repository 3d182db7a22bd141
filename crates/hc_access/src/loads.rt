//! A load at a site.
ghost use Rattle.std.specs.Prelude.{◌≡◌, ◌<◌, Some, true, length, IfSome, is_some};
ghost use Rattle.hc_heap.specs.Readings.{map_in};
ghost use Rattle.hc_heap.specs.States.{OnlyLoads};
ghost use Rattle.hc_ops.specs.Get.{get_reply};
ghost use Rattle.hc_plan.specs.declared.case.Op.TheVariants.{Load};
ghost use Rattle.hc_modes.specs.State.{IsLive};
ghost use Rattle.hc_objects.specs.Came.{IsStill, world_of};
ghost use Rattle.hc_access.specs.Accesses.{Asked, load_events, load_fills, load_way, site_at, with_events};
ghost use Rattle.hc_access.specs.Entries.{AreGood, is_cached};

use crate::Accessed;
use crate::caches::{read_by, way_for};
use crate::fills::{fill_by, way_to};
use crate::notes::note;
use hc_heap::{Pace, gates_are_open, unused_says_nothing};
use hc_modes::chains_are_told;
use hc_objects::Objects;
use hc_ops::{get, nearest, read_held};
use hc_sites::{CacheWay, Sites};
use hc_value::{Reply, Value};

/// Reads a property at a site. By its inline cache it is a few loads, however long the receiver's chain is; else it is full
/// lookup, which fills the inline cache. A receiver's map is noted; it isn't deprecated.
pub fn load<P: Pace>(
    objects: &mut Objects<P>,
    sites: &mut Sites,
    s: u32,
    o: u32,
    name: u32,
) -> Accessed
    requires there { o < length (world_of objects.old) }
    requires live { IsLive objects.old.heap.view.trail o }
    requires site { site_at sites.old s ≡ Some (record { op = Load; name = name }) }
    requires good { AreGood objects.old sites.old }
    ensures reply { result.reply ≡ get_reply (world_of objects.old) o name }
    ensures by { result.by_cache ≡ is_cached objects.old.heap.view.trail sites.old s o }
    ensures sites { sites.new ≡ with_events sites.old s (load_events objects.old sites.old s o name) }
    ensures asked { Asked P.went objects.old objects.new }
    ensures good { AreGood objects.new sites.new }
    ensures loads { result.by_cache ≡ true → OnlyLoads 16 objects.old.heap.desk objects.new.heap.desk }
{
    let Some(map) = objects.map_of(o) else {
        return Accessed {
            by_cache: false,
            reply: get(objects, o, name),
        };
    };
    let cached = from_cache(objects, sites, s, o, name, map);
    note(objects, sites, s, map);
    match cached {
        Some(reply) => Accessed {
            by_cache: true,
            reply,
        },
        None => Accessed {
            by_cache: false,
            reply: look_up(objects, sites, s, o, name, map),
        },
    }
}

// What the inline cache answers, where it does.
fn from_cache<P: Pace>(
    objects: &mut Objects<P>,
    sites: &Sites,
    s: u32,
    o: u32,
    name: u32,
    map: u32,
) -> Option<Reply>
    requires there { o < length (world_of objects.old) }
    requires has { map_in objects.old.heap.view.trail o ≡ Some map }
    requires site { site_at sites.now s ≡ Some (record { op = Load; name = name }) }
    requires good { AreGood objects.old sites.now }
    ensures reply { IfSome result (λ reply. reply ≡ get_reply (world_of objects.old) o name) }
    ensures by { is_some result ≡ is_cached objects.old.heap.view.trail sites.now s o }
    ensures still { IsStill objects.old objects.new }
    ensures loads { OnlyLoads 8 objects.old.heap.desk objects.new.heap.desk }
{
    gates_are_open();
    unused_says_nothing();
    chains_are_told::<P>();
    objects.stands();
    let way = way_for(objects, sites.cache(s), map)?;
    Some(read_by(objects, o, way))
}

// Reads by full lookup, and fills the inline cache.
fn look_up<P: Pace>(
    objects: &mut Objects<P>,
    sites: &mut Sites,
    s: u32,
    o: u32,
    name: u32,
    map: u32,
) -> Reply
    requires there { o < length (world_of objects.old) }
    requires has { map_in objects.old.heap.view.trail o ≡ Some map }
    requires site { site_at sites.old s ≡ Some (record { op = Load; name = name }) }
    requires good { AreGood objects.old sites.old }
    ensures reply { result ≡ get_reply (world_of objects.old) o name }
    ensures sites { sites.new ≡ with_events sites.old s (load_fills objects.old o name map) }
    ensures asked { Asked P.went objects.old objects.new }
    ensures good { AreGood objects.new sites.new }
{
    let found = find(objects, o, name);
    fill_by(objects, sites, s, o, name, map, found.way);
    found.reply
}

// What full lookup gives, and the way that an inline cache may keep.
#[derive(Drop)]
struct Found {
    reply: Reply,
    way: Option<CacheWay>,
}

// Full lookup.
fn find<P: Pace>(objects: &mut Objects<P>, o: u32, name: u32) -> Found
    requires there { o < length (world_of objects.old) }
    ensures reply { result.reply ≡ get_reply (world_of objects.old) o name }
    ensures way { result.way ≡ load_way objects.old o name }
    ensures still { IsStill objects.old objects.new }
{
    gates_are_open();
    unused_says_nothing();
    chains_are_told::<P>();
    objects.stands();
    let Some(spot) = nearest(objects, o, name) else {
        return Found {
            reply: Reply::Val(Value::Undefined),
            way: Some(CacheWay::Absent),
        };
    };
    let way = way_to(objects, o, spot.holder, spot.place);
    Found {
        reply: read_held(o, spot.property.held),
        way,
    }
}
