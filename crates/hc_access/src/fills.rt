//! What full lookup puts into inline caches.
ghost use Rattle.std.specs.Prelude.{◌≡◌, ◌<◌, Some, length};
ghost use Rattle.hc_heap.specs.Readings.{map_in};
ghost use Rattle.hc_plan.specs.declared.case.Op.TheVariants.{Load};
ghost use Rattle.hc_table.specs.World.{object};
ghost use Rattle.hc_objects.specs.Came.{IsStill, world_of};
ghost use Rattle.hc_access.specs.Accesses.{Asked, fills_behind, fills_by, load_way, site_at, with_events};
ghost use Rattle.hc_access.specs.Entries.{AreGood};
ghost use Rattle.hc_access.specs.Ways.{IsSeen, way_to};

use hc_heap::{Pace, gates_are_open, unused_says_nothing};
use hc_modes::chains_are_told;
use hc_objects::{Objects, cells_stand_alone};
use hc_sites::{CacheWay, Cached, Sites};
use hc_tree::maps_are_kept;

/// The way to a property of an object or of its chain; none where a holder on the chain is slow.
pub(crate) fn way_to<P: Pace>(
    objects: &mut Objects<P>,
    o: u32,
    holder: u32,
    place: u32,
) -> Option<CacheWay>
    requires holder { holder < length (world_of objects.old) }
    ensures way { result ≡ way_to objects.old.kept o holder place }
    ensures still { IsStill objects.old objects.new }
{
    if holder == o {
        return Some(CacheWay::Own(place));
    }
    objects.map_of(holder)?;
    Some(CacheWay::Holder(holder, place))
}

/// Fills the inline cache of a load, as full lookup found the property.
pub(crate) fn fill_by<P: Pace>(
    objects: &mut Objects<P>,
    sites: &mut Sites,
    s: u32,
    o: u32,
    name: u32,
    map: u32,
    way: Option<CacheWay>,
)
    requires there { o < length (world_of objects.old) }
    requires has { map_in objects.old.heap.view.trail o ≡ Some map }
    requires site { site_at sites.old s ≡ Some (record { op = Load; name = name }) }
    requires way { way ≡ load_way objects.old o name }
    requires good { AreGood objects.old sites.old }
    ensures sites { sites.new ≡ with_events sites.old s (fills_by objects.old.heap.view map (object (world_of objects.old) o).proto way) }
    ensures asked { Asked P.went objects.old objects.new }
    ensures good { AreGood objects.new sites.new }
{
    gates_are_open();
    unused_says_nothing();
    chains_are_told::<P>();
    objects.stands();
    let Some(found) = way else {
        return;
    };
    match found {
        CacheWay::Own(place) => sites.fill(
            s,
            Cached {
                map,
                way: CacheWay::Own(place),
                cell: None,
            },
        ),
        CacheWay::Holder(holder, place) => {
            let past = CacheWay::Holder(holder, place);
            fill_past(objects, sites, s, o, name, map, past);
        }
        CacheWay::Absent => fill_past(objects, sites, s, o, name, map, CacheWay::Absent),
    }
}

// Fills the inline cache of a load, as full lookup found the property past the object.
fn fill_past<P: Pace>(
    objects: &mut Objects<P>,
    sites: &mut Sites,
    s: u32,
    o: u32,
    name: u32,
    map: u32,
    way: CacheWay,
)
    requires there { o < length (world_of objects.old) }
    requires site { site_at sites.old s ≡ Some (record { op = Load; name = name }) }
    requires seen { IsSeen objects.old (record { op = Load; name = name }) map (object (world_of objects.old) o).proto way }
    requires good { AreGood objects.old sites.old }
    ensures sites { sites.new ≡ with_events sites.old s (fills_behind objects.old.heap.view map (object (world_of objects.old) o).proto way) }
    ensures asked { Asked P.went objects.old objects.new }
    ensures good { AreGood objects.new sites.new }
{
    let proto = objects.proto(o);
    fill_behind(objects, sites, s, name, map, proto, way);
}

// Fills the inline cache of a load, as full lookup found the property behind a map.
fn fill_behind<P: Pace>(
    objects: &mut Objects<P>,
    sites: &mut Sites,
    s: u32,
    name: u32,
    map: u32,
    proto: Option<u32>,
    way: CacheWay,
)
    requires site { site_at sites.old s ≡ Some (record { op = Load; name = name }) }
    requires seen { IsSeen objects.old (record { op = Load; name = name }) map proto way }
    requires good { AreGood objects.old sites.old }
    ensures sites { sites.new ≡ with_events sites.old s (fills_behind objects.old.heap.view map proto way) }
    ensures asked { Asked P.went objects.old objects.new }
    ensures good { AreGood objects.new sites.new }
{
    match proto {
        None => sites.fill(
            s,
            Cached {
                map,
                way,
                cell: None,
            },
        ),
        Some(p) => fill_with_cell(objects, sites, s, name, map, p, way),
    }
}

// The same behind a map that has a prototype, where a cell is left.
fn fill_with_cell<P: Pace>(
    objects: &mut Objects<P>,
    sites: &mut Sites,
    s: u32,
    name: u32,
    map: u32,
    proto: u32,
    way: CacheWay,
)
    requires site { site_at sites.old s ≡ Some (record { op = Load; name = name }) }
    requires seen { IsSeen objects.old (record { op = Load; name = name }) map (Some proto) way }
    requires good { AreGood objects.old sites.old }
    ensures sites { sites.new ≡ with_events sites.old s (fills_behind objects.old.heap.view map (Some proto) way) }
    ensures asked { Asked P.went objects.old objects.new }
    ensures good { AreGood objects.new sites.new }
{
    gates_are_open();
    unused_says_nothing();
    maps_are_kept();
    chains_are_told::<P>();
    cells_stand_alone::<P>();
    objects.stands();
    let cell = objects.cell_of(proto);
    objects.stands();
    if let Some(cell) = cell {
        sites.fill(
            s,
            Cached {
                map,
                way,
                cell: Some(cell),
            },
        );
    }
}
