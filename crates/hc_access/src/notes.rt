//! What an access notes at its site.
ghost use Rattle.std.specs.Prelude.{◌≡◌, ◌<◌, length};
ghost use Rattle.hc_heap.specs.States.{OnlyLoads};
ghost use Rattle.hc_objects.specs.Came.{IsStill};
ghost use Rattle.hc_sites.specs.Maps.{has_map};
ghost use Rattle.hc_access.specs.Accesses.{with_events};
ghost use Rattle.hc_access.specs.Notes.{forgets_at, forgets_before, forgets_of, maps_at, notes};

use hc_heap::Pace;
use hc_objects::Objects;
use hc_sites::Sites;

/// Notes a map at a site. Before one that isn't there those that are deprecated are forgotten.
pub(crate) fn note<P: Pace>(objects: &mut Objects<P>, sites: &mut Sites, s: u32, map: u32)
    requires there { s < length sites.old }
    ensures sites { sites.new ≡ with_events sites.old s (notes objects.old.heap.view.trail (maps_at sites.old s) map) }
    ensures still { IsStill objects.old objects.new }
    ensures loads { OnlyLoads 4 objects.old.heap.desk objects.new.heap.desk }
{
    forget_before(objects, sites, s, map);
    sites.note(s, map);
}

// Forgets what is forgotten before a map is noted.
fn forget_before<P: Pace>(objects: &mut Objects<P>, sites: &mut Sites, s: u32, map: u32)
    requires there { s < length sites.old }
    ensures sites { sites.new ≡ with_events sites.old s (forgets_before objects.old.heap.view.trail (maps_at sites.old s) map) }
    ensures still { IsStill objects.old objects.new }
    ensures loads { OnlyLoads 4 objects.old.heap.desk objects.new.heap.desk }
{
    if has_seen(sites, s, map) {
        return;
    }
    forget_dead(objects, sites, s);
}

// Whether a site has seen a map.
fn has_seen(sites: &Sites, s: u32, map: u32) -> bool
    requires there { s < length sites.now }
    ensures { result ≡ has_map (maps_at sites.now s) map }
{
    sites.feedback(s).maps.contains(&Some(map))
}

// Forgets the maps that a site has seen and that are deprecated, the first in front.
fn forget_dead<P: Pace>(objects: &mut Objects<P>, sites: &mut Sites, s: u32)
    requires there { s < length sites.old }
    ensures sites { sites.new ≡ with_events sites.old s (forgets_of objects.old.heap.view.trail (maps_at sites.old s)) }
    ensures still { IsStill objects.old objects.new }
    ensures loads { OnlyLoads 4 objects.old.heap.desk objects.new.heap.desk }
{
    let maps = sites.feedback(s).maps;
    for place in maps.iter() {
        forget_at(objects, sites, s, *place);
    }
}

// Forgets the map in a place, where it is deprecated.
fn forget_at<P: Pace>(objects: &mut Objects<P>, sites: &mut Sites, s: u32, place: Option<u32>)
    requires there { s < length sites.old }
    ensures sites { sites.new ≡ with_events sites.old s (forgets_at objects.old.heap.view.trail place) }
    ensures still { IsStill objects.old objects.new }
    ensures loads { OnlyLoads 1 objects.old.heap.desk objects.new.heap.desk }
{
    let Some(map) = place else {
        return;
    };
    if objects.is_dead(map) {
        sites.forget(s, map);
    }
}
