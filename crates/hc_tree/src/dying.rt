//! Maps that are deprecated.
ghost use Rattle.std.specs.Prelude.{IsSomeAnd};
ghost use Rattle.hc_heap.specs.Readings.{gate_in};
ghost use Rattle.hc_heap.specs.States.{Goes};
ghost use Rattle.hc_tree.specs.Tree.{IsTree};
ghost use Rattle.hc_tree.specs.Dying.{IsDeprecated, MayDie};

use crate::laws::maps_are_kept;
use hc_heap::{Heap, Pace, set_is_kept, unused_says_nothing};
use hc_layout::MapBits;
use hc_links::{links_are_chained, links_lead};

/// Deprecates a map and all maps under it, and nothing else: the children first.
pub fn deprecate<P: Pace>(h: &mut Heap<P>, map: u32)
    requires tree { IsTree h.old.view.trail }
    requires open { IsSomeAnd (gate_in h.old.view.trail map) (MayDie h.old.view.trail map) }
    ensures dies { IsDeprecated h.old.view h.new.view map }
    ensures goes { Goes h.old.desk h.new.desk }
    ensures went { P.went h.old.pace h.old.desk.trail h.new.desk.trail h.new.pace }
{
    maps_are_kept();
    links_are_chained();
    set_is_kept();
    unused_says_nothing();
    h.stands();
    let mut at = h.head(map);
    while let Some(link) = at {
        let child = h.link_child(link).unwrap();
        deprecate(h, child);
        at = h.link_next(link).unwrap();
    }
    h.set_bits(
        map,
        MapBits {
            unstable: true,
            deprecated: true,
        },
    );
}
