ghost use Rattle.std.specs.Prelude.{◌≡◌, ◌<◌};
ghost use Rattle.hc_heap.specs.States.{IsHeap, Goes};
ghost use Rattle.hc_tree.specs.Tree.{IsTree};
ghost use Rattle.hc_tree.specs.Growth.{marked};

use crate::laws::maps_are_kept;
use hc_heap::{Heap, Pace};
use hc_layout::MapBits;

/// Makes a map unstable, by one store where it isn't already.
pub fn mark_unstable<P: Pace>(h: &mut Heap<P>, map: u32)
    requires handed { map < h.old.view.used.maps }
    requires tree { IsTree h.old.view.trail }
    ensures view { h.new.view ≡ record h.old.view { trail = marked h.old.view.trail map } }
    ensures tree { IsTree h.new.view.trail }
    ensures heap { IsHeap h.new.view }
    ensures goes { Goes h.old.desk h.new.desk }
    ensures went { P.went h.old.pace h.old.desk.trail h.new.desk.trail h.new.pace }
{
    maps_are_kept();
    h.stands();
    let bits = h.bits(map);
    if bits.unstable {
        return;
    }
    h.set_bits(
        map,
        MapBits {
            unstable: true,
            deprecated: bits.deprecated,
        },
    );
}
