//! A walk along a chain of prototypes.
ghost use Rattle.std.specs.Prelude.{◌≡◌, ◌*◌, ◌<◌, Some, length};
ghost use Rattle.hc_heap.specs.States.{Goes, OnlyLoads};
ghost use Rattle.hc_cells.specs.Chains.{Ends, before, chain, passes, proto_at};

use hc_heap::{Heap, Pace};

// The prototype of an object: a fast one's map says it, and a slow one's is kept in a list.
pub(crate) fn proto_of<P: Pace>(h: &mut Heap<P>, object: u32, protos: &[Option<u32>]) -> Option<u32>
    requires there { object < length protos.now }
    ensures proto { result ≡ proto_at h.old.view.trail protos.now object }
    ensures same { h.new ≡ record h.old { desk = h.new.desk } }
    ensures loads { OnlyLoads 2 h.old.desk h.new.desk }
    ensures goes { Goes h.old.desk h.new.desk }
    ensures went { P.went h.old.pace h.old.desk.trail h.new.desk.trail h.new.pace }
{
    let Some(map) = h.object_map(object) else {
        return protos[object as usize];
    };
    h.proto(map)?
}

// Whether the chain of a prototype goes through an object.
pub(crate) fn goes_through<P: Pace>(
    h: &mut Heap<P>,
    from: u32,
    object: u32,
    protos: &[Option<u32>],
) -> bool
    requires ends { Ends (length protos.now) h.old.view.trail protos.now (Some from) }
    ensures through { result ≡ passes h.old.view.trail protos.now from object }
    ensures same { h.new ≡ record h.old { desk = h.new.desk } }
    ensures loads { OnlyLoads (2 * before (chain h.old.view.trail protos.now from) object) h.old.desk h.new.desk }
    ensures goes { Goes h.old.desk h.new.desk }
    ensures went { P.went h.old.pace h.old.desk.trail h.new.desk.trail h.new.pace }
{
    let mut at = Some(from);
    while let Some(here) = at {
        if here == object {
            return true;
        }
        at = proto_of(h, here, protos);
    }
    false
}
