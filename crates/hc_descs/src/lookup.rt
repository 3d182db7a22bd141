ghost use Rattle.std.specs.Prelude.{◌≡◌, ◌≢◌, ◌+◌, None, Some, IsSome, IfSome, IsSomeAnd, IsTrue, false};
ghost use Rattle.hc_heap.specs.States.{OnlyLoads, one_load};
ghost use Rattle.hc_heap.specs.Readings.{gate_in, entry_key_in};
ghost use Rattle.hc_descs.specs.Entries.{IsFirstNamed, LacksName, count_of};

use crate::entry::key_of;
use hc_heap::{Heap, Pace, gates_are_open, unused_says_nothing};

/// Which entry of an open map is the first that has the name.
pub fn find<P: Pace>(h: &mut Heap<P>, map: u32, name: u32) -> Option<u32>
    requires open { IsSome (gate_in h.old.view.trail map) }
    ensures found { IfSome result (λ i. IsFirstNamed h.old.view.trail map name i) }
    ensures absent { result ≡ None → LacksName h.old.view.trail map (count_of h.old.view.trail map) name }
    ensures same { h.new ≡ record h.old { desk = h.new.desk } }
    ensures loads { OnlyLoads (count_of h.old.view.trail map + 2) h.old.desk h.new.desk }
    ensures went { P.went h.old.pace h.old.desk.trail h.new.desk.trail h.new.pace }
{
    gates_are_open();
    unused_says_nothing();
    h.stands();
    let gate = h.gate(map).unwrap();
    let Some(base) = h.base(map) else {
        return None;
    };
    for i in 0..gate.entries {
        if key_of(h, base + i).name == name {
            return Some(i);
        }
    }
    None
}
