//! Objects whose maps are generalised: a store isn't in place.
ghost use Rattle.std.specs.Prelude.{ℕ, ◌≡◌, ◌<◌, false, IsTrue, IsSomeAnd, Some};
ghost use Rattle.hc_layout.specs.declared.words.GateWord.{GateWord};
ghost use Rattle.hc_facts.specs.Honest.{IsHonest};
ghost use Rattle.hc_heap.specs.Readings.{bits_in, gate_in, map_in, store_in};
ghost use Rattle.hc_heap.specs.States.{Goes};
ghost use Rattle.hc_tree.specs.Needs.{HasSpace};
ghost use Rattle.hc_tree.specs.Tree.{IsTree};
ghost use Rattle.hc_tree.specs.Walking.{IsDetail};
ghost use Rattle.hc_update.specs.Renewing.{generalise_need};
ghost use Rattle.hc_slots.specs.Fast.{HasMap};
ghost use Rattle.hc_slots.specs.Slots.{AreHandedOut};
ghost use Rattle.hc_modes.specs.Resettled.{IsGeneralisedFor};

use crate::coming::come_to;
use hc_heap::{Heap, Pace, details_rise, gates_are_open, set_is_kept, unused_says_nothing};
use hc_tree::{maps_are_kept, mark_unstable, owners_stand};
use hc_update::generalise;
use hc_value::Detail;

// Has a fast object come to a map whose i-th field admits a detail besides, for which there is room. Its map is made unstable first of
// all.
pub(crate) fn generalise_object<P: Pace>(
    h: &mut Heap<P>,
    object: u32,
    map: u32,
    n: u32,
    i: u32,
    detail: Detail,
)
    requires tree { IsTree h.old.view.trail }
    requires honest { IsHonest h.old.view.trail }
    requires live { (bits_in h.old.view.trail map).deprecated ≡ false }
    requires fast { HasMap h.old.view.trail object }
    requires has { map_in h.old.view.trail object ≡ Some map }
    requires open { IsSomeAnd (gate_in h.old.view.trail map) (λ g. g.entries ≡ n) }
    requires entry { i < n }
    requires detail { IsDetail h.old.view.shape h.old.view.trail detail }
    requires out { AreHandedOut h.old.view.used.slots (store_in h.old.view.trail object) }
    requires handed { object < h.old.view.used.objects }
    requires space { (g : GateWord) → gate_in h.old.view.trail map ≡ Some g → HasSpace h.old.view (generalise_need g i) }
    ensures generalised { IsGeneralisedFor h.old.view h.new.view object map n i detail }
    ensures goes { Goes h.old.desk h.new.desk }
    ensures went { P.went h.old.pace h.old.desk.trail h.new.desk.trail h.new.pace }
{
    maps_are_kept();
    details_rise();
    set_is_kept();
    gates_are_open();
    unused_says_nothing();
    owners_stand();
    h.stands();
    mark_unstable(h, map);
    let Ok(other) = generalise(h, map, i, detail) else {
        unreachable!()
    };
    come_to(h, object, map, other, n);
}
