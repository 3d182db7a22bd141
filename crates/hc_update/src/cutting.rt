//! Maps that die because a field outgrows its layout.
ghost use Rattle.std.specs.Prelude.{◌≡◌, ◌≤◌, false, Some};
ghost use Rattle.hc_heap.specs.Readings.{bits_in, gate_in};
ghost use Rattle.hc_heap.specs.States.{Goes};
ghost use Rattle.hc_tree.specs.Tree.{IsTree, gate_with};
ghost use Rattle.hc_update.specs.Renewing.{IsCut};

use hc_descs::field_at;
use hc_fields::owner;
use hc_heap::{Heap, Pace, unused_says_nothing};
use hc_tree::{
    deprecate, live_stand_high, maps_are_kept, owner_is_freed, owners_stand, parent_is_spared,
};

// Deprecates the owner of a live map's i-th field with all maps under it. The answer is the map above it; where the map has
// no such field it is the map itself, and nothing is stored.
pub(crate) fn cut<P: Pace>(h: &mut Heap<P>, map: u32, n: u32, i: u32) -> u32
    requires tree { IsTree h.old.view.trail }
    requires map { gate_in h.old.view.trail map ≡ Some (gate_with n false) }
    requires live { (bits_in h.old.view.trail map).deprecated ≡ false }
    requires within { i ≤ n }
    ensures cut { IsCut h.old.view h.new.view map n i result }
    ensures goes { Goes h.old.desk h.new.desk }
    ensures went { P.went h.old.pace h.old.desk.trail h.new.desk.trail h.new.pace }
{
    maps_are_kept();
    owners_stand();
    live_stand_high();
    parent_is_spared();
    owner_is_freed();
    h.stands();
    if i == n {
        return map;
    }
    let field = field_at(h, map, i);
    let owner = owner(h, field);
    let parent = h.parent(owner).unwrap().unwrap();
    deprecate(h, owner);
    parent
}
