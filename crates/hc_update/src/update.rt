//! The map that is live in place of another: of a deprecated one, or of one with another prototype.
ghost use Rattle.std.specs.Prelude.{◌≡◌, ◌≤◌, false, Some, IfErr, IfOk, IsSomeAnd};
ghost use Rattle.hc_heap.specs.Readings.{bits_in, gate_in};
ghost use Rattle.hc_heap.specs.States.{Goes};
ghost use Rattle.hc_descs.specs.Entries.{count_of};
ghost use Rattle.hc_tree.specs.Tree.{IsTree, gate_with};
ghost use Rattle.hc_tree.specs.Needs.{HasSpace, IsSpaceExact, walk_need};
ghost use Rattle.hc_tree.specs.Growth.{IsUnmoved, MayBePrototype};
ghost use Rattle.hc_tree.specs.Walking.{AreRoots, shared_need};
ghost use Rattle.hc_update.specs.Retargeting.{HasMapFor};
ghost use Rattle.hc_update.specs.Updating.{IsSomeRoot, IsStop, IsUpdated};

use crate::cutting::cut;
use hc_heap::{Heap, Pace, Space, gates_are_open, set_is_kept, unused_says_nothing};
use hc_tree::{
    Wanted, admit_all, build, detail_at, has_space, live_end, maps_are_kept, of_walk, root,
};
use hc_value::{in_place, join};

/// The live shared map that stands under a root for a shared map: it has the map's keys, and its fields admit what the map's
/// admit. There is to be room for a map of each property, whether or not one is made.
pub fn updated<P: Pace>(h: &mut Heap<P>, map: u32, root: u32) -> Result<u32, Space>
    requires tree { IsTree h.old.view.trail }
    requires map { IsSomeAnd (gate_in h.old.view.trail map) (λ g. g.is_private ≡ false) }
    requires root { IsSomeRoot h.old.view.trail root }
    ensures updated { IfOk result (λ c. IsUpdated h.old.view h.new.view root map (count_of h.old.view.trail map) c) }
    ensures space { IsSpaceExact h.old.view (walk_need (count_of h.old.view.trail map)) result }
    ensures still { IfErr result (λ e. IsUnmoved h.old h.new) }
    ensures goes { Goes h.old.desk h.new.desk }
    ensures went { P.went h.old.pace h.old.desk.trail h.new.desk.trail h.new.pace }
{
    gates_are_open();
    h.stands();
    let n = h.gate(map).unwrap().entries;
    if !has_space(h, of_walk(n)) {
        return Err(Space);
    }
    Ok(renew(h, root, map, n))
}

/// The live shared map with the n keys of a shared map and a prototype, whose root is made where there is none. Maps that are missing
/// are made, for which there is room. For the map's own prototype it is the live map in its place.
pub fn map_for<P: Pace>(
    h: &mut Heap<P>,
    map: u32,
    n: u32,
    proto: Option<u32>,
    of_null: &mut Option<u32>,
) -> u32
    requires tree { IsTree h.old.view.trail }
    requires roots { AreRoots h.old.view.trail of_null.old }
    requires map { gate_in h.old.view.trail map ≡ Some (gate_with n false) }
    requires proto { MayBePrototype h.old.view.used h.old.view.trail proto }
    requires space { HasSpace h.old.view (shared_need h.old.view.trail n proto of_null.old) }
    ensures found { HasMapFor h.old.view h.new.view of_null.old of_null.new map result n proto }
    ensures goes { Goes h.old.desk h.new.desk }
    ensures went { P.went h.old.pace h.old.desk.trail h.new.desk.trail h.new.pace }
{
    maps_are_kept();
    h.stands();
    let Ok(root) = root(h, proto, of_null) else {
        unreachable!()
    };
    renew(h, root, map, n)
}

// Updates a map with n entries, for which there is room.
fn renew<P: Pace>(h: &mut Heap<P>, root: u32, map: u32, n: u32) -> u32
    requires tree { IsTree h.old.view.trail }
    requires live { (bits_in h.old.view.trail root).deprecated ≡ false }
    requires root { gate_in h.old.view.trail root ≡ Some (gate_with 0 false) }
    requires map { gate_in h.old.view.trail map ≡ Some (gate_with n false) }
    requires space { HasSpace h.old.view (walk_need n) }
    ensures updated { IsUpdated h.old.view h.new.view root map n result }
    ensures goes { Goes h.old.desk h.new.desk }
    ensures went { P.went h.old.pace h.old.desk.trail h.new.desk.trail h.new.pace }
{
    maps_are_kept();
    gates_are_open();
    set_is_kept();
    unused_says_nothing();
    h.stands();
    let end = live_end(h, root, map, n);
    let count = h.gate(end).unwrap().entries;
    let stop = first_stop(h, end, map, count, n);
    admit_all(h, end, map, stop, count, n);
    let base = cut(h, end, count, stop);
    build(h, base, map, stop, n, Wanted::Joined(end, count))
}

// The first place at which the field of a live map doesn't join in place with that of another map, or the end of its entries.
fn first_stop<P: Pace>(h: &mut Heap<P>, end: u32, map: u32, count: u32, n: u32) -> u32
    requires end { gate_in h.old.view.trail end ≡ Some (gate_with count false) }
    requires map { gate_in h.old.view.trail map ≡ Some (gate_with n false) }
    requires within { count ≤ n }
    ensures stop { IsStop h.old.view.trail end map count result }
    ensures same { h.new ≡ record h.old { desk = h.new.desk } }
    ensures goes { Goes h.old.desk h.new.desk }
    ensures went { P.went h.old.pace h.old.desk.trail h.new.desk.trail h.new.pace }
{
    for k in 0..count {
        let live = detail_at(h, end, k);
        let own = detail_at(h, map, k);
        if !in_place(live.rep, join(live.rep, own.rep)) {
            return k;
        }
    }
    count
}
