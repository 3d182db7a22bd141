//! Maps in the place of others: live ones that are walked to, whose fields are raised, and new ones.
ghost use Rattle.std.specs.Prelude.{ℕ, ◌≡◌, ◌+◌, ◌<◌, ◌≤◌, true, false, None, Some};
ghost use Rattle.hc_value.specs.declared.key.Key.{Key};
ghost use Rattle.hc_heap.specs.Readings.{bits_in, gate_in};
ghost use Rattle.hc_heap.specs.States.{Goes};
ghost use Rattle.hc_descs.specs.Entries.{count_of, key_at};
ghost use Rattle.hc_tree.specs.Growth.{child_need, live_child};
ghost use Rattle.hc_tree.specs.Needs.{HasSpace, build_need};
ghost use Rattle.hc_tree.specs.Details.{fits_at};
ghost use Rattle.hc_tree.specs.Tree.{IsTree, gate_with};
ghost use Rattle.hc_tree.specs.Walking.{AreJoined, IsBuilt, IsLiveEnd, MayAdmit, MayBeWanted, wanted_at};

use crate::children::{live, make_child};
use crate::fields::{admit, detail_at};
use crate::laws::maps_are_kept;
use hc_descs::key_at;
use hc_heap::{Heap, Pace, forms_are_kept, gates_are_open, unused_says_nothing};
use hc_links::{links_are_kept, same_keys_are_equal};
use hc_value::Detail;

/// What the fields of new maps are to admit, that are made for the entries of a map from one on.
#[derive(Clone, Copy)]
pub enum Wanted {
    /// What the map's fields admit, joined with this detail for the first of the new entries.
    With(Detail),
    /// What the map's fields admit, joined for so many first entries with what another map's fields do.
    Joined(u32, u32),
}

/// Comes from a live root along live children, by the keys of a map, as far as there are any.
pub fn live_end<P: Pace>(h: &mut Heap<P>, root: u32, map: u32, n: u32) -> u32
    requires tree { IsTree h.old.view.trail }
    requires live { (bits_in h.old.view.trail root).deprecated ≡ false }
    requires root { gate_in h.old.view.trail root ≡ Some (gate_with 0 false) }
    requires map { gate_in h.old.view.trail map ≡ Some (gate_with n false) }
    ensures ended { IsLiveEnd h.old.view.trail root map n result (count_of h.old.view.trail result) }
    ensures same { h.new ≡ record h.old { desk = h.new.desk } }
    ensures goes { Goes h.old.desk h.new.desk }
    ensures went { P.went h.old.pace h.old.desk.trail h.new.desk.trail h.new.pace }
{
    same_keys_are_equal();
    h.stands();
    let mut at = root;
    for k in 0..n {
        let key = key_at(h, map, k);
        let Some(child) = live(h, at, key) else {
            return at;
        };
        at = child;
    }
    at
}

/// Joins what the first fields of a map with so many entries admit, up to a place, with what the fields of another map do.
/// These are to be joins in place.
pub fn admit_all<P: Pace>(h: &mut Heap<P>, end: u32, map: u32, stop: u32, count: u32, n: u32)
    requires tree { IsTree h.old.view.trail }
    requires end { gate_in h.old.view.trail end ≡ Some (gate_with count false) }
    requires map { gate_in h.old.view.trail map ≡ Some (gate_with n false) }
    requires within { count ≤ n }
    requires upto { stop ≤ count }
    requires fits { (j : ℕ) → j < stop → fits_at h.old.view.trail end map j ≡ true }
    ensures joined { AreJoined h.old.view h.new.view end map stop count n stop }
    ensures goes { Goes h.old.desk h.new.desk }
    ensures went { P.went h.old.pace h.old.desk.trail h.new.desk.trail h.new.pace }
{
    maps_are_kept();
    h.stands();
    for k in 0..stop {
        let detail = detail_at(h, map, k);
        admit(h, end, k, detail);
    }
}

// What is to be admitted by the field of a new map's k-th entry, where the first new entry is this one.
fn wanted_detail<P: Pace>(
    h: &mut Heap<P>,
    map: u32,
    first: u32,
    wanted: Wanted,
    k: u32,
    n: u32,
) -> Detail
    requires tree { IsTree h.old.view.trail }
    requires map { gate_in h.old.view.trail map ≡ Some (gate_with n false) }
    requires entry { k < n }
    requires wanted { MayBeWanted h.old.view.shape h.old.view.trail map first wanted }
    ensures value { wanted_at h.old.view.trail map first wanted k ≡ Some result }
    ensures admits { MayAdmit h.old.view.shape h.old.view.trail map k result }
    ensures same { h.new ≡ record h.old { desk = h.new.desk } }
    ensures goes { Goes h.old.desk h.new.desk }
    ensures went { P.went h.old.pace h.old.desk.trail h.new.desk.trail h.new.pace }
{
    h.stands();
    let own = detail_at(h, map, k);
    match wanted {
        Wanted::With(detail) => { if k == first { own.join(detail) } else { own } }
        Wanted::Joined(end, count) => {
            if k < count {
                detail_at(h, end, k).join(own)
            } else {
                own
            }
        }
    }
}

// Makes the child of a map for another map's k-th key, with a field of a detail.
fn step<P: Pace>(h: &mut Heap<P>, at: u32, map: u32, k: u32, n: u32, detail: Detail) -> u32
    requires tree { IsTree h.old.view.trail }
    requires live { (bits_in h.old.view.trail at).deprecated ≡ false }
    requires open { gate_in h.old.view.trail at ≡ Some (gate_with k false) }
    requires keys { (j : ℕ) → j < k → key_at h.old.view.trail at j ≡ key_at h.old.view.trail map j }
    requires map { gate_in h.old.view.trail map ≡ Some (gate_with n false) }
    requires entry { k < n }
    requires ends { (key : Key) → k < n → key_at h.old.view.trail map k ≡ Some key → live_child h.old.view.trail at key ≡ None }
    requires admits { MayAdmit h.old.view.shape h.old.view.trail map k detail }
    requires space { HasSpace h.old.view (child_need None k) }
    ensures built { IsBuilt (λ j. Some detail) h.old.view h.new.view at map result k n (k + 1) }
    ensures goes { Goes h.old.desk h.new.desk }
    ensures went { P.went h.old.pace h.old.desk.trail h.new.desk.trail h.new.pace }
{
    maps_are_kept();
    gates_are_open();
    forms_are_kept();
    same_keys_are_equal();
    unused_says_nothing();
    h.stands();
    let key = key_at(h, map, k);
    make_child(h, at, key, detail, k)
}

/// Makes children, one under the other, for the keys of a map from the count-th on, with new fields of the details that are
/// wanted.
pub fn build<P: Pace>(
    h: &mut Heap<P>,
    base: u32,
    map: u32,
    count: u32,
    n: u32,
    wanted: Wanted,
) -> u32
    requires tree { IsTree h.old.view.trail }
    requires live { (bits_in h.old.view.trail base).deprecated ≡ false }
    requires open { gate_in h.old.view.trail base ≡ Some (gate_with count false) }
    requires keys { (j : ℕ) → j < count → key_at h.old.view.trail base j ≡ key_at h.old.view.trail map j }
    requires map { gate_in h.old.view.trail map ≡ Some (gate_with n false) }
    requires within { count ≤ n }
    requires ends { (key : Key) → count < n → key_at h.old.view.trail map count ≡ Some key → live_child h.old.view.trail base key ≡ None }
    requires wanted { MayBeWanted h.old.view.shape h.old.view.trail map count wanted }
    requires space { HasSpace h.old.view (build_need count n) }
    ensures built { IsBuilt (wanted_at h.old.view.trail map count wanted) h.old.view h.new.view base map result count n n }
    ensures goes { Goes h.old.desk h.new.desk }
    ensures went { P.went h.old.pace h.old.desk.trail h.new.desk.trail h.new.pace }
{
    maps_are_kept();
    gates_are_open();
    links_are_kept();
    unused_says_nothing();
    h.stands();
    let mut at = base;
    for k in count..n {
        let detail = wanted_detail(h, map, count, wanted, k, n);
        at = step(h, at, map, k, n, detail);
    }
    at
}
