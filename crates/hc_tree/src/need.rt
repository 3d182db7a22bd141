//! How many new items calls need, and whether there is room for them.
ghost use Rattle.std.specs.Prelude.{◌≡◌, ◌+◌, ◌*◌, ◌<◌, ◌≤◌, ◌^◌, IsTrue, ◌↔◌, false, None, Some};
ghost use Rattle.hc_layout.specs.declared.capacity.TheConstants.{MAX_FAST};
ghost use Rattle.hc_tree.specs.Copying.{Extra, copy_need};
ghost use Rattle.hc_tree.specs.Growth.{child_need, root_need};
ghost use Rattle.hc_tree.specs.Needs.{HasSpace, IsFew, array_of, arrays_upto, both, build_need, no_need, own_need, slots_alone, walk_need};

use hc_heap::{Heap, Pace};
use hc_layout::{MAX_FAST, Region, cap};

/// How many new items of each region an operation needs.
#[derive(Clone, Copy)]
pub struct Need {
    pub maps: u32,
    pub entries: u32,
    pub fields: u32,
    pub links: u32,
    pub slots: u32,
}

/// Nothing.
pub const NONE: Need = Need {
    maps: 0,
    entries: 0,
    fields: 0,
    links: 0,
    slots: 0,
};

/// Whether each region has room for what is needed.
pub fn has_space<P: Pace>(h: &Heap<P>, need: Need) -> bool
    ensures { IsTrue result ↔ HasSpace h.now.view need }
{
    h.room(Region::Maps, need.maps)
        && h.room(Region::Entries, need.entries)
        && h.room(Region::Fields, need.fields)
        && h.room(Region::Links, need.links)
        && h.room(Region::Slots, need.slots)
}

/// What two operations need, one after the other.
pub fn plus(a: Need, b: Need) -> Need
    requires few { IsFew a }
    requires few_too { IsFew b }
    ensures { result ≡ both a b }
{
    Need {
        maps: a.maps + b.maps,
        entries: a.entries + b.entries,
        fields: a.fields + b.fields,
        links: a.links + b.links,
        slots: a.slots + b.slots,
    }
}

/// Slots beside a need.
pub fn with_slots(need: Need, slots: u32) -> Need
    requires few { IsFew need }
    requires few_slots { slots ≤ 2 ^ 16 }
    ensures { result ≡ both need (slots_alone slots) }
{
    Need {
        slots: need.slots + slots,
        ..need
    }
}

/// How many entries an array for n entries has; none for none.
pub fn array_size(n: u32) -> u32
    requires most { n ≤ MAX_FAST }
    ensures value { result ≡ array_of n }
    ensures within { result ≤ MAX_FAST }
{
    if n == 0 {
        return 0;
    }
    cap(n)
}

/// What the root of a prototype needs, which may be there.
pub fn of_root(root: Option<u32>) -> Need
    ensures need { result ≡ root_need root }
    ensures few { IsFew result }
{
    match root {
        Some(_) => NONE,
        None => Need { maps: 1, ..NONE },
    }
}

/// What a new child of a map with n entries needs.
pub fn of_child(n: u32) -> Need
    requires few { n < MAX_FAST }
    ensures need { result ≡ child_need None n }
    ensures few { IsFew result }
{
    Need {
        maps: 1,
        entries: cap(n + 1),
        fields: 1,
        links: 1,
        slots: 0,
    }
}

/// What a private copy of a map with n entries needs, with new fields where `fresh` is true.
pub fn of_copy(fresh: bool, n: u32) -> Need
    requires few { n ≤ MAX_FAST }
    ensures need { result ≡ copy_need fresh None n }
    ensures few { IsFew result }
{
    Need {
        maps: 1,
        entries: array_size(n),
        fields: if fresh { n } else { 0 },
        links: 0,
        slots: 0,
    }
}

/// What a private copy of a map with n entries needs that has one entry more.
pub fn of_longer_copy(n: u32) -> Need
    requires few { n < MAX_FAST }
    ensures need { (last : Extra) → result ≡ copy_need false (Some last) n }
    ensures few { IsFew result }
{
    Need {
        maps: 1,
        entries: cap(n + 1),
        fields: 1,
        links: 0,
        slots: 0,
    }
}

/// What a private map with n entries needs to be made again with another field at one place.
pub fn of_own(n: u32) -> Need
    requires some { 0 < n }
    requires few { n ≤ MAX_FAST }
    ensures need { result ≡ own_need n }
    ensures few { IsFew result }
{
    Need {
        maps: 1,
        entries: cap(n),
        fields: 1,
        links: 0,
        slots: 0,
    }
}

// How many entries the maps have that a walk makes for n properties.
fn entries_of_walk(n: u32) -> u32
    requires few { n ≤ MAX_FAST }
    ensures value { result ≡ arrays_upto n }
    ensures most { result ≤ n * MAX_FAST }
{
    let mut entries = 0;
    for k in 0..n {
        entries += cap(k + 1);
    }
    entries
}

/// What a walk for n properties needs.
pub fn of_walk(n: u32) -> Need
    requires few { n ≤ MAX_FAST }
    ensures need { result ≡ walk_need n }
    ensures few { IsFew result }
{
    Need {
        maps: n,
        entries: entries_of_walk(n),
        fields: n,
        links: n,
        slots: 0,
    }
}

/// What new maps need for the properties of a map with n entries, from the i-th on.
pub fn of_build(i: u32, n: u32) -> Need
    requires few { n ≤ MAX_FAST }
    requires within { i ≤ n }
    ensures need { result ≡ build_need i n }
    ensures few { IsFew result }
{
    Need {
        maps: n - i,
        entries: entries_of_walk(n) - entries_of_walk(i),
        fields: n - i,
        links: n - i,
        slots: 0,
    }
}

/// What the shared map with the keys of a map with n entries needs, and another prototype, whose root may be there.
pub fn of_retarget(n: u32, root: Option<u32>) -> Need
    requires few { n ≤ MAX_FAST }
    ensures need { result ≡ both (walk_need n) (root_need root) }
    ensures few { IsFew result }
{
    let roots = match root {
        Some(_) => 0,
        None => 1,
    };
    Need {
        maps: n + roots,
        entries: entries_of_walk(n),
        fields: n,
        links: n,
        slots: 0,
    }
}
