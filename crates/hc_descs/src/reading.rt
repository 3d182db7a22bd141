//! The entries of an open map, read one at a time.
ghost use Rattle.std.specs.Prelude.{◌≡◌, ◌<◌, Some, IsSomeAnd};
ghost use Rattle.hc_heap.specs.Lawful.{IsField, IsKey};
ghost use Rattle.hc_heap.specs.Readings.{gate_in};
ghost use Rattle.hc_heap.specs.States.{Goes, OnlyLoads, one_load};
ghost use Rattle.hc_descs.specs.Entries.{IsEntryAt, key_at, field_at};

use crate::entry::{field_of, key_of};
use hc_heap::{Heap, Pace, gates_are_open, unused_says_nothing};
use hc_value::Key;

// Where the k-th entry of an open map stands.
fn entry_at<P: Pace>(h: &mut Heap<P>, map: u32, k: u32) -> u32
    requires entry { IsSomeAnd (gate_in h.old.view.trail map) (λ g. k < g.entries) }
    ensures entry { IsEntryAt h.old.view.trail map k result }
    ensures new { h.new ≡ record h.old { desk = one_load h.old.desk } }
    ensures goes { Goes h.old.desk h.new.desk }
    ensures went { P.went h.old.pace h.old.desk.trail h.new.desk.trail h.new.pace }
{
    gates_are_open();
    unused_says_nothing();
    h.stands();
    let base = h.base(map).unwrap();
    base + k
}

/// The key of an open map's k-th entry.
pub fn key_at<P: Pace>(h: &mut Heap<P>, map: u32, k: u32) -> Key
    requires entry { IsSomeAnd (gate_in h.old.view.trail map) (λ g. k < g.entries) }
    ensures key { key_at h.old.view.trail map k ≡ Some result }
    ensures form { IsKey result }
    ensures same { h.new ≡ record h.old { desk = h.new.desk } }
    ensures loads { OnlyLoads 2 h.old.desk h.new.desk }
    ensures goes { Goes h.old.desk h.new.desk }
    ensures went { P.went h.old.pace h.old.desk.trail h.new.desk.trail h.new.pace }
{
    let entry = entry_at(h, map, k);
    key_of(h, entry)
}

/// The field of an open map's k-th entry. It is made.
pub fn field_at<P: Pace>(h: &mut Heap<P>, map: u32, k: u32) -> u32
    requires entry { IsSomeAnd (gate_in h.old.view.trail map) (λ g. k < g.entries) }
    ensures field { field_at h.old.view.trail map k ≡ Some result }
    ensures made { IsField h.old.view.trail result }
    ensures same { h.new ≡ record h.old { desk = h.new.desk } }
    ensures loads { OnlyLoads 2 h.old.desk h.new.desk }
    ensures goes { Goes h.old.desk h.new.desk }
    ensures went { P.went h.old.pace h.old.desk.trail h.new.desk.trail h.new.pace }
{
    let entry = entry_at(h, map, k);
    field_of(h, entry)
}
