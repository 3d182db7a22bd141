//! Whether a change leaves an object another prototype or other properties.
ghost use Rattle.std.specs.Prelude.{◌≡◌, ◌≢◌, ◌↔◌, ◌<◌, false, IsTrue, length, map};
ghost use Rattle.hc_table.specs.Attributes.{restricted};
ghost use Rattle.hc_table.specs.World.{props_at};
ghost use Rattle.hc_objects.specs.Came.{IsStill, world_of};
ghost use Rattle.hc_objects.specs.Changes.{Alters, MayChange};

use crate::change::Change;
use hc_heap::Pace;
use hc_modes::Objects as Inside;
use hc_table::restrict;
use hc_value::{Held, Prop};

// Whether a property is as it is of an object that is sealed, or frozen.
fn is_restricted(p: Prop, frozen: bool) -> bool
    ensures { IsTrue result ↔ (restricted frozen p ≡ p) }
{
    restrict(p, frozen) == p
}

// Whether a property holds so much.
fn holds(p: Prop, held: Held) -> bool
    ensures { IsTrue result ↔ (p.held ≡ held) }
{
    p.held == held
}

// Whether two properties are one.
fn is_same(a: Prop, b: Prop) -> bool
    ensures { IsTrue result ↔ (a ≡ b) }
{
    a == b
}

// Whether some property of an object is other when the object is sealed, or frozen.
fn restricts<P: Pace>(inside: &mut Inside<P>, o: u32, frozen: bool) -> bool
    requires object { o < length (world_of inside.old) }
    ensures other { IsTrue result → map (restricted frozen) (props_at (world_of inside.old) o) ≢ props_at (world_of inside.old) o }
    ensures same { result ≡ false → map (restricted frozen) (props_at (world_of inside.old) o) ≡ props_at (world_of inside.old) o }
    ensures still { IsStill inside.old inside.new }
{
    for i in 0..inside.len(o) {
        let p = inside.prop_at(o, i);
        if !is_restricted(p, frozen) {
            return true;
        }
    }
    false
}

// Whether a change leaves an object another prototype or other properties.
pub(crate) fn alters<P: Pace>(inside: &mut Inside<P>, o: u32, change: &Change) -> bool
    requires object { o < length (world_of inside.old) }
    requires may { MayChange (world_of inside.old) o change.now }
    ensures alters { Alters (world_of inside.old) o change.now result }
    ensures still { IsStill inside.old inside.new }
{
    match change {
        Change::Add(_) => true,
        Change::AddBy(..) => true,
        Change::Write(i, held) => !holds(inside.prop_at(o, *i), *held),
        Change::Put(i, p) => !is_same(inside.prop_at(o, *i), *p),
        Change::Remove(_) => true,
        Change::Link(proto) => inside.proto(o) != *proto,
        Change::Lock => false,
        Change::Restrict(frozen) => restricts(inside, o, *frozen),
    }
}
