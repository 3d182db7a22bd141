//! A change of one object, and whether anything changed there that cells rest on.
ghost use Rattle.std.specs.Prelude.{◌≡◌, ◌≢◌, ◌⊎◌, ℕ, ◌<◌, IsTrue, true, false, None, Some, IfSome, IsOk, OnOk, OnErr, is_none, length};
ghost use Rattle.hc_heap.specs.Readings.{map_in};
ghost use Rattle.hc_modes.specs.Admitting.{IsHonest};
ghost use Rattle.hc_modes.specs.Came.{Came, Moves};
ghost use Rattle.hc_modes.specs.Validity.{StaysPut};
ghost use Rattle.hc_table.specs.Changes.{IsThere};
ghost use Rattle.hc_objects.specs.Came.{IsStill, world_of};
ghost use Rattle.hc_objects.specs.Changes.{AltersSlow, IsReadyFor, IsSure, MayChange, did_of};

use crate::altering::alters;
use crate::change::Change;
use hc_heap::{Pace, gates_are_open, written_is_kept};
use hc_modes::{Objects as Inside, chains_are_told, fields_stay_honest};
use hc_value::Memory;

/// What came of a change, and the object where anything changed that cells rest on.
#[derive(Drop)]
pub(crate) struct Outcome {
    pub(crate) done: Result<(), Memory>,
    pub(crate) moved: Option<u32>,
}

// Changes an object.
fn perform<P: Pace>(inside: &mut Inside<P>, o: u32, change: Change) -> Result<(), Memory>
    requires object { o < length (world_of inside.old) }
    requires may { MayChange (world_of inside.old) o change }
    requires ready { IsReadyFor (world_of inside.old) inside.old.heap.view o change }
    requires honest { IsHonest inside.old.heap.view.trail }
    ensures did { OnOk result (Came P.went inside.old (did_of o change) inside.new) }
    ensures moved { OnErr result (Moves P.went inside.old inside.new) }
    ensures sure { IsSure change → IsOk result }
    ensures maps { OnErr result ((q : ℕ) → q ≢ o → map_in inside.new.heap.view.trail q ≡ map_in inside.old.heap.view.trail q) }
{
    match change {
        Change::Add(p) => inside.add_property(o, p),
        Change::AddBy(child, name, value) => {
            inside.add_by(o, child, name, value);
            Ok(())
        }
        Change::Write(i, held) => {
            inside.write_property(o, i, held);
            Ok(())
        }
        Change::Put(i, p) => inside.reconfigure(o, i, p),
        Change::Remove(i) => inside.remove(o, i),
        Change::Link(proto) => inside.set_prototype(o, proto),
        Change::Lock => inside.lock(o),
        Change::Restrict(frozen) => inside.restrict(o, frozen),
    }
}

// Whether a change leaves an object another prototype or other properties that has no map.
fn alters_slow<P: Pace>(
    inside: &mut Inside<P>,
    o: u32,
    before: Option<u32>,
    change: &Change,
) -> bool
    requires object { o < length (world_of inside.old) }
    requires may { MayChange (world_of inside.old) o change.now }
    ensures alters { AltersSlow (world_of inside.old) o (is_none before) change.now result }
    ensures still { IsStill inside.old inside.new }
{
    let None = before else {
        return false;
    };
    alters(inside, o, change)
}

// Whether a change was made that leaves an object other.
fn is_altered(altered: bool, done: &Result<(), Memory>) -> bool
    ensures done { OnOk done.now (result ≡ altered) }
    ensures want { OnErr done.now (result ≡ false) }
{
    match done {
        Ok(()) => altered,
        Err(_) => false,
    }
}

/// The object, where it has another map now, or a change left it other.
pub(crate) fn if_changed(
    o: u32,
    before: Option<u32>,
    now: Option<u32>,
    altered: bool,
) -> Option<u32>
    ensures changed { IfSome result (λ q. (q ≡ o) × ((now ≢ before) ⊎ (altered ≡ true))) }
    ensures map { result ≡ None → now ≡ before }
    ensures same { result ≡ None → altered ≡ false }
{
    if altered {
        return Some(o);
    }
    if now == before {
        return None;
    }
    Some(o)
}

/// Changes an object. Where it isn't marked, nothing is told of it, and nothing more is loaded than the change loads.
pub(crate) fn change_object<P: Pace>(
    inside: &mut Inside<P>,
    o: u32,
    marked: bool,
    change: Change,
) -> Outcome
    requires object { o < length (world_of inside.old) }
    requires may { MayChange (world_of inside.old) o change }
    requires ready { IsReadyFor (world_of inside.old) inside.old.heap.view o change }
    requires honest { IsHonest inside.old.heap.view.trail }
    ensures did { OnOk result.done (Came P.went inside.old (did_of o change) inside.new) }
    ensures want { OnErr result.done (Moves P.went inside.old inside.new) }
    ensures sure { IsSure change → IsOk result.done }
    ensures maps { OnErr result.done ((q : ℕ) → q ≢ o → map_in inside.new.heap.view.trail q ≡ map_in inside.old.heap.view.trail q) }
    ensures moved { IfSome result.moved (λ q. (q ≡ o) × (StaysPut inside.old inside.new o → ⊥)) }
    ensures kept { marked ≡ true → result.moved ≡ None → StaysPut inside.old inside.new o }
{
    if !marked {
        let done = perform(inside, o, change);
        return Outcome { done, moved: None };
    }
    chains_are_told::<P>();
    fields_stay_honest::<P>();
    written_is_kept();
    gates_are_open();
    inside.stands();
    let before = inside.map_of(o);
    let altered = alters_slow(inside, o, before, &change);
    let done = perform(inside, o, change);
    inside.stands();
    let now = inside.map_of(o);
    let moved = if_changed(o, before, now, is_altered(altered, &done));
    Outcome { done, moved }
}

/// The map of the object that is named, where one is named that has a map.
pub(crate) fn named_map<P: Pace>(inside: &mut Inside<P>, named: Option<u32>) -> Option<u32>
    requires there { IsThere (world_of inside.old) named }
    ensures map { IfSome named (λ p. result ≡ map_in inside.old.heap.view.trail p) }
    ensures still { IsStill inside.old inside.new }
{
    match named {
        Some(p) => inside.map_of(p),
        None => None,
    }
}

/// The object that is named, where it has another map now, or has one or none now.
pub(crate) fn named_moved<P: Pace>(
    inside: &mut Inside<P>,
    named: Option<u32>,
    before: Option<u32>,
) -> Option<u32>
    requires there { IsThere (world_of inside.old) named }
    ensures moved { IfSome result (λ p. (named ≡ Some p) × (map_in inside.old.heap.view.trail p ≢ before)) }
    ensures kept { result ≡ None → IfSome named (λ p. map_in inside.old.heap.view.trail p ≡ before) }
    ensures still { IsStill inside.old inside.new }
{
    let p = named?;
    if inside.map_of(p) == before {
        return None;
    }
    Some(p)
}
