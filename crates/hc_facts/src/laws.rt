//! What keeps it true that fields are honest and constants stay. The functions do nothing: each has a law as its contract, for a
//! proof that calls it.
ghost use Rattle.hc_facts.specs.Laws.{ConstantsAfter, ConstantsStayOn, HonestAfter, KeptIsCarried, LeavingKeepsConstants, MovedIsCarried, StoredIsGiven, StoringKeepsConstants};

use hc_heap::{
    details_rise, entries_are_kept, forms_are_kept, gates_are_open, set_is_kept, stable_is_kept,
    written_is_kept,
};

/// Fields are honest after a step of which each value was there before, or was given within what its field admits.
pub fn honest_after()
    ensures law { HonestAfter }
{
    set_is_kept();
    stable_is_kept();
}

/// A value of an object that keeps its map and the word was there before, also where the field's detail rose.
pub fn kept_is_carried()
    ensures law { KeptIsCarried }
{
    details_rise();
    entries_are_kept();
    forms_are_kept();
    written_is_kept();
    gates_are_open();
}

/// Constants stay where they do for the one object that changed.
pub fn constants_after()
    ensures law { ConstantsAfter }
{}

/// An object whose map is unstable has no constant to keep.
pub fn leaving_keeps_constants()
    ensures law { LeavingKeepsConstants }
{}

/// A value of an object that came to another map with the word that it had was there before.
pub fn moved_is_carried()
    ensures law { MovedIsCarried }
{}

/// A value that was stored was given, where the field admits what it asks.
pub fn stored_is_given()
    ensures law { StoredIsGiven }
{}

/// A store to one slot keeps the constants, where that slot's field is constant only if its word stays.
pub fn storing_keeps_constants()
    ensures law { StoringKeepsConstants }
{}

/// Constants stay over one step and a further one.
pub fn constants_stay_on()
    ensures law { ConstantsStayOn }
{
    written_is_kept();
    entries_are_kept();
    set_is_kept();
    stable_is_kept();
    details_rise();
    gates_are_open();
}
