//! What a lawful trail keeps for good. The functions do nothing: each has a law as its contract, for a proof that calls it.
ghost use Rattle.hc_heap.specs.Kept.{LawfulAtEach, PositionsGoOn, PositionsAreStores, WrittenIsKept, SetIsKept, DeprecatedAreUnstable, EntriesAreKept, DetailsRise, StableIsKept, StoresGrow, GatesAreOpen, FormsAreKept, StoresAreWrites, WordsSay, UnusedSaysNothing, WritesAreWithin};

use hc_layout::{places_are_found, places_lie};

pub fn lawful_at_each()
    ensures law { LawfulAtEach }
{}

pub fn positions_go_on()
    ensures law { PositionsGoOn }
{}

pub fn positions_are_stores()
    ensures law { PositionsAreStores }
{}

pub fn written_is_kept()
    ensures law { WrittenIsKept }
{}

pub fn set_is_kept()
    ensures law { SetIsKept }
{}

pub fn deprecated_are_unstable()
    ensures law { DeprecatedAreUnstable }
{}

pub fn entries_are_kept()
    ensures law { EntriesAreKept }
{}

pub fn details_rise()
    ensures law { DetailsRise }
{}

pub fn stable_is_kept()
    ensures law { StableIsKept }
{}

pub fn stores_grow()
    ensures law { StoresGrow }
{}

pub fn gates_are_open()
    ensures law { GatesAreOpen }
{}

pub fn forms_are_kept()
    ensures law { FormsAreKept }
{}

pub fn stores_are_writes()
    ensures law { StoresAreWrites }
{}

pub fn words_say()
    ensures law { WordsSay }
{
    places_lie();
    places_are_found();
}

pub fn unused_says_nothing()
    ensures law { UnusedSaysNothing }
{}

pub fn writes_are_within()
    ensures law { WritesAreWithin }
{}
