//! What a lawful trail keeps of maps. The functions do nothing: each has a law as its contract, for a proof that calls it.
ghost use Rattle.hc_tree.specs.Dying.{LiveIsChild, LiveStandHigh, OneIsLive, OwnerIsFreed, OwnersStand, ParentIsSpared};
ghost use Rattle.hc_tree.specs.Kept.{MapsAreKept, TreesStay};
ghost use Rattle.hc_tree.specs.Walking.{RootsStand};

use hc_heap::{details_rise, entries_are_kept, gates_are_open, written_is_kept};
use hc_links::same_keys_are_equal;

pub fn maps_are_kept()
    ensures law { MapsAreKept }
{
    written_is_kept();
    entries_are_kept();
    details_rise();
    gates_are_open();
}

pub fn trees_stay()
    ensures law { TreesStay }
{
    maps_are_kept();
}

pub fn owners_stand()
    ensures law { OwnersStand }
{
    maps_are_kept();
}

pub fn roots_stand()
    ensures law { RootsStand }
{
    maps_are_kept();
}

pub fn one_is_live()
    ensures law { OneIsLive }
{
    same_keys_are_equal();
}

pub fn live_is_child()
    ensures law { LiveIsChild }
{
    same_keys_are_equal();
}

pub fn owner_is_freed()
    ensures law { OwnerIsFreed }
{
    same_keys_are_equal();
}

pub fn live_stand_high()
    ensures law { LiveStandHigh }
{}

pub fn parent_is_spared()
    ensures law { ParentIsSpared }
{}
