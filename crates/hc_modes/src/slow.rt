//! Changes of one object that is slow. The words stay.
ghost use Rattle.std.specs.Prelude.{◌≡◌, ◌<◌, None, Some, IsSome, OnOk, OnErr, length};
ghost use Rattle.hc_table.specs.Attributes.{IsProper};
ghost use Rattle.hc_table.specs.Changes.{Added};
ghost use Rattle.hc_table.specs.World.{props_at, place_of};
ghost use Rattle.hc_modes.specs.Changes.{KeptBut};
ghost use Rattle.hc_modes.specs.Meaning.{kept_of, cause_in};
ghost use Rattle.hc_modes.specs.Came.{Steps, world_of};
ghost use Rattle.hc_modes.specs.Slow.{MayBeSlow, did_of};

use crate::objects::Objects;
use hc_dict::Change;
use hc_heap::{Pace, details_rise};
use hc_table::changes_keep;
use hc_tree::maps_are_kept;
use hc_value::{Memory, Prop};

impl<P: Pace> Objects<P> {
    // Changes a slow object. It takes no memory.
    pub(crate) fn change_slow(&mut self, o: u32, change: Change)
        requires object { o < length (world_of self.old) }
        requires slow { IsSome (kept_of self.old.kept o) }
        requires may { MayBeSlow (world_of self.old) o change }
        ensures steps { Steps P.went self.old (did_of o change) self.new }
        ensures heap { self.new.heap ≡ self.old.heap }
        ensures null { self.new.of_null ≡ self.old.of_null }
        ensures others { KeptBut o self.old.kept self.new.kept }
        ensures cause { cause_in self.new.kept o ≡ cause_in self.old.kept o }
    {
        maps_are_kept();
        details_rise();
        changes_keep();
        let slow = self.kept[o as usize].as_mut().unwrap();
        slow.change(change);
    }

    // Gives a slow object a new last property. For want of memory alone nothing is done.
    pub(crate) fn add_slow(&mut self, o: u32, p: Prop) -> Result<(), Memory>
        requires object { o < length (world_of self.old) }
        requires slow { IsSome (kept_of self.old.kept o) }
        requires absent { place_of (props_at (world_of self.old) o) p.name ≡ None }
        requires proper { IsProper p }
        ensures steps { OnOk result (Steps P.went self.old (Added o p) self.new) }
        ensures err { OnErr result (self.new ≡ self.old) }
        ensures heap { self.new.heap ≡ self.old.heap }
        ensures null { self.new.of_null ≡ self.old.of_null }
        ensures others { KeptBut o self.old.kept self.new.kept }
        ensures cause { cause_in self.new.kept o ≡ cause_in self.old.kept o }
    {
        maps_are_kept();
        details_rise();
        changes_keep();
        let slow = self.kept[o as usize].as_mut().unwrap();
        slow.add(p)
    }

    // Closes the gaps of a slow object. It takes no memory.
    pub(crate) fn close_slow(&mut self, o: u32)
        requires object { o < length (world_of self.old) }
        requires slow { IsSome (kept_of self.old.kept o) }
        ensures { self.new ≡ self.old }
    {
        let slow = self.kept[o as usize].as_mut().unwrap();
        slow.props.close();
    }
}
