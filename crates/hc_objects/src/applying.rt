//! Changes of one object, which is made ready before, and the cells that follow.
ghost use Rattle.std.specs.Prelude.{◌≡◌, ◌<◌, length, IsOk, OnOk, OnErr};
ghost use Rattle.hc_objects.specs.Came.{Came, Followed, Moves, MovesOnce, world_of};
ghost use Rattle.hc_objects.specs.Changes.{IsPlain, IsReadyFor, IsSure, MayChange, did_of};

use crate::change::Change;
use crate::following::follow;
use crate::objects::Objects;
use crate::performing::{change_object, named_map, named_moved};
use hc_cells::{chains_stay, marks_stay, ways_stay};
use hc_facts::constants_stay_on;
use hc_heap::Pace;
use hc_modes::{
    chains_are_told, fields_stay_honest, operations_leave_cells, operations_spend_little,
    prototypes_stay_calm,
};
use hc_value::Memory;

impl<P: Pace> Objects<P> {
    // Changes an object that is ready for it, and what its cells say with it.
    pub(crate) fn change(&mut self, o: u32, change: Change) -> Result<(), Memory>
        requires object { o < length (world_of self.old) }
        requires may { MayChange (world_of self.old) o change }
        requires ready { IsReadyFor (world_of self.old) self.old.heap.view o change }
        ensures did { OnOk result (Followed P.went self.old (did_of o change) self.new) }
        ensures moved { OnErr result (MovesOnce P.went self.old self.new) }
        ensures sure { IsSure change → IsOk result }
    {
        chains_are_told::<P>();
        operations_leave_cells::<P>();
        operations_spend_little::<P>();
        fields_stay_honest::<P>();
        prototypes_stay_calm::<P>();
        constants_stay_on();
        chains_stay();
        ways_stay();
        marks_stay();
        self.inside.stands();
        let named = change.named();
        let map = named_map(&mut self.inside, named);
        let marked = self.watched.may_concern(o);
        let outcome = change_object(&mut self.inside, o, marked, change);
        let there = named_moved(&mut self.inside, named, map);
        self.inside.stands();
        follow(
            &mut self.inside,
            &mut self.protos,
            &mut self.watched,
            o,
            named,
            outcome.moved,
            there,
        );
        outcome.done
    }

    /// Changes an object, and what its cells say with it. The objects that it uses are made ready before.
    pub(crate) fn apply(&mut self, o: u32, change: Change) -> Result<(), Memory>
        requires object { o < length (world_of self.old) }
        requires may { MayChange (world_of self.old) o change }
        requires plain { IsPlain change }
        ensures did { OnOk result (Came P.went self.old (did_of o change) self.new) }
        ensures moved { OnErr result (Moves P.went self.old self.new) }
    {
        self.migrate(o)?;
        self.ready_for(o, &change)?;
        self.change(o, change)
    }
}
