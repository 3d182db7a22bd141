//! Objects are made, and cells follow.
ghost use Rattle.std.specs.Prelude.{◌≡◌, ◌≢◌, ◌↔◌, IsTrue, false, length, IfOk, IsErrOf, OnOk, OnErr};
ghost use Rattle.hc_table.specs.Changes.{Created, IsThere};
ghost use Rattle.hc_objects.specs.Came.{Came, Followed, IsStill, Moves, MovesOnce, world_of};

use crate::following::follow;
use crate::objects::Objects;
use crate::performing::{named_map, named_moved};
use hc_cells::{chains_stay, marks_stay, ways_stay};
use hc_facts::constants_stay_on;
use hc_heap::{Pace, unused_says_nothing};
use hc_modes::{
    chains_are_told, fields_stay_honest, operations_leave_cells, operations_spend_little,
    prototypes_stay_calm,
};
use hc_table::TableFault;
use hc_value::Memory;

// Whether there are so many objects in all.
fn are_all(count: u32, objects: &[Option<u32>]) -> bool
    ensures { IsTrue result ↔ (count ≡ length objects.now) }
{
    count as usize == objects.len()
}

impl<P: Pace> Objects<P> {
    // Whether there are as many objects as there may be.
    fn is_full(&self) -> bool
        ensures full { IsTrue result ↔ (length (world_of self.now) ≡ self.now.heap.view.shape.objects) }
    {
        are_all(self.inside.count(), &self.protos)
    }

    // Makes an object without properties where there is room for one. Its prototype becomes one.
    fn make_one(&mut self, proto: Option<u32>) -> Result<u32, Memory>
        requires there { IsThere (world_of self.old) proto }
        requires room { length (world_of self.old) ≢ self.old.heap.view.shape.objects }
        ensures number { IfOk result (λ o. o ≡ length (world_of self.old)) }
        ensures did { OnOk result (Followed P.went self.old (Created proto) self.new) }
        ensures still { OnErr result (IsStill self.old self.new) }
    {
        chains_are_told::<P>();
        operations_leave_cells::<P>();
        operations_spend_little::<P>();
        fields_stay_honest::<P>();
        prototypes_stay_calm::<P>();
        constants_stay_on();
        unused_says_nothing();
        chains_stay();
        ways_stay();
        marks_stay();
        self.inside.stands();
        let map = named_map(&mut self.inside, proto);
        let made = self.inside.create(proto);
        self.inside.stands();
        let Ok(o) = made else {
            return Err(Memory);
        };
        let there = named_moved(&mut self.inside, proto, map);
        self.inside.stands();
        follow(
            &mut self.inside,
            &mut self.protos,
            &mut self.watched,
            o,
            proto,
            None,
            there,
        );
        Ok(o)
    }

    /// Makes an object without properties, whose prototype becomes one. The prototype is migrated before, where it is deprecated, but
    /// not where there is no room for an object.
    pub(crate) fn make(&mut self, proto: Option<u32>) -> Result<u32, TableFault>
        requires { IsThere (world_of self.old) proto }
        ensures number { IfOk result (λ o. o ≡ length (world_of self.old)) }
        ensures did { OnOk result (Came P.went self.old (Created proto) self.new) }
        ensures full { IsErrOf result TableFault.Full ↔ (length (world_of self.old) ≡ self.old.heap.view.shape.objects) }
        ensures still { IsErrOf result TableFault.Full → IsStill self.old self.new }
        ensures moved { IsErrOf result TableFault.Memory → Moves P.went self.old self.new }
    {
        if self.is_full() {
            return Err(TableFault::Full);
        }
        let Ok(()) = self.migrate_named(proto) else {
            return Err(TableFault::Memory);
        };
        let Ok(o) = self.make_one(proto) else {
            return Err(TableFault::Memory);
        };
        Ok(o)
    }
}
