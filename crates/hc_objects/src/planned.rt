//! Stores by a plan, which knows what there is to be done. They take no memory.
ghost use Rattle.std.specs.Prelude.{◌≡◌, ◌<◌, length};
ghost use Rattle.hc_modes.specs.Admitting.{added};
ghost use Rattle.hc_modes.specs.Filling.{free_slots};
ghost use Rattle.hc_objects.specs.Came.{Came, world_of};
ghost use Rattle.hc_objects.specs.Planned.{MayCome, MayStore};
ghost use Rattle.hc_table.specs.Changes.{Added, Wrote};
ghost use Rattle.hc_table.specs.Numbers.{IsNameNumber};
ghost use Rattle.hc_value.specs.Word.{IsInRange};
ghost use Rattle.hc_value.specs.declared.prop.Held.TheVariants.{Datum};

use crate::change::Change;
use crate::objects::Objects;
use hc_heap::{Pace, gates_are_open};
use hc_layout::{Region, Shape};
use hc_modes::comers_may_get;
use hc_value::{Held, Value};

impl<P: Pace> Objects<P> {
    /// Has the property at a place hold another value, where its field admits that as it is, and isn't constant.
    pub fn store_at(&mut self, o: u32, i: u32, value: Value)
        requires object { o < length (world_of self.old) }
        requires range { IsInRange value }
        requires may { MayStore self.old.heap.view.trail o i value }
        ensures did { Came P.went self.old (Wrote o i (Datum value)) self.new }
    {
        gates_are_open();
        self.stands();
        let held = Held::Datum(value);
        let Ok(()) = self.change(o, Change::Write(i, held)) else {
            unreachable!()
        };
    }

    /// Gives an object a new last property of a value, by the child of its map, whose last field admits the value as it is.
    pub fn add_by(&mut self, o: u32, child: u32, name: u32, value: Value)
        requires object { o < length (world_of self.old) }
        requires name { IsNameNumber name }
        requires range { IsInRange value }
        requires may { MayCome self.old.heap.view o child name value }
        ensures did { Came P.went self.old (Added o (added name value)) self.new }
    {
        comers_may_get();
        self.stands();
        let Ok(()) = self.change(o, Change::AddBy(child, name, value)) else {
            unreachable!()
        };
    }

    /// How many slots of a board of this shape weren't handed out.
    pub fn slot_room(&self, shape: Shape) -> u32
        requires shape { shape ≡ self.now.heap.view.shape }
        ensures { result ≡ free_slots self.now.heap.view }
    {
        self.stands();
        shape.slots - self.used(Region::Slots)
    }
}
