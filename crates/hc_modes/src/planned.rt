//! A property that a plan adds, which knows the child to which the object comes.
ghost use Rattle.std.specs.Prelude.{◌≡◌, ◌<◌, length};
ghost use Rattle.hc_table.specs.Changes.{Added};
ghost use Rattle.hc_table.specs.Numbers.{IsNameNumber};
ghost use Rattle.hc_value.specs.Word.{IsInRange};
ghost use Rattle.hc_modes.specs.Admitting.{added};
ghost use Rattle.hc_modes.specs.Came.{Made, world_of};
ghost use Rattle.hc_modes.specs.Planned.{MayCome};

use crate::objects::Objects;
use bitflags::Flags;
use hc_heap::{Pace, gates_are_open};
use hc_tree::live_is_child;
use hc_value::{Attrs, Held, Prop, Value};

impl<P: Pace> Objects<P> {
    /// Gives an object a new last property of a value, by the child of its map that is known, whose last field admits the value as it
    /// is. It takes no memory.
    pub fn add_by(&mut self, o: u32, child: u32, name: u32, value: Value)
        requires object { o < length (world_of self.old) }
        requires name { IsNameNumber name }
        requires range { IsInRange value }
        requires may { MayCome self.old.heap.view o child name value }
        ensures did { Made P.went self.old (Added o (added name value)) self.new }
    {
        gates_are_open();
        live_is_child();
        self.stands();
        let p = Prop {
            name,
            attrs: Attrs::empty(),
            held: Held::Datum(value),
        };
        self.add_fast(o, p, Some(child));
    }
}
