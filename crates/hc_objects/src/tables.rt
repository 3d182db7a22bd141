//! Objects as property tables.
ghost use Rattle.std.specs.Prelude.{◌≡◌};
ghost use Rattle.hc_objects.specs.Came.{world_of};

use crate::change::Change;
use crate::objects::Objects;
use hc_heap::Pace;
use hc_table::{TableFault, Tables};
use hc_value::{Held, Memory, Prop};

impl<P: Pace> Tables for Objects<P> {
    ghost use Rattle.hc_objects.specs.Came.{Came, world_of};
    ghost use Rattle.hc_objects.specs.Laws.{came-refl, came-before, came-after, came-world};

    ghost world = { world_of };

    ghost limit = { λ o. o.heap.view.shape.objects };

    ghost came = { Came P.went };

    fn count(&mut self) -> u32 {
        Objects::count(self)
    }

    fn create(&mut self, proto: Option<u32>) -> Result<u32, TableFault> {
        self.make(proto)
    }

    fn proto(&mut self, o: u32) -> Option<u32> {
        Objects::proto(self, o)
    }

    fn extensible(&mut self, o: u32) -> bool {
        Objects::extensible(self, o)
    }

    fn len(&mut self, o: u32) -> u32 {
        Objects::len(self, o)
    }

    fn find_own(&mut self, o: u32, name: u32) -> Option<u32> {
        Objects::find_own(self, o, name)
    }

    fn prop_at(&mut self, o: u32, i: u32) -> Prop {
        Objects::prop_at(self, o, i)
    }

    fn add(&mut self, o: u32, p: Prop) -> Result<(), Memory> {
        self.apply(o, Change::Add(p))
    }

    fn write(&mut self, o: u32, i: u32, held: Held) -> Result<(), Memory> {
        self.apply(o, Change::Write(i, held))
    }

    fn reconfigure(&mut self, o: u32, i: u32, p: Prop) -> Result<(), Memory> {
        self.apply(o, Change::Put(i, p))
    }

    fn remove(&mut self, o: u32, i: u32) -> Result<(), Memory> {
        self.apply(o, Change::Remove(i))
    }

    fn set_proto(&mut self, o: u32, proto: Option<u32>) -> Result<(), Memory> {
        self.apply(o, Change::Link(proto))
    }

    fn lock(&mut self, o: u32) -> Result<(), Memory> {
        self.apply(o, Change::Lock)
    }

    fn restrict(&mut self, o: u32, frozen: bool) -> Result<(), Memory> {
        self.apply(o, Change::Restrict(frozen))
    }

    ghost nothing_done = { came-refl P.went };

    ghost nothing_before = { came-before P.went };

    ghost nothing_after = { came-after P.went };

    ghost world_after = { came-world P.went };
}
