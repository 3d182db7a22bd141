//! Reads of objects. They leave all as it was, but for a few loads.
ghost use Rattle.std.specs.Prelude.{◌≡◌, ◌+◌, ◌<◌, ◌≤◌, Some, length, slice_get};
ghost use Rattle.hc_heap.specs.States.{OnlyLoads};
ghost use Rattle.hc_table.specs.Attributes.{IsProper};
ghost use Rattle.hc_table.specs.World.{IsWorld, object, props_at, place_of};
ghost use Rattle.hc_objects.specs.Came.{IsStill, world_of};

use crate::objects::Objects;
use hc_heap::Pace;
use hc_value::Prop;

impl<P: Pace> Objects<P> {
    /// How many objects there are.
    pub fn count(&self) -> u32
        ensures count { result ≡ length (world_of self.now) }
        ensures room { length (world_of self.now) ≤ self.now.heap.view.shape.objects }
        ensures sound { IsWorld (world_of self.now) }
    {
        self.inside.count()
    }

    /// The prototype of an object.
    pub fn proto(&mut self, o: u32) -> Option<u32>
        requires { o < length (world_of self.old) }
        ensures proto { result ≡ (object (world_of self.old) o).proto }
        ensures still { IsStill self.old self.new }
        ensures loads { OnlyLoads 2 self.old.heap.desk self.new.heap.desk }
        ensures sound { IsWorld (world_of self.old) }
    {
        self.inside.proto(o)
    }

    /// Whether an object may get properties.
    pub fn extensible(&mut self, o: u32) -> bool
        requires { o < length (world_of self.old) }
        ensures extensible { result ≡ (object (world_of self.old) o).extensible }
        ensures still { IsStill self.old self.new }
        ensures loads { OnlyLoads 2 self.old.heap.desk self.new.heap.desk }
        ensures sound { IsWorld (world_of self.old) }
    {
        self.inside.extensible(o)
    }

    /// How many properties an object has of its own. The gaps of a slow one are closed, for a walk over all places.
    pub fn len(&mut self, o: u32) -> u32
        requires { o < length (world_of self.old) }
        ensures len { result ≡ length (props_at (world_of self.old) o) }
        ensures still { IsStill self.old self.new }
        ensures loads { OnlyLoads 2 self.old.heap.desk self.new.heap.desk }
        ensures sound { IsWorld (world_of self.old) }
    {
        self.inside.len(o)
    }

    /// The place of an object's own property of a name.
    pub fn find_own(&mut self, o: u32, name: u32) -> Option<u32>
        requires { o < length (world_of self.old) }
        ensures place { result ≡ place_of (props_at (world_of self.old) o) name }
        ensures still { IsStill self.old self.new }
        ensures loads { OnlyLoads (length (props_at (world_of self.old) o) + 3) self.old.heap.desk self.new.heap.desk }
        ensures sound { IsWorld (world_of self.old) }
    {
        self.inside.find_own(o, name)
    }

    /// An object's own property at a place.
    pub fn prop_at(&mut self, o: u32, i: u32) -> Prop
        requires object { o < length (world_of self.old) }
        requires place { i < length (props_at (world_of self.old) o) }
        ensures prop { slice_get (props_at (world_of self.old) o) i ≡ Some result }
        ensures proper { IsProper result }
        ensures still { IsStill self.old self.new }
        ensures loads { OnlyLoads 7 self.old.heap.desk self.new.heap.desk }
        ensures sound { IsWorld (world_of self.old) }
    {
        self.inside.prop_at(o, i)
    }
}
