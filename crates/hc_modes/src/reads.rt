//! Reads of objects. They leave all as it was, but for a few loads.
ghost use Rattle.std.specs.Prelude.{◌≡◌, ◌+◌, ◌<◌, ◌≤◌, Some, length, slice_get};
ghost use Rattle.std.specs.Option.{option_copied};
ghost use Rattle.hc_heap.specs.States.{OnlyLoads};
ghost use Rattle.hc_table.specs.Attributes.{IsProper};
ghost use Rattle.hc_table.specs.World.{IsWorld, object, props_at, place_of};
ghost use Rattle.hc_modes.specs.Meaning.{kept_of};
ghost use Rattle.hc_modes.specs.Came.{IsStill, world_of};

use crate::objects::Objects;
use hc_dict::Dictionary;
use hc_heap::Pace;
use hc_slots::fast;
use hc_value::Prop;

impl<P: Pace> Objects<P> {
    /// How many objects there are.
    pub fn count(&self) -> u32
        ensures count { result ≡ length (world_of self.now) }
        ensures room { length (world_of self.now) ≤ self.now.heap.view.shape.objects }
        ensures sound { IsWorld (world_of self.now) }
    {
        self.kept.len() as u32
    }

    // The dictionary of an object, where it is slow.
    pub(crate) fn slow(&self, o: u32) -> Option<&Dictionary>
        requires { o < length (world_of self.now) }
        ensures { option_copied result ≡ kept_of self.now.kept o }
    {
        self.kept[o as usize].as_ref()
    }

    /// The prototype of an object.
    pub fn proto(&mut self, o: u32) -> Option<u32>
        requires { o < length (world_of self.old) }
        ensures proto { result ≡ (object (world_of self.old) o).proto }
        ensures still { IsStill self.old self.new }
        ensures loads { OnlyLoads 2 self.old.heap.desk self.new.heap.desk }
        ensures sound { IsWorld (world_of self.old) }
    {
        if let Some(slow) = self.slow(o) {
            return slow.proto;
        }
        fast::proto(&mut self.heap, o)
    }

    /// Whether an object may get properties.
    pub fn extensible(&mut self, o: u32) -> bool
        requires { o < length (world_of self.old) }
        ensures extensible { result ≡ (object (world_of self.old) o).extensible }
        ensures still { IsStill self.old self.new }
        ensures loads { OnlyLoads 2 self.old.heap.desk self.new.heap.desk }
        ensures sound { IsWorld (world_of self.old) }
    {
        if let Some(slow) = self.slow(o) {
            return slow.extensible;
        }
        fast::extensible(&mut self.heap, o)
    }

    /// How many properties an object has of its own. The gaps of a slow one are closed, for a walk over all places.
    pub fn len(&mut self, o: u32) -> u32
        requires { o < length (world_of self.old) }
        ensures len { result ≡ length (props_at (world_of self.old) o) }
        ensures still { IsStill self.old self.new }
        ensures loads { OnlyLoads 2 self.old.heap.desk self.new.heap.desk }
        ensures sound { IsWorld (world_of self.old) }
    {
        if self.is_slow(o) {
            self.close_slow(o);
            return self.slow(o).unwrap().props.len();
        }
        fast::len(&mut self.heap, o)
    }

    /// The place of an object's own property of a name.
    pub fn find_own(&mut self, o: u32, name: u32) -> Option<u32>
        requires { o < length (world_of self.old) }
        ensures place { result ≡ place_of (props_at (world_of self.old) o) name }
        ensures still { IsStill self.old self.new }
        ensures loads { OnlyLoads (length (props_at (world_of self.old) o) + 3) self.old.heap.desk self.new.heap.desk }
        ensures sound { IsWorld (world_of self.old) }
    {
        if let Some(slow) = self.slow(o) {
            return slow.props.find(name);
        }
        fast::find(&mut self.heap, o, name)
    }

    /// An object's own property at a place.
    pub fn prop_at(&mut self, o: u32, i: u32) -> Prop
        requires object { o < length (world_of self.old) }
        requires place { i < length (props_at (world_of self.old) o) }
        ensures prop { slice_get (props_at (world_of self.old) o) i ≡ Some result }
        ensures proper { IsProper result }
        ensures still { IsStill self.old self.new }
        ensures loads { OnlyLoads 7 self.old.heap.desk self.new.heap.desk }
        ensures sound { IsWorld (world_of self.old) }
    {
        if let Some(slow) = self.slow(o) {
            return slow.props.prop(i);
        }
        fast::prop_at(&mut self.heap, o, i)
    }
}
