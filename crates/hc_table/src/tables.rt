ghost use Rattle.std.specs.Prelude.{◌≡◌, ◌↔◌, ℕ, ◌<◌, ◌≤◌, true, false, None, Some, length, slice_get, IfOk, OnOk, OnErr, IsErrOf};
ghost use Rattle.hc_table.specs.Attributes.{IsProper};
ghost use Rattle.hc_table.specs.Changes.{Did, Nothing, Moved, Created, Added, Wrote, Reconfigured, Removed, Linked, Locked, Restricted, IsThere, after, name_at, kind_at, reaches, with_property, with_removed, with_proto, with_lock, with_integrity};
ghost use Rattle.hc_table.specs.Ranges.{IsHeldInRange};
ghost use Rattle.hc_table.specs.World.{World, IsWorld, object, props_at, place_of, with_object, with_added, with_written};
ghost use Rattle.hc_value.specs.Prop.{kind_of};

use crate::TableFault;
use hc_value::{Held, Memory, Prop};

/// The objects and their properties, however they are kept. Objects count from 0 in the order of their making,
/// properties from 0 in the order of the object's list. Reads leave all as it was; a changing call that answers
/// an error leaves the world as it was.
pub trait Tables {
    /// What is kept.
    ghost world: { Self → World };

    /// The most objects there may be.
    ghost limit: { Self → ℕ };

    /// What was done from one state to a later one: nothing, moves that change no meaning, or one changing call.
    ghost came: { Self → Did → Self → Type 0 };

    /// How many objects there are.
    fn count(&mut self) -> u32
        ensures count { result ≡ length (world self.old) }
        ensures room { length (world self.old) ≤ limit self.old }
        ensures same { world self.new ≡ world self.old }
        ensures same_limit { limit self.new ≡ limit self.old }
        ensures still { came self.old Nothing self.new }
        ensures sound { IsWorld (world self.old) };

    /// Makes an object without properties, with a prototype that is there or null.
    fn create(&mut self, proto: Option<u32>) -> Result<u32, TableFault>
        requires { IsThere (world self.old) proto }
        ensures number { IfOk result (λ o. o ≡ length (world self.old)) }
        ensures made { OnOk result (world self.new ≡ with_object (world self.old) proto) }
        ensures did { OnOk result (came self.old (Created proto) self.new) }
        ensures full { IsErrOf result TableFault.Full ↔ (length (world self.old) ≡ limit self.old) }
        ensures err { OnErr result (world self.new ≡ world self.old) }
        ensures still { IsErrOf result TableFault.Full → came self.old Nothing self.new }
        ensures moved { IsErrOf result TableFault.Memory → came self.old Moved self.new }
        ensures same_limit { limit self.new ≡ limit self.old };

    /// The prototype of an object: an object's number, or null.
    fn proto(&mut self, o: u32) -> Option<u32>
        requires { o < length (world self.old) }
        ensures proto { result ≡ (object (world self.old) o).proto }
        ensures same { world self.new ≡ world self.old }
        ensures same_limit { limit self.new ≡ limit self.old }
        ensures still { came self.old Nothing self.new }
        ensures sound { IsWorld (world self.old) };

    /// Whether an object may get properties.
    fn extensible(&mut self, o: u32) -> bool
        requires { o < length (world self.old) }
        ensures extensible { result ≡ (object (world self.old) o).extensible }
        ensures same { world self.new ≡ world self.old }
        ensures same_limit { limit self.new ≡ limit self.old }
        ensures still { came self.old Nothing self.new }
        ensures sound { IsWorld (world self.old) };

    /// How many properties an object has of its own.
    fn len(&mut self, o: u32) -> u32
        requires { o < length (world self.old) }
        ensures len { result ≡ length (props_at (world self.old) o) }
        ensures same { world self.new ≡ world self.old }
        ensures same_limit { limit self.new ≡ limit self.old }
        ensures still { came self.old Nothing self.new }
        ensures sound { IsWorld (world self.old) };

    /// The place of an object's own property of a name.
    fn find_own(&mut self, o: u32, name: u32) -> Option<u32>
        requires { o < length (world self.old) }
        ensures place { result ≡ place_of (props_at (world self.old) o) name }
        ensures same { world self.new ≡ world self.old }
        ensures same_limit { limit self.new ≡ limit self.old }
        ensures still { came self.old Nothing self.new }
        ensures sound { IsWorld (world self.old) };

    /// An object's own property at a place.
    fn prop_at(&mut self, o: u32, i: u32) -> Prop
        requires object { o < length (world self.old) }
        requires place { i < length (props_at (world self.old) o) }
        ensures prop { slice_get (props_at (world self.old) o) i ≡ Some result }
        ensures proper { IsProper result }
        ensures same { world self.new ≡ world self.old }
        ensures same_limit { limit self.new ≡ limit self.old }
        ensures still { came self.old Nothing self.new }
        ensures sound { IsWorld (world self.old) };

    /// Gives an extensible object a new last property.
    fn add(&mut self, o: u32, p: Prop) -> Result<(), Memory>
        requires object { o < length (world self.old) }
        requires absent { place_of (props_at (world self.old) o) p.name ≡ None }
        requires extensible { (object (world self.old) o).extensible ≡ true }
        requires proper { IsProper p }
        ensures added { OnOk result (world self.new ≡ with_added (world self.old) o p) }
        ensures did { OnOk result (came self.old (Added o p) self.new) }
        ensures err { OnErr result (world self.new ≡ world self.old) }
        ensures moved { OnErr result (came self.old Moved self.new) }
        ensures same_limit { limit self.new ≡ limit self.old };

    /// Has the property at a place hold something else of its kind.
    fn write(&mut self, o: u32, i: u32, held: Held) -> Result<(), Memory>
        requires object { o < length (world self.old) }
        requires kind { kind_at (props_at (world self.old) o) i ≡ Some (kind_of held) }
        requires range { IsHeldInRange held }
        ensures written { OnOk result (world self.new ≡ with_written (world self.old) o i held) }
        ensures did { OnOk result (came self.old (Wrote o i held) self.new) }
        ensures err { OnErr result (world self.new ≡ world self.old) }
        ensures moved { OnErr result (came self.old Moved self.new) }
        ensures same_limit { limit self.new ≡ limit self.old };

    /// Puts a property of the same name in the place of another.
    fn reconfigure(&mut self, o: u32, i: u32, p: Prop) -> Result<(), Memory>
        requires object { o < length (world self.old) }
        requires name { name_at (props_at (world self.old) o) i ≡ Some p.name }
        requires proper { IsProper p }
        ensures reconfigured { OnOk result (world self.new ≡ with_property (world self.old) o i p) }
        ensures did { OnOk result (came self.old (Reconfigured o i p) self.new) }
        ensures err { OnErr result (world self.new ≡ world self.old) }
        ensures moved { OnErr result (came self.old Moved self.new) }
        ensures same_limit { limit self.new ≡ limit self.old };

    /// Takes the property at a place away.
    fn remove(&mut self, o: u32, i: u32) -> Result<(), Memory>
        requires object { o < length (world self.old) }
        requires place { i < length (props_at (world self.old) o) }
        ensures removed { OnOk result (world self.new ≡ with_removed (world self.old) o i) }
        ensures did { OnOk result (came self.old (Removed o i) self.new) }
        ensures err { OnErr result (world self.new ≡ world self.old) }
        ensures moved { OnErr result (came self.old Moved self.new) }
        ensures same_limit { limit self.new ≡ limit self.old };

    /// Gives an extensible object another prototype, whose chain doesn't come to the object.
    fn set_proto(&mut self, o: u32, proto: Option<u32>) -> Result<(), Memory>
        requires object { o < length (world self.old) }
        requires there { IsThere (world self.old) proto }
        requires extensible { (object (world self.old) o).extensible ≡ true }
        requires no_cycle { reaches (world self.old) proto o ≡ false }
        ensures linked { OnOk result (world self.new ≡ with_proto (world self.old) o proto) }
        ensures did { OnOk result (came self.old (Linked o proto) self.new) }
        ensures err { OnErr result (world self.new ≡ world self.old) }
        ensures moved { OnErr result (came self.old Moved self.new) }
        ensures same_limit { limit self.new ≡ limit self.old };

    /// Has an extensible object get no further property.
    fn lock(&mut self, o: u32) -> Result<(), Memory>
        requires object { o < length (world self.old) }
        requires extensible { (object (world self.old) o).extensible ≡ true }
        ensures locked { OnOk result (world self.new ≡ with_lock (world self.old) o) }
        ensures did { OnOk result (came self.old (Locked o) self.new) }
        ensures err { OnErr result (world self.new ≡ world self.old) }
        ensures moved { OnErr result (came self.old Moved self.new) }
        ensures same_limit { limit self.new ≡ limit self.old };

    /// Seals an object, or freezes it: it gets no further property, none is configurable, and where it is frozen no
    /// data property is writable.
    fn restrict(&mut self, o: u32, frozen: bool) -> Result<(), Memory>
        requires { o < length (world self.old) }
        ensures restricted { OnOk result (world self.new ≡ with_integrity (world self.old) o frozen) }
        ensures did { OnOk result (came self.old (Restricted o frozen) self.new) }
        ensures err { OnErr result (world self.new ≡ world self.old) }
        ensures moved { OnErr result (came self.old Moved self.new) }
        ensures same_limit { limit self.new ≡ limit self.old };

    /// Nothing was done from a state to itself.
    ghost nothing_done: { (t : Self) → came t Nothing t };

    /// What is done after nothing is done from the start.
    ghost nothing_before: { (a b c : Self) (did : Did) → came a Nothing b → came b did c → came a did c };

    /// What is done before nothing is done to the end.
    ghost nothing_after: { (a b c : Self) (did : Did) → came a did b → came b Nothing c → came a did c };

    /// What was done tells the world after it: nothing, and moves, leave it as it was.
    ghost world_after: { (a b : Self) (did : Did) → came a did b → world b ≡ after did (world a) };
}
