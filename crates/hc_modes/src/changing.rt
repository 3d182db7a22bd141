//! Changes of one object, fast or slow, that keep how many properties it has.
ghost use Rattle.std.specs.Prelude.{ℕ, ◌≡◌, ◌≢◌, ◌↔◌, ◌<◌, false, IsTrue, None, Some, IsSome, OnOk, OnErr, length, option_map, slice_get};
ghost use Rattle.hc_heap.specs.Readings.{root_in};
ghost use Rattle.hc_table.specs.Attributes.{IsProper};
ghost use Rattle.hc_table.specs.Changes.{Reconfigured, Locked, Restricted, name_at};
ghost use Rattle.hc_table.specs.World.{props_at};
ghost use Rattle.hc_modes.specs.Rest.{Marks};
ghost use Rattle.hc_modes.specs.Admitting.{FitsField};
ghost use Rattle.hc_modes.specs.Changes.{key_of};
ghost use Rattle.hc_modes.specs.Details.{ChangedGets, DetailsAre};
ghost use Rattle.hc_modes.specs.Meaning.{kept_of};
ghost use Rattle.hc_modes.specs.Came.{IsOther, IsStill, Made, Moves, Steps, world_of};

use crate::objects::Objects;
use hc_dict::Change;
use hc_facts::constants_stay_on;
use hc_heap::Pace;
use hc_value::{Cause, Memory, Prop};

impl<P: Pace> Objects<P> {
    // Whether an object is slow.
    pub(crate) fn is_slow(&self, o: u32) -> bool
        requires object { o < length (world_of self.now) }
        ensures slow { IsTrue result → IsSome (kept_of self.now.kept o) }
        ensures fast { result ≡ false → kept_of self.now.kept o ≡ None }
    {
        self.kept[o as usize].is_some()
    }

    // Whether the property at a place has the key of another of its name.
    pub(crate) fn has_key(&mut self, o: u32, i: u32, p: &Prop) -> bool
        requires object { o < length (world_of self.old) }
        requires name { name_at (props_at (world_of self.old) o) i ≡ Some p.now.name }
        ensures same { IsTrue result ↔ (option_map key_of (slice_get (props_at (world_of self.old) o) i) ≡ Some (key_of p.now)) }
        ensures still { IsStill self.old self.new }
    {
        let was = self.prop_at(o, i);
        was.attrs == p.attrs && was.held.kind() == p.held.kind()
    }

    // Puts a property of the same key in the place of another of a fast object: the object's map stays.
    fn reconfigure_fast(&mut self, o: u32, i: u32, p: Prop)
        requires object { o < length (world_of self.old) }
        requires fast { kept_of self.old.kept o ≡ None }
        requires same { option_map key_of (slice_get (props_at (world_of self.old) o) i) ≡ Some (key_of p) }
        requires proper { IsProper p }
        requires place { FitsField self.old.heap.view.trail o i p.held }
        ensures steps { Steps P.went self.old (Reconfigured o i p) self.new }
        ensures kept { self.new.kept ≡ self.old.kept }
        ensures used { self.new.heap.view.used ≡ self.old.heap.view.used }
        ensures protos { (q : ℕ) → (root_in self.new.heap.view.trail q).is_proto ≡ (root_in self.old.heap.view.trail q).is_proto }
        ensures marks { Marks self.old.heap.view.trail self.new.heap.view.trail o }
        ensures details { slice_get (props_at (world_of self.old) o) i ≢ Some p → DetailsAre (ChangedGets self.old.heap.view.trail self.old.kept o i p) self.old.heap.view.trail self.new.heap.view.trail }
    {
        self.write_fast(o, i, p.held);
    }

    // Whether the property at a place is this one.
    pub(crate) fn holds(&mut self, o: u32, i: u32, p: &Prop) -> bool
        requires object { o < length (world_of self.old) }
        requires place { i < length (props_at (world_of self.old) o) }
        ensures same { IsTrue result ↔ (slice_get (props_at (world_of self.old) o) i ≡ Some p.now) }
        ensures still { IsStill self.old self.new }
    {
        self.prop_at(o, i) == *p
    }

    // Puts another property of the same name in the place of one. A fast object stays so where the keys are the same.
    fn put_other(&mut self, o: u32, i: u32, p: Prop) -> Result<(), Memory>
        requires object { o < length (world_of self.old) }
        requires name { name_at (props_at (world_of self.old) o) i ≡ Some p.name }
        requires proper { IsProper p }
        requires other { slice_get (props_at (world_of self.old) o) i ≢ Some p }
        requires place { option_map key_of (slice_get (props_at (world_of self.old) o) i) ≡ Some (key_of p) → FitsField self.old.heap.view.trail o i p.held }
        ensures did { OnOk result (Made P.went self.old (Reconfigured o i p) self.new) }
        ensures moved { OnErr result (Moves P.went self.old self.new) }
        ensures still { OnErr result (IsStill self.old self.new) }
    {
        if self.is_slow(o) {
            self.change_slow(o, Change::Put(i, p));
            return Ok(());
        }
        if self.has_key(o, i, &p) {
            self.reconfigure_fast(o, i, p);
            return Ok(());
        }
        constants_stay_on();
        self.leave(o, Cause::Reconfigured)?;
        self.change_slow(o, Change::Put(i, p));
        Ok(())
    }

    /// Puts a property of the same name in the place of another, and does nothing where they are equal. Where the keys are the same the
    /// field may hold what it does in place.
    pub fn reconfigure(&mut self, o: u32, i: u32, p: Prop) -> Result<(), Memory>
        requires object { o < length (world_of self.old) }
        requires name { name_at (props_at (world_of self.old) o) i ≡ Some p.name }
        requires proper { IsProper p }
        requires place { IsOther (world_of self.old) o i p → FitsField self.old.heap.view.trail o i p.held }
        ensures did { OnOk result (Made P.went self.old (Reconfigured o i p) self.new) }
        ensures moved { OnErr result (Moves P.went self.old self.new) }
        ensures still { OnErr result (IsStill self.old self.new) }
    {
        self.stands();
        if self.holds(o, i, &p) {
            return Ok(());
        }
        self.put_other(o, i, p)
    }

    // Has an object get no further property. It is slow from now on.
    pub fn lock(&mut self, o: u32) -> Result<(), Memory>
        requires object { o < length (world_of self.old) }
        ensures did { OnOk result (Made P.went self.old (Locked o) self.new) }
        ensures moved { OnErr result (Moves P.went self.old self.new) }
        ensures still { OnErr result (IsStill self.old self.new) }
    {
        if self.is_slow(o) {
            self.change_slow(o, Change::Lock);
            return Ok(());
        }
        constants_stay_on();
        self.leave(o, Cause::Reconfigured)?;
        self.change_slow(o, Change::Lock);
        Ok(())
    }

    // Seals an object, or freezes it. It is slow from now on.
    pub fn restrict(&mut self, o: u32, frozen: bool) -> Result<(), Memory>
        requires object { o < length (world_of self.old) }
        ensures did { OnOk result (Made P.went self.old (Restricted o frozen) self.new) }
        ensures moved { OnErr result (Moves P.went self.old self.new) }
        ensures still { OnErr result (IsStill self.old self.new) }
    {
        if self.is_slow(o) {
            self.change_slow(o, Change::Restrict(frozen));
            return Ok(());
        }
        constants_stay_on();
        self.leave(o, Cause::Reconfigured)?;
        self.change_slow(o, Change::Restrict(frozen));
        Ok(())
    }
}
