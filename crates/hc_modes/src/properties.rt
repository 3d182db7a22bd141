//! Properties that are added, and written, whether an object is fast or slow.
ghost use Rattle.std.specs.Prelude.{ℕ, ◌≡◌, ◌≢◌, ◌<◌, ◌↔◌, true, false, IsTrue, None, Some, OnOk, OnErr, length};
ghost use Rattle.hc_layout.specs.declared.capacity.TheConstants.{MAX_FAST};
ghost use Rattle.hc_value.specs.Prop.{kind_of};
ghost use Rattle.hc_heap.specs.Readings.{map_in, root_in};
ghost use Rattle.hc_table.specs.Attributes.{IsProper};
ghost use Rattle.hc_table.specs.Changes.{Added, Wrote, kind_at};
ghost use Rattle.hc_table.specs.Ranges.{IsHeldInRange};
ghost use Rattle.hc_table.specs.World.{object, props_at, place_of};
ghost use Rattle.hc_tree.specs.Needs.{HasSpace};
ghost use Rattle.hc_modes.specs.Rest.{Marks};
ghost use Rattle.hc_modes.specs.Admitting.{FitsField};
ghost use Rattle.hc_modes.specs.Changes.{KeptBut};
ghost use Rattle.hc_modes.specs.Details.{DetailsAre, GetsNothing};
ghost use Rattle.hc_modes.specs.Meaning.{cause_in, kept_of};
ghost use Rattle.hc_modes.specs.State.{IsLive};
ghost use Rattle.hc_modes.specs.Modes.{add_need};
ghost use Rattle.hc_modes.specs.Came.{IsStill, Made, MayLeave, Moves, Steps, world_of};

use crate::objects::Objects;
use hc_dict::Change;
use hc_facts::constants_stay_on;
use hc_heap::Pace;
use hc_layout::MAX_FAST;
use hc_value::{Cause, Held, Memory, Prop};

impl<P: Pace> Objects<P> {
    // Whether an object is or was a prototype.
    pub(crate) fn is_proto(&mut self, o: u32) -> bool
        ensures value { result ≡ (root_in self.old.heap.view.trail o).is_proto }
        ensures still { IsStill self.old self.new }
    {
        self.heap.object_root(o).is_proto
    }

    // Gives a fast object that has few properties a new last one. The answer is whether there was room; where there was
    // none, nothing is stored.
    fn grow(&mut self, o: u32, p: &Prop) -> bool
        requires object { o < length (world_of self.old) }
        requires fast { kept_of self.old.kept o ≡ None }
        requires absent { place_of (props_at (world_of self.old) o) p.now.name ≡ None }
        requires few { length (props_at (world_of self.old) o) < MAX_FAST }
        requires extensible { (object (world_of self.old) o).extensible ≡ true }
        requires proper { IsProper p.now }
        requires live { IsLive self.old.heap.view.trail o }
        ensures room { IsTrue result ↔ HasSpace self.old.heap.view (add_need self.old.heap.view.trail o p.now) }
        ensures added { IsTrue result → Made P.went self.old (Added o p.now) self.new }
        ensures still { result ≡ false → IsStill self.old self.new }
    {
        if self.is_proto(o) {
            return self.add_private(o, *p);
        }
        self.add_fast(o, *p, None)
    }

    // Has a fast object be slow, for a cause, and get a new last property.
    fn leave_and_add(&mut self, o: u32, cause: Cause, p: &Prop) -> Result<(), Memory>
        requires object { o < length (world_of self.old) }
        requires fast { kept_of self.old.kept o ≡ None }
        requires absent { place_of (props_at (world_of self.old) o) p.now.name ≡ None }
        requires proper { IsProper p.now }
        requires why { MayLeave self.old o cause }
        ensures added { OnOk result (Steps P.went self.old (Added o p.now) self.new) }
        ensures moved { OnErr result (Moves P.went self.old self.new) }
        ensures cause { OnOk result (cause_in self.new.kept o ≡ Some cause) }
        ensures others { KeptBut o self.old.kept self.new.kept }
        ensures maps { (q : ℕ) → q ≢ o → map_in self.new.heap.view.trail q ≡ map_in self.old.heap.view.trail q }
        ensures used { self.new.heap.view.used ≡ self.old.heap.view.used }
        ensures protos { (q : ℕ) → (root_in self.new.heap.view.trail q).is_proto ≡ (root_in self.old.heap.view.trail q).is_proto }
        ensures marks { OnOk result (Marks self.old.heap.view.trail self.new.heap.view.trail o) }
        ensures details { DetailsAre GetsNothing self.old.heap.view.trail self.new.heap.view.trail }
    {
        constants_stay_on();
        self.leave(o, cause)?;
        self.stands();
        self.add_slow(o, *p)
    }

    // Gives a fast object a new last property. It goes slow where it has as many as it can, or where there is no room.
    fn add_to_fast(&mut self, o: u32, p: Prop) -> Result<(), Memory>
        requires object { o < length (world_of self.old) }
        requires fast { kept_of self.old.kept o ≡ None }
        requires absent { place_of (props_at (world_of self.old) o) p.name ≡ None }
        requires extensible { (object (world_of self.old) o).extensible ≡ true }
        requires proper { IsProper p }
        requires live { IsLive self.old.heap.view.trail o }
        ensures did { OnOk result (Made P.went self.old (Added o p) self.new) }
        ensures moved { OnErr result (Moves P.went self.old self.new) }
        ensures others { OnErr result (KeptBut o self.old.kept self.new.kept) }
        ensures maps { OnErr result ((q : ℕ) → q ≢ o → map_in self.new.heap.view.trail q ≡ map_in self.old.heap.view.trail q) }
    {
        if self.len(o) >= MAX_FAST {
            return self.leave_and_add(o, Cause::Many, &p);
        }
        if self.grow(o, &p) {
            return Ok(());
        }
        self.leave_and_add(o, Cause::Space, &p)
    }

    // Gives an extensible object a new last property.
    pub fn add_property(&mut self, o: u32, p: Prop) -> Result<(), Memory>
        requires object { o < length (world_of self.old) }
        requires absent { place_of (props_at (world_of self.old) o) p.name ≡ None }
        requires extensible { (object (world_of self.old) o).extensible ≡ true }
        requires proper { IsProper p }
        requires live { IsLive self.old.heap.view.trail o }
        ensures did { OnOk result (Made P.went self.old (Added o p) self.new) }
        ensures moved { OnErr result (Moves P.went self.old self.new) }
        ensures others { OnErr result (KeptBut o self.old.kept self.new.kept) }
        ensures maps { OnErr result ((q : ℕ) → q ≢ o → map_in self.new.heap.view.trail q ≡ map_in self.old.heap.view.trail q) }
    {
        if self.is_slow(o) {
            return self.add_slow(o, p);
        }
        self.add_to_fast(o, p)
    }

    // Has the property at a place hold something else of its kind.
    pub fn write_property(&mut self, o: u32, i: u32, held: Held)
        requires object { o < length (world_of self.old) }
        requires kind { kind_at (props_at (world_of self.old) o) i ≡ Some (kind_of held) }
        requires range { IsHeldInRange held }
        requires place { FitsField self.old.heap.view.trail o i held }
        ensures did { Made P.went self.old (Wrote o i held) self.new }
    {
        if self.is_slow(o) {
            self.change_slow(o, Change::Write(i, held));
            return;
        }
        self.write_fast(o, i, held);
    }
}
