//! Objects whose maps are generalised before a store that isn't in place.
ghost use Rattle.std.specs.Prelude.{ℕ, ◌≡◌, ◌≢◌, ◌<◌, ◌≤◌, ◌↔◌, false, IsTrue, None, OnErr, OnOk, Some, length, slice_get};
ghost use Rattle.hc_facts.specs.Honest.{IsHonest};
ghost use Rattle.hc_layout.specs.declared.capacity.TheConstants.{MAX_FAST};
ghost use Rattle.hc_update.specs.Renewing.{generalise_need};
ghost use Rattle.hc_heap.specs.Readings.{map_in};
ghost use Rattle.hc_table.specs.Changes.{kind_at, name_at};
ghost use Rattle.hc_table.specs.World.{props_at};
ghost use Rattle.hc_value.specs.Prop.{kind_of};
ghost use Rattle.hc_modes.specs.Admitting.{FitsField};
ghost use Rattle.hc_modes.specs.Came.{HasGeneralised, IsMadeFit, IsMadeFitFor, IsOther, IsStill, LacksStore, Moves, world_of};
ghost use Rattle.hc_modes.specs.Meaning.{kept_of};
ghost use Rattle.hc_modes.specs.State.{IsLive};

use crate::admitting::detail_for_held;
use crate::moving::generalise_object;
use crate::objects::Objects;
use hc_facts::{honest_after, kept_is_carried, moved_is_carried};
use hc_heap::{
    Pace, details_rise, forms_are_kept, gates_are_open, set_is_kept, stable_is_kept,
    unused_says_nothing,
};
use hc_layout::GateWord;
use hc_slots::constness_for;
use hc_slots::fast::map_of;
use hc_table::changes_keep;
use hc_tree::{Need, detail_at, has_space, maps_are_kept, of_build, of_own};
use hc_value::{Cause, Held, Memory, Prop, Rep, in_place, join, rep_of};

// What is needed where a map is generalised at a place: a private one alone is made again, and of a shared one all maps from the one
// that owns the field on.
fn need_to_generalise(gate: GateWord, i: u32) -> Need
    requires few { gate.entries ≤ MAX_FAST }
    requires entry { i < gate.entries }
    ensures need { result ≡ generalise_need gate i }
{
    if gate.is_private {
        of_own(gate.entries)
    } else {
        of_build(i, gate.entries)
    }
}

impl<P: Pace> Objects<P> {
    // Whether the field of a fast object's place may hold this in place.
    fn fits_field(&mut self, o: u32, i: u32, held: &Held) -> bool
        requires object { o < length (world_of self.old) }
        requires fast { kept_of self.old.kept o ≡ None }
        requires kind { kind_at (props_at (world_of self.old) o) i ≡ Some (kind_of held.now) }
        ensures fits { IsTrue result ↔ FitsField self.old.heap.view.trail o i held.now }
        ensures still { IsStill self.old self.new }
    {
        gates_are_open();
        let map = map_of(&mut self.heap, o);
        let rep = detail_at(&mut self.heap, map, i).rep;
        let asked = match held {
            Held::Datum(value) => rep_of(*value),
            Held::Pair(_, _) => Rep::Tagged,
        };
        in_place(rep, join(rep, asked))
    }

    // Has a fast object whose map is live come to one whose field may hold this at a place. The answer is whether there was room; where
    // there was none, nothing is stored.
    fn generalise_map(&mut self, o: u32, i: u32, held: Held) -> bool
        requires object { o < length (world_of self.old) }
        requires fast { kept_of self.old.kept o ≡ None }
        requires kind { kind_at (props_at (world_of self.old) o) i ≡ Some (kind_of held) }
        requires live { IsLive self.old.heap.view.trail o }
        requires outgrown { FitsField self.old.heap.view.trail o i held → ⊥ }
        requires honest { IsHonest self.old.heap.view.trail }
        ensures generalised { IsTrue result → HasGeneralised P.went self.old o i held self.new }
        ensures fits { IsTrue result → FitsField self.new.heap.view.trail o i held }
        ensures lacks { result ≡ false → LacksStore self.old o i held }
        ensures still { result ≡ false → IsStill self.old self.new }
    {
        maps_are_kept();
        details_rise();
        unused_says_nothing();
        gates_are_open();
        changes_keep();
        forms_are_kept();
        stable_is_kept();
        honest_after();
        kept_is_carried();
        moved_is_carried();
        set_is_kept();
        let map = map_of(&mut self.heap, o);
        let gate = self.heap.gate(map).unwrap();
        if !has_space(&self.heap, need_to_generalise(gate, i)) {
            return false;
        }
        let was = detail_at(&mut self.heap, map, i);
        let constness = constness_for(&mut self.heap, o, i, was, &held);
        let detail = detail_for_held(&mut self.heap, held, constness);
        generalise_object(&mut self.heap, o, map, gate.entries, i, detail);
        true
    }

    /// Has an object whose map is live be fit for a store at a place: where the field there can't hold this in place, the object comes to
    /// a map whose field can. Where there is no room for that the object is slow from now on. Nothing is written to the place.
    pub fn fit(&mut self, o: u32, i: u32, held: Held) -> Result<(), Memory>
        requires object { o < length (world_of self.old) }
        requires kind { kind_at (props_at (world_of self.old) o) i ≡ Some (kind_of held) }
        requires live { IsLive self.old.heap.view.trail o }
        requires honest { IsHonest self.old.heap.view.trail }
        ensures made { OnOk result (IsMadeFit P.went self.old o i held self.new) }
        ensures moved { OnErr result (Moves P.went self.old self.new) }
        ensures still { OnErr result (IsStill self.old self.new) }
        ensures maps { (q : ℕ) → q ≢ o → map_in self.new.heap.view.trail q ≡ map_in self.old.heap.view.trail q }
    {
        self.stands();
        if self.is_slow(o) {
            return Ok(());
        }
        if self.fits_field(o, i, &held) {
            return Ok(());
        }
        if self.generalise_map(o, i, held) {
            return Ok(());
        }
        self.leave(o, Cause::Space)?;
        self.stands();
        Ok(())
    }

    // Whether another property of the same key stands at a place.
    fn is_other(&mut self, o: u32, i: u32, p: &Prop) -> bool
        requires object { o < length (world_of self.old) }
        requires name { name_at (props_at (world_of self.old) o) i ≡ Some p.now.name }
        ensures other { IsTrue result ↔ IsOther (world_of self.old) o i p.now }
        ensures still { IsStill self.old self.new }
    {
        !self.holds(o, i, p) && self.has_key(o, i, p)
    }

    /// Has an object whose map is live be fit for a property of the same name in the place of another: where both have one key, and the
    /// property is another one, as for a store, and else nothing is done.
    pub fn fit_other(&mut self, o: u32, i: u32, p: &Prop) -> Result<(), Memory>
        requires object { o < length (world_of self.old) }
        requires name { name_at (props_at (world_of self.old) o) i ≡ Some p.now.name }
        requires live { IsLive self.old.heap.view.trail o }
        requires honest { IsHonest self.old.heap.view.trail }
        ensures made { OnOk result (IsMadeFitFor P.went self.old o i p.now self.new) }
        ensures fits { OnOk result (IsOther (world_of self.new) o i p.now → FitsField self.new.heap.view.trail o i p.now.held) }
        ensures moved { OnErr result (Moves P.went self.old self.new) }
        ensures still { OnErr result (IsStill self.old self.new) }
        ensures maps { (q : ℕ) → q ≢ o → map_in self.new.heap.view.trail q ≡ map_in self.old.heap.view.trail q }
    {
        if self.is_other(o, i, p) {
            return self.fit(o, i, p.held);
        }
        Ok(())
    }
}
