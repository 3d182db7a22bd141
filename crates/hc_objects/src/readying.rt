//! Objects made ready for an operation: those that are deprecated are migrated, and the field of a store is made to hold it.
ghost use Rattle.std.specs.Prelude.{◌≡◌, ◌≢◌, ℕ, ◌<◌, ◌↔◌, true, false, IsTrue, IsSomeAnd, None, IfSome, OnOk, OnErr, length};
ghost use Rattle.hc_heap.specs.Readings.{bits_in, map_in};
ghost use Rattle.hc_heap.specs.States.{OnlyLoads};
ghost use Rattle.hc_modes.specs.Admitting.{IsHonest};
ghost use Rattle.hc_modes.specs.Came.{Moves as MovesBare};
ghost use Rattle.hc_modes.specs.Rest.{AreCalm};
ghost use Rattle.hc_modes.specs.State.{IsLive};
ghost use Rattle.hc_modes.specs.Validity.{StaysPut};
ghost use Rattle.hc_table.specs.Changes.{IsThere};
ghost use Rattle.hc_objects.specs.Came.{FollowedBy, IsStill, MadeLive, MadeNamed, Moves, MovesOnce, world_of};
ghost use Rattle.hc_objects.specs.Changes.{IsLiveFor, IsPlain, IsReadied, IsReadyFor, MayChange, MayReady, ReadiedFor};

use crate::change::{Change, Ready};
use crate::following::follow;
use crate::objects::Objects;
use crate::performing::{Outcome, if_changed};
use hc_cells::{chains_stay, marks_stay, ways_stay};
use hc_facts::constants_stay_on;
use hc_heap::Pace;
use hc_modes::{
    Objects as Inside, chains_are_told, fields_stay_honest, operations_leave_cells,
    operations_spend_little, prototypes_stay_calm,
};
use hc_value::Memory;

// Makes an object ready.
fn make_ready<P: Pace>(inside: &mut Inside<P>, o: u32, ready: Ready) -> Result<(), Memory>
    requires object { o < length (world_of inside.old) }
    requires honest { IsHonest inside.old.heap.view.trail }
    requires calm { AreCalm inside.old.heap.view.trail }
    requires may { MayReady (world_of inside.old) o ready }
    requires live { IsLiveFor inside.old.heap.view.trail o ready }
    ensures readied { OnOk result (IsReadied P.went inside.old o ready inside.new) }
    ensures moved { OnErr result (MovesBare P.went inside.old inside.new) }
    ensures maps { (q : ℕ) → q ≢ o → map_in inside.new.heap.view.trail q ≡ map_in inside.old.heap.view.trail q }
{
    match ready {
        Ready::Live => inside.migrate(o),
        Ready::Fit(i, held) => inside.fit(o, i, held),
        Ready::FitFor(i, p) => inside.fit_other(o, i, &p),
    }
}

// Makes an object ready. Where it isn't marked, nothing is told of it, and nothing more is loaded than that loads.
fn ready_object<P: Pace>(inside: &mut Inside<P>, o: u32, marked: bool, ready: Ready) -> Outcome
    requires object { o < length (world_of inside.old) }
    requires honest { IsHonest inside.old.heap.view.trail }
    requires calm { AreCalm inside.old.heap.view.trail }
    requires may { MayReady (world_of inside.old) o ready }
    requires live { IsLiveFor inside.old.heap.view.trail o ready }
    ensures readied { OnOk result.done (IsReadied P.went inside.old o ready inside.new) }
    ensures want { OnErr result.done (MovesBare P.went inside.old inside.new) }
    ensures maps { (q : ℕ) → q ≢ o → map_in inside.new.heap.view.trail q ≡ map_in inside.old.heap.view.trail q }
    ensures moved { IfSome result.moved (λ q. (q ≡ o) × (StaysPut inside.old inside.new o → ⊥)) }
    ensures kept { marked ≡ true → result.moved ≡ None → StaysPut inside.old inside.new o }
{
    if !marked {
        let done = make_ready(inside, o, ready);
        return Outcome { done, moved: None };
    }
    let before = inside.map_of(o);
    let done = make_ready(inside, o, ready);
    let now = inside.map_of(o);
    let moved = if_changed(o, before, now, false);
    Outcome { done, moved }
}

impl<P: Pace> Objects<P> {
    // Makes an object ready, and has the cells follow.
    fn ready(&mut self, o: u32, ready: Ready) -> Result<(), Memory>
        requires object { o < length (world_of self.old) }
        requires may { MayReady (world_of self.old) o ready }
        requires live { IsLiveFor self.old.heap.view.trail o ready }
        ensures readied { OnOk result (FollowedBy P.went (λ x y. IsReadied P.went x o ready y) self.old self.new) }
        ensures moved { OnErr result (MovesOnce P.went self.old self.new) }
    {
        chains_are_told::<P>();
        operations_leave_cells::<P>();
        operations_spend_little::<P>();
        fields_stay_honest::<P>();
        prototypes_stay_calm::<P>();
        constants_stay_on();
        chains_stay();
        ways_stay();
        marks_stay();
        self.inside.stands();
        let marked = self.watched.may_concern(o);
        let outcome = ready_object(&mut self.inside, o, marked, ready);
        self.inside.stands();
        follow(
            &mut self.inside,
            &mut self.protos,
            &mut self.watched,
            o,
            None,
            outcome.moved,
            None,
        );
        outcome.done
    }

    /// Whether an object is deprecated. A slow one isn't.
    pub fn is_deprecated(&mut self, o: u32) -> bool
        requires there { o < length (world_of self.old) }
        ensures live { (result ≡ false) ↔ IsLive self.old.heap.view.trail o }
        ensures dead { IsTrue result → IsSomeAnd (map_in self.old.heap.view.trail o) (λ m. IsTrue (bits_in self.old.heap.view.trail m).deprecated) }
        ensures still { IsStill self.old self.new }
        ensures loads { OnlyLoads 2 self.old.heap.desk self.new.heap.desk }
    {
        self.inside.is_deprecated(o)
    }

    /// Has an object be live from now on: one that is deprecated is migrated, or leaves its map where there is no room. Where it is
    /// live or slow nothing is done.
    pub fn migrate(&mut self, o: u32) -> Result<(), Memory>
        requires there { o < length (world_of self.old) }
        ensures made { OnOk result (MadeLive P.went self.old o self.new) }
        ensures live { OnOk result (IsLive self.new.heap.view.trail o) }
        ensures moved { OnErr result (Moves P.went self.old self.new) }
        ensures once { OnErr result (MovesOnce P.went self.old self.new) }
        ensures still { IsLive self.old.heap.view.trail o → IsStill self.old self.new }
        ensures loads { IsLive self.old.heap.view.trail o → OnlyLoads 2 self.old.heap.desk self.new.heap.desk }
    {
        if self.is_deprecated(o) {
            return self.ready(o, Ready::Live);
        }
        Ok(())
    }

    /// Has the object that is named be live, if one is.
    pub(crate) fn migrate_named(&mut self, named: Option<u32>) -> Result<(), Memory>
        requires there { IsThere (world_of self.old) named }
        ensures made { OnOk result (MadeNamed P.went self.old named self.new) }
        ensures moved { OnErr result (MovesOnce P.went self.old self.new) }
    {
        match named {
            Some(p) => self.migrate(p),
            None => Ok(()),
        }
    }

    /// Makes a live object ready for a change.
    pub(crate) fn ready_for(&mut self, o: u32, change: &Change) -> Result<(), Memory>
        requires object { o < length (world_of self.old) }
        requires may { MayChange (world_of self.old) o change.now }
        requires plain { IsPlain change.now }
        requires live { IsLive self.old.heap.view.trail o }
        ensures readied { OnOk result (ReadiedFor P.went self.old o change.now self.new) }
        ensures ready { OnOk result (IsReadyFor (world_of self.new) self.new.heap.view o change.now) }
        ensures moved { OnErr result (MovesOnce P.went self.old self.new) }
    {
        match change {
            Change::Write(i, held) => self.ready(o, Ready::Fit(*i, *held)),
            Change::Put(i, p) => self.ready(o, Ready::FitFor(*i, *p)),
            Change::Link(proto) => self.migrate_named(*proto),
            _ => Ok(()),
        }
    }
}
