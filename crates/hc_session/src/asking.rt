//! The plan of a site is asked, and once more when the receiver was migrated.
ghost use Rattle.std.specs.Prelude.{◌≡◌, ◌↔◌, ◌+◌, ◌<◌, ◌≤◌, ℕ, true, false, length, slice_get, Some, None, IsSome, IfSome, IfOk, OnOk, OnErr};
ghost use Rattle.hc_access.specs.Entries.{AreGood};
ghost use Rattle.hc_heap.specs.States.{OnlyLoads};
ghost use Rattle.hc_modes.specs.Admitting.{IsHonest};
ghost use Rattle.hc_modes.specs.Rest.{AreCalm};
ghost use Rattle.hc_modes.specs.State.{IsLive};
ghost use Rattle.hc_objects.specs.Came.{IsStill, MadeLive, Moves, world_of};
ghost use Rattle.hc_objects.specs.Onward.{HasGoneOn};
ghost use Rattle.hc_plan.specs.declared.case.Op.TheVariants.{Store};
ghost use Rattle.hc_table.specs.Numbers.{IsNameNumber};
ghost use Rattle.hc_value.specs.Word.{IsInRange};
ghost use Rattle.hc_installed.specs.Answers.{IsMiss};
ghost use Rattle.hc_installed.specs.Discards.{plan_count};
ghost use Rattle.hc_session.specs.Asking.{Agree, HasAnswered, HasHit, HasMissed, IsQuick, IsReady};
ghost use Rattle.hc_session.specs.Jobs.{AreSeen};

use crate::plans::answer_by_plan;
use hc_access::entries_stay_good;
use hc_facts::constants_stay_on;
use hc_heap::{Pace, written_is_kept};
use hc_installed::{
    discard_broken, hits_are_live, loads_keep_answers, plans_stay_installed, quiet_breaks_no_plan,
};
use hc_layout::Shape;
use hc_objects::{
    Objects, fields_stay_honest, loads_come_first, operations_go_on, prototypes_stay_calm,
};
use hc_report::Log;
use hc_sites::Sites;
use hc_soundness::objects_rest;
use hc_value::{Memory, Reply, Value};

/// Asks the plan of an access's site. Where it has no answer and the receiver is deprecated, that is migrated, the plans are discarded
/// that this broke, and the site is asked once more.
pub fn ask_plan<P: Pace>(
    objects: &mut Objects<P>,
    shape: Shape,
    sites: &mut Sites,
    log: &mut Log,
    s: u32,
    o: u32,
    value: &Option<Value>,
) -> Result<Option<Reply>, Memory>
    requires shape { shape ≡ objects.old.heap.view.shape }
    requires there { o < length (world_of objects.old) }
    requires range { IfSome value.now IsInRange }
    requires given { IfSome (slice_get sites.old s) (λ state. IsSome value.now ↔ (state.site.op ≡ Store)) }
    requires name { IfSome (slice_get sites.old s) (λ state. IsNameNumber state.site.name) }
    requires agree { Agree objects.old sites.old }
    requires room { plan_count sites.old < log.old.room }
    ensures answered { IfOk result (λ found. IfSome found (λ reply. HasAnswered P.went objects.old sites.old log.old.lines s o value.now reply objects.new sites.new log.new.lines)) }
    ensures missed { IfOk result (λ found. found ≡ None → HasMissed P.went objects.old sites.old log.old.lines s o value.now objects.new sites.new log.new.lines) }
    ensures quick { OnOk result (value.now ≡ None → IsQuick 5 objects.old objects.new) }
    ensures quick_hit { IfOk result (λ found. IsSome found → value.now ≡ None → IsQuick 4 objects.old objects.new) }
    ensures room { OnOk result (plan_count sites.new ≤ log.new.room) }
    ensures free { IfOk result (λ found. found ≡ None → plan_count sites.new < log.new.room) }
    ensures calm { OnOk result (AreCalm objects.new.heap.view.trail) }
    ensures good { AreGood objects.new sites.new }
    ensures seen { AreSeen objects.new.heap.view.trail sites.new }
    ensures moves { OnErr result (Moves P.went objects.old objects.new) }
    ensures same { OnErr result (sites.new ≡ sites.old) }
    ensures quiet { OnErr result (log.new.lines ≡ log.old.lines) }
{
    loads_come_first::<P>();
    loads_keep_answers::<P>();
    quiet_breaks_no_plan();
    objects.stands();
    if let Some(reply) = ask_once(objects, shape, sites, log, s, o, value) {
        return Ok(Some(reply));
    }
    if !is_dead_receiver(objects, sites, o) {
        return Ok(None);
    }
    ask_migrated(objects, shape, sites, log, s, o, value)
}

// The same where the receiver is deprecated, and the plan was asked.
fn ask_migrated<P: Pace>(
    objects: &mut Objects<P>,
    shape: Shape,
    sites: &mut Sites,
    log: &mut Log,
    s: u32,
    o: u32,
    value: &Option<Value>,
) -> Result<Option<Reply>, Memory>
    requires shape { shape ≡ objects.old.heap.view.shape }
    requires there { o < length (world_of objects.old) }
    requires range { IfSome value.now IsInRange }
    requires given { IfSome (slice_get sites.old s) (λ state. IsSome value.now ↔ (state.site.op ≡ Store)) }
    requires name { IfSome (slice_get sites.old s) (λ state. IsNameNumber state.site.name) }
    requires agree { Agree objects.old sites.old }
    requires room { plan_count sites.old < log.old.room }
    requires dead { IsLive objects.old.heap.view.trail o → ⊥ }
    ensures answered { IfOk result (λ found. IfSome found (λ reply. HasAnswered P.went objects.old sites.old log.old.lines s o value.now reply objects.new sites.new log.new.lines)) }
    ensures missed { IfOk result (λ found. found ≡ None → HasMissed P.went objects.old sites.old log.old.lines s o value.now objects.new sites.new log.new.lines) }
    ensures stored { OnOk result (value.now ≡ None → objects.new.heap.desk.trail ≡ objects.old.heap.desk.trail → ⊥) }
    ensures room { OnOk result (plan_count sites.new ≤ log.new.room) }
    ensures free { IfOk result (λ found. found ≡ None → plan_count sites.new < log.new.room) }
    ensures calm { OnOk result (AreCalm objects.new.heap.view.trail) }
    ensures good { AreGood objects.new sites.new }
    ensures seen { AreSeen objects.new.heap.view.trail sites.new }
    ensures moves { OnErr result (Moves P.went objects.old objects.new) }
    ensures same { OnErr result (sites.new ≡ sites.old) }
    ensures quiet { OnErr result (log.new.lines ≡ log.old.lines) }
{
    ready_receiver(objects, shape, sites, log, o)?;
    Ok(ask_once(objects, shape, sites, log, s, o, value))
}

// Asks the plan, whatever the receiver is.
fn ask_once<P: Pace>(
    objects: &mut Objects<P>,
    shape: Shape,
    sites: &Sites,
    log: &mut Log,
    s: u32,
    o: u32,
    value: &Option<Value>,
) -> Option<Reply>
    requires shape { shape ≡ objects.old.heap.view.shape }
    requires there { o < length (world_of objects.old) }
    requires range { IfSome value.now IsInRange }
    requires given { IfSome (slice_get sites.now s) (λ state. IsSome value.now ↔ (state.site.op ≡ Store)) }
    requires name { IfSome (slice_get sites.now s) (λ state. IsNameNumber state.site.name) }
    requires agree { Agree objects.old sites.now }
    requires room { 0 < log.old.room }
    ensures hit { IfSome result (λ reply. HasHit P.went objects.old sites.now log.old.lines s o value.now reply objects.new log.new.lines) }
    ensures live { IsSome result → IsLive objects.old.heap.view.trail o }
    ensures miss { result ≡ None → IsMiss objects.new sites.now s o value.now }
    ensures still { result ≡ None → IsStill objects.old objects.new }
    ensures agree { result ≡ None → Agree objects.new sites.now }
    ensures quiet { result ≡ None → log.new.lines ≡ log.old.lines }
    ensures free { result ≡ None → log.new.room ≡ log.old.room }
    ensures room { log.old.room ≤ log.new.room + 1 }
    ensures loads { value.now ≡ None → OnlyLoads 3 objects.old.heap.desk objects.new.heap.desk }
    ensures goes { HasGoneOn objects.old objects.new }
    ensures calm { AreCalm objects.new.heap.view.trail }
    ensures good { AreGood objects.new sites.now }
    ensures seen { AreSeen objects.new.heap.view.trail sites.now }
{
    objects_rest();
    hits_are_live::<P>();
    loads_keep_answers::<P>();
    operations_go_on::<P>();
    prototypes_stay_calm::<P>();
    entries_stay_good::<P>();
    written_is_kept();
    objects.stands();
    let found = answer_by_plan(objects, shape, sites, log, s, o, value);
    objects.stands();
    found
}

// Migrates the receiver of an access, which is deprecated, and discards the plans that this broke.
fn ready_receiver<P: Pace>(
    objects: &mut Objects<P>,
    shape: Shape,
    sites: &mut Sites,
    log: &mut Log,
    o: u32,
) -> Result<(), Memory>
    requires shape { shape ≡ objects.old.heap.view.shape }
    requires there { o < length (world_of objects.old) }
    requires agree { Agree objects.old sites.old }
    requires room { plan_count sites.old < log.old.room }
    requires dead { IsLive objects.old.heap.view.trail o → ⊥ }
    ensures ready { OnOk result (IsReady P.went objects.old sites.old log.old.lines o objects.new sites.new log.new.lines) }
    ensures agree { OnOk result (Agree objects.new sites.new) }
    ensures live { OnOk result (IsLive objects.new.heap.view.trail o) }
    ensures stored { OnOk result (objects.new.heap.desk.trail ≡ objects.old.heap.desk.trail → ⊥) }
    ensures room { OnOk result (plan_count sites.new < log.new.room) }
    ensures good { AreGood objects.new sites.new }
    ensures seen { AreSeen objects.new.heap.view.trail sites.new }
    ensures moves { OnErr result (Moves P.went objects.old objects.new) }
    ensures same { OnErr result (sites.new ≡ sites.old) }
    ensures quiet { OnErr result (log.new.lines ≡ log.old.lines) }
{
    objects_rest();
    entries_stay_good::<P>();
    plans_stay_installed();
    migrate_receiver(objects, sites, o)?;
    objects.stands();
    let at = objects.writes();
    discard_broken(objects, shape, sites, log, at);
    objects.stands();
    Ok(())
}

// Whether the receiver of an access is deprecated.
fn is_dead_receiver<P: Pace>(objects: &mut Objects<P>, sites: &Sites, o: u32) -> bool
    requires there { o < length (world_of objects.old) }
    requires agree { Agree objects.old sites.now }
    ensures live { result ≡ false → IsLive objects.new.heap.view.trail o }
    ensures dead { result ≡ true → IsLive objects.new.heap.view.trail o → ⊥ }
    ensures still { IsStill objects.old objects.new }
    ensures loads { OnlyLoads 2 objects.old.heap.desk objects.new.heap.desk }
    ensures agree { Agree objects.new sites.now }
{
    entries_stay_good::<P>();
    objects.stands();
    let dead = has_dead_map(objects, o);
    objects.stands();
    dead
}

// Whether an object has a map that is deprecated.
fn has_dead_map<P: Pace>(objects: &mut Objects<P>, o: u32) -> bool
    requires there { o < length (world_of objects.old) }
    ensures live { result ≡ false → IsLive objects.new.heap.view.trail o }
    ensures dead { result ≡ true → IsLive objects.new.heap.view.trail o → ⊥ }
    ensures still { IsStill objects.old objects.new }
    ensures loads { OnlyLoads 2 objects.old.heap.desk objects.new.heap.desk }
{
    match objects.map_of(o) {
        Some(map) => objects.is_dead(map),
        None => false,
    }
}

// Migrates an object that is deprecated. What inline caches say stays true, constants stay, and maps stay written.
fn migrate_receiver<P: Pace>(objects: &mut Objects<P>, sites: &Sites, o: u32) -> Result<(), Memory>
    requires there { o < length (world_of objects.old) }
    requires agree { Agree objects.old sites.now }
    requires dead { IsLive objects.old.heap.view.trail o → ⊥ }
    ensures made { OnOk result (MadeLive P.went objects.old o objects.new) }
    ensures live { OnOk result (IsLive objects.new.heap.view.trail o) }
    ensures stored { OnOk result (objects.new.heap.desk.trail ≡ objects.old.heap.desk.trail → ⊥) }
    ensures moves { Moves P.went objects.old objects.new }
    ensures goes { HasGoneOn objects.old objects.new }
    ensures good { AreGood objects.new sites.now }
    ensures seen { AreSeen objects.new.heap.view.trail sites.now }
    ensures calm { AreCalm objects.new.heap.view.trail }
    ensures honest { IsHonest objects.new.heap.view.trail }
{
    entries_stay_good::<P>();
    fields_stay_honest::<P>();
    prototypes_stay_calm::<P>();
    operations_go_on::<P>();
    written_is_kept();
    objects.stands();
    let done = objects.migrate(o);
    objects.stands();
    done
}
