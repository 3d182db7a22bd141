//! Accesses of sites.
ghost use Rattle.std.specs.Prelude.{◌≡◌, ◌+◌, ◌<◌, ◌≤◌, true, [], ◌∷◌, ◌++◌, length, Some, None, IfOk, OnOk, OnErr};
ghost use Rattle.hc_access.specs.Accesses.{note_events, site_at, with_events};
ghost use Rattle.hc_access.specs.Entries.{AreGood};
ghost use Rattle.hc_board.specs.States.{words_of};
ghost use Rattle.hc_plan.specs.declared.case.Op.TheVariants.{Load, Store};
ghost use Rattle.hc_value.specs.declared.word.TheConstants.{NUMBER_LIMIT, TEXT_LIMIT};
ghost use Rattle.hc_value.specs.Word.{IsInRange};
ghost use Rattle.hc_modes.specs.State.{IsLive};
ghost use Rattle.hc_modes.specs.Admitting.{IsHonest};
ghost use Rattle.hc_modes.specs.Rest.{AreCalm};
ghost use Rattle.hc_objects.specs.Came.{Moves, world_of};
ghost use Rattle.hc_ops.specs.Get.{get_reply};
ghost use Rattle.hc_ops.specs.Set.{set_act};
ghost use Rattle.hc_commands.specs.declared.command.Command.TheVariants.{Exec};
ghost use Rattle.hc_installed.specs.Discards.{plan_count};
ghost use Rattle.hc_installed.specs.Installed.{AreInstalled};
ghost use Rattle.hc_installed.specs.Laws.{AreUnbroken};
ghost use Rattle.hc_session.specs.Asking.{Agree, HasAccessed, HasPassed};
ghost use Rattle.hc_session.specs.Jobs.{AreSeen};
ghost use Rattle.hc_session.specs.Plain.{is_access};
ghost use Rattle.hc_session.specs.Serving.{AreNamedSites, Serves, way_line};
ghost use Rattle.hc_session.specs.Standing.{plain_with};
ghost use Rattle.hc_session.specs.State.{NotedInWant};
ghost use Rattle.hc_session.specs.Tables.{HasNumbers, names_among, says};
ghost use Rattle.hc_session.specs.Using.{MovesInWant, uses_if};

use crate::asking::ask_plan;
use crate::perform::is_value_there;
use crate::plans::discard_since;
use hc_access::{asking_is_little, entries_stay_good, load, store};
use hc_heap::{Pace, forms_are_kept, stores_are_writes, written_is_kept};
use hc_installed::{
    other_events_add_no_plan, other_events_keep_plans, plans_stay_installed, quiet_breaks_no_plan,
};
use hc_layout::Shape;
use hc_objects::{Objects, cells_stand_alone, operations_go_on, prototypes_stay_calm};
use hc_plan::Op;
use hc_report::{Line, Log};
use hc_sites::Sites;
use hc_soundness::objects_rest;
use hc_value::{Memory, Reply, Value};

/// Answers an access of a site: a site that isn't there, then a value where the site takes none, or none where it takes one, and
/// then an object that isn't there refuse it. The site's plan is asked; where it has no answer, and the receiver is deprecated, that is
/// migrated, plans are discarded that this broke, and the plan is asked once more; and then it is the inline cache or full lookup. An
/// access that is accepted puts one line into the log, and plans that it breaks are discarded at its end.
pub fn exec<P: Pace>(
    objects: &mut Objects<P>,
    sites: &mut Sites,
    log: &mut Log,
    shape: Shape,
    s: u32,
    o: u32,
    value: Option<Value>,
) -> Result<Reply, Memory>
    requires numbers { HasNumbers (Exec s o value) }
    requires names { AreNamedSites TEXT_LIMIT (plain_with objects.old sites.old).sites }
    requires few { objects.old.heap.view.shape.objects ≤ NUMBER_LIMIT }
    requires shape { shape ≡ objects.old.heap.view.shape }
    requires good { AreGood objects.old sites.old }
    requires seen { AreSeen objects.old.heap.view.trail sites.old }
    requires calm { AreCalm objects.old.heap.view.trail }
    requires honest { IsHonest objects.old.heap.view.trail }
    requires installed { AreInstalled objects.old.heap.view.shape objects.old.heap.view.trail sites.old }
    requires room { plan_count sites.old < log.old.room }
    ensures serves { IfOk result (λ reply. Serves P.went objects.old sites.old log.old.lines (Exec s o value) reply
        objects.new sites.new log.new.lines) }
    ensures moves { OnErr result (MovesInWant P.went objects.old (uses_if (is_access (plain_with objects.old sites.old) (Exec s o value)) (Exec s o value))
        objects.new) }
    ensures noted { OnErr result (NotedInWant P.went objects.old sites.old log.old.lines (Exec s o value) sites.new log.new.lines) }
    ensures installed { OnOk result (AreInstalled objects.new.heap.view.shape objects.new.heap.view.trail sites.new) }
    ensures good { AreGood objects.new sites.new }
    ensures seen { AreSeen objects.new.heap.view.trail sites.new }
    ensures limit { objects.new.heap.view.shape.objects ≡ objects.old.heap.view.shape.objects }
{
    plans_stand(objects, sites);
    let Some(site) = sites.site(s) else {
        return Ok(Reply::NoSite);
    };
    match site.op {
        Op::Load => exec_load(objects, sites, log, shape, s, o, site.name, value),
        Op::Store => exec_store(objects, sites, log, shape, s, o, site.name, &value),
    }
}

// No plan of a site is broken before an access.
fn plans_stand<P: Pace>(objects: &Objects<P>, sites: &Sites)
    requires agree { Agree objects.now sites.now }
    ensures unbroken { AreUnbroken objects.now.heap.view.shape (words_of objects.now.heap.desk) sites.now }
{
    quiet_breaks_no_plan();
    objects.stands();
}

// The same at a site that reads. Where a plan answers, or the inline cache, nothing is stored, and no plan is looked at.
fn exec_load<P: Pace>(
    objects: &mut Objects<P>,
    sites: &mut Sites,
    log: &mut Log,
    shape: Shape,
    s: u32,
    o: u32,
    name: u32,
    value: Option<Value>,
) -> Result<Reply, Memory>
    requires names { name < TEXT_LIMIT }
    requires site { site_at sites.old s ≡ Some (record { op = Load; name = name }) }
    requires shape { shape ≡ objects.old.heap.view.shape }
    requires agree { Agree objects.old sites.old }
    requires room { plan_count sites.old < log.old.room }
    ensures serves { IfOk result (λ reply. Serves P.went objects.old sites.old log.old.lines (Exec s o value) reply
        objects.new sites.new log.new.lines) }
    ensures moves { OnErr result (MovesInWant P.went objects.old (uses_if (is_access (plain_with objects.old sites.old) (Exec s o value)) (Exec s o value))
        objects.new) }
    ensures noted { OnErr result (NotedInWant P.went objects.old sites.old log.old.lines (Exec s o value) sites.new log.new.lines) }
    ensures installed { OnOk result (AreInstalled objects.new.heap.view.shape objects.new.heap.view.trail sites.new) }
    ensures good { AreGood objects.new sites.new }
    ensures seen { AreSeen objects.new.heap.view.trail sites.new }
    ensures limit { objects.new.heap.view.shape.objects ≡ objects.old.heap.view.shape.objects }
{
    plans_stand(objects, sites);
    if value.is_some() {
        return Ok(Reply::WrongSite);
    }
    if o >= objects.count() {
        return Ok(Reply::NoObject);
    }
    load_whole(objects, sites, log, shape, s, o, name)
}

// A load that is accepted. A cell at most is stored, which breaks no plan.
fn load_whole<P: Pace>(
    objects: &mut Objects<P>,
    sites: &mut Sites,
    log: &mut Log,
    shape: Shape,
    s: u32,
    o: u32,
    name: u32,
) -> Result<Reply, Memory>
    requires there { o < length (world_of objects.old) }
    requires names { name < TEXT_LIMIT }
    requires site { site_at sites.old s ≡ Some (record { op = Load; name = name }) }
    requires shape { shape ≡ objects.old.heap.view.shape }
    requires agree { Agree objects.old sites.old }
    requires room { plan_count sites.old < log.old.room }
    ensures serves { IfOk result (λ reply. Serves P.went objects.old sites.old log.old.lines (Exec s o None) reply
        objects.new sites.new log.new.lines) }
    ensures moves { OnErr result (MovesInWant P.went objects.old (uses_if (is_access (plain_with objects.old sites.old) (Exec s o None)) (Exec s o None))
        objects.new) }
    ensures noted { OnErr result (NotedInWant P.went objects.old sites.old log.old.lines (Exec s o None) sites.new log.new.lines) }
    ensures installed { OnOk result (AreInstalled objects.new.heap.view.shape objects.new.heap.view.trail sites.new) }
    ensures good { AreGood objects.new sites.new }
    ensures seen { AreSeen objects.new.heap.view.trail sites.new }
    ensures limit { objects.new.heap.view.shape.objects ≡ objects.old.heap.view.shape.objects }
{
    quiet_breaks_no_plan();
    plans_stay_installed();
    objects_rest();
    let reply = load_at(objects, sites, log, shape, s, o, name)?;
    objects.stands();
    Ok(reply)
}

// The same, of which the discards of its end are none.
fn load_at<P: Pace>(
    objects: &mut Objects<P>,
    sites: &mut Sites,
    log: &mut Log,
    shape: Shape,
    s: u32,
    o: u32,
    name: u32,
) -> Result<Reply, Memory>
    requires there { o < length (world_of objects.old) }
    requires names { name < TEXT_LIMIT }
    requires site { site_at sites.old s ≡ Some (record { op = Load; name = name }) }
    requires shape { shape ≡ objects.old.heap.view.shape }
    requires agree { Agree objects.old sites.old }
    requires room { plan_count sites.old < log.old.room }
    ensures accessed { IfOk result (λ reply. HasAccessed P.went objects.old sites.old log.old.lines s o (record { op = Load; name = name }) None
        (says (get_reply (world_of objects.old) o name)) reply objects.new sites.new log.new.lines) }
    ensures moves { OnErr result (MovesInWant P.went objects.old (o ∷ []) objects.new) }
    ensures noted { OnErr result (NotedInWant P.went objects.old sites.old log.old.lines (Exec s o None) sites.new log.new.lines) }
    ensures calm { OnOk result (AreCalm objects.new.heap.view.trail) }
    ensures good { AreGood objects.new sites.new }
    ensures seen { AreSeen objects.new.heap.view.trail sites.new }
{
    if let Some(reply) = ask_plan(objects, shape, sites, log, s, o, &None)? {
        return Ok(reply);
    }
    Ok(load_past(objects, sites, log, s, o, name))
}

// A load that no plan answers.
fn load_past<P: Pace>(
    objects: &mut Objects<P>,
    sites: &mut Sites,
    log: &mut Log,
    s: u32,
    o: u32,
    name: u32,
) -> Reply
    requires there { o < length (world_of objects.old) }
    requires live { IsLive objects.old.heap.view.trail o }
    requires site { site_at sites.old s ≡ Some (record { op = Load; name = name }) }
    requires agree { Agree objects.old sites.old }
    requires room { plan_count sites.old < log.old.room }
    ensures passed { HasPassed P.went objects.old sites.old log.old.lines s o (record { op = Load; name = name })
        (says (get_reply (world_of objects.old) o name)) result objects.new sites.new log.new.lines }
    ensures calm { AreCalm objects.new.heap.view.trail }
    ensures good { AreGood objects.new sites.new }
    ensures seen { AreSeen objects.new.heap.view.trail sites.new }
{
    cells_stand_alone::<P>();
    forms_are_kept();
    written_is_kept();
    other_events_keep_plans();
    operations_go_on::<P>();
    asking_is_little::<P>();
    objects.stands();
    let at = objects.writes();
    let done = load(objects, sites, s, o, name);
    put_line(log, at, s, done.by_cache);
    done.reply
}

// The same at a site that writes.
fn exec_store<P: Pace>(
    objects: &mut Objects<P>,
    sites: &mut Sites,
    log: &mut Log,
    shape: Shape,
    s: u32,
    o: u32,
    name: u32,
    value: &Option<Value>,
) -> Result<Reply, Memory>
    requires numbers { HasNumbers (Exec s o value.now) }
    requires names { name < TEXT_LIMIT }
    requires site { site_at sites.old s ≡ Some (record { op = Store; name = name }) }
    requires few { objects.old.heap.view.shape.objects ≤ NUMBER_LIMIT }
    requires shape { shape ≡ objects.old.heap.view.shape }
    requires agree { Agree objects.old sites.old }
    requires room { plan_count sites.old < log.old.room }
    ensures serves { IfOk result (λ reply. Serves P.went objects.old sites.old log.old.lines (Exec s o value.now) reply
        objects.new sites.new log.new.lines) }
    ensures moves { OnErr result (MovesInWant P.went objects.old (uses_if (is_access (plain_with objects.old sites.old) (Exec s o value.now)) (Exec s o value.now))
        objects.new) }
    ensures noted { OnErr result (NotedInWant P.went objects.old sites.old log.old.lines (Exec s o value.now) sites.new log.new.lines) }
    ensures installed { OnOk result (AreInstalled objects.new.heap.view.shape objects.new.heap.view.trail sites.new) }
    ensures good { AreGood objects.new sites.new }
    ensures seen { AreSeen objects.new.heap.view.trail sites.new }
    ensures limit { objects.new.heap.view.shape.objects ≡ objects.old.heap.view.shape.objects }
{
    plans_stand(objects, sites);
    let Some(given) = value else {
        return Ok(Reply::WrongSite);
    };
    let count = objects.count();
    if o >= count || !is_value_there(*given, count) {
        return Ok(Reply::NoObject);
    }
    store_whole(objects, sites, log, shape, s, o, name, value, *given)
}

// A store that is accepted.
fn store_whole<P: Pace>(
    objects: &mut Objects<P>,
    sites: &mut Sites,
    log: &mut Log,
    shape: Shape,
    s: u32,
    o: u32,
    name: u32,
    given: &Option<Value>,
    value: Value,
) -> Result<Reply, Memory>
    requires there { o < length (world_of objects.old) }
    requires given { given.now ≡ Some value }
    requires named { names_among (length (world_of objects.old)) value ≡ true }
    requires names { name < TEXT_LIMIT }
    requires range { IsInRange value }
    requires site { site_at sites.old s ≡ Some (record { op = Store; name = name }) }
    requires shape { shape ≡ objects.old.heap.view.shape }
    requires agree { Agree objects.old sites.old }
    requires room { plan_count sites.old < log.old.room }
    ensures serves { IfOk result (λ reply. Serves P.went objects.old sites.old log.old.lines (Exec s o (Some value)) reply
        objects.new sites.new log.new.lines) }
    ensures moves { OnErr result (MovesInWant P.went objects.old (uses_if (is_access (plain_with objects.old sites.old) (Exec s o (Some value))) (Exec s o (Some value)))
        objects.new) }
    ensures noted { OnErr result (NotedInWant P.went objects.old sites.old log.old.lines (Exec s o (Some value)) sites.new log.new.lines) }
    ensures installed { OnOk result (AreInstalled objects.new.heap.view.shape objects.new.heap.view.trail sites.new) }
    ensures good { AreGood objects.new sites.new }
    ensures seen { AreSeen objects.new.heap.view.trail sites.new }
    ensures limit { objects.new.heap.view.shape.objects ≡ objects.old.heap.view.shape.objects }
{
    entries_stay_good::<P>();
    quiet_breaks_no_plan();
    plans_stay_installed();
    operations_go_on::<P>();
    stores_are_writes();
    objects_rest();
    objects.stands();
    let before = objects.writes();
    let reply = store_at(objects, sites, log, shape, s, o, name, given, value)?;
    objects.stands();
    discard_since(objects, shape, sites, log, before);
    objects.stands();
    Ok(reply)
}

// The same up to the discards of its end.
fn store_at<P: Pace>(
    objects: &mut Objects<P>,
    sites: &mut Sites,
    log: &mut Log,
    shape: Shape,
    s: u32,
    o: u32,
    name: u32,
    given: &Option<Value>,
    value: Value,
) -> Result<Reply, Memory>
    requires there { o < length (world_of objects.old) }
    requires given { given.now ≡ Some value }
    requires named { names_among (length (world_of objects.old)) value ≡ true }
    requires names { name < TEXT_LIMIT }
    requires range { IsInRange value }
    requires site { site_at sites.old s ≡ Some (record { op = Store; name = name }) }
    requires shape { shape ≡ objects.old.heap.view.shape }
    requires agree { Agree objects.old sites.old }
    requires room { plan_count sites.old < log.old.room }
    ensures accessed { IfOk result (λ reply. HasAccessed P.went objects.old sites.old log.old.lines s o (record { op = Store; name = name }) (Some value)
        (set_act (world_of objects.old) o name value) reply objects.new sites.new log.new.lines) }
    ensures room { OnOk result (plan_count sites.new ≤ log.new.room) }
    ensures moves { OnErr result (MovesInWant P.went objects.old (o ∷ []) objects.new) }
    ensures noted { OnErr result (NotedInWant P.went objects.old sites.old log.old.lines (Exec s o (Some value)) sites.new log.new.lines) }
    ensures calm { OnOk result (AreCalm objects.new.heap.view.trail) }
    ensures good { AreGood objects.new sites.new }
    ensures seen { AreSeen objects.new.heap.view.trail sites.new }
{
    if let Some(reply) = ask_plan(objects, shape, sites, log, s, o, given)? {
        return Ok(reply);
    }
    store_past(objects, sites, log, s, o, name, value)
}

// A store that no plan answers.
fn store_past<P: Pace>(
    objects: &mut Objects<P>,
    sites: &mut Sites,
    log: &mut Log,
    s: u32,
    o: u32,
    name: u32,
    value: Value,
) -> Result<Reply, Memory>
    requires there { o < length (world_of objects.old) }
    requires live { IsLive objects.old.heap.view.trail o }
    requires names { name < TEXT_LIMIT }
    requires range { IsInRange value }
    requires site { site_at sites.old s ≡ Some (record { op = Store; name = name }) }
    requires agree { Agree objects.old sites.old }
    requires room { plan_count sites.old < log.old.room }
    ensures passed { IfOk result (λ reply. HasPassed P.went objects.old sites.old log.old.lines s o (record { op = Store; name = name })
        (set_act (world_of objects.old) o name value) reply objects.new sites.new log.new.lines) }
    ensures room { OnOk result (plan_count sites.new ≤ log.new.room) }
    ensures moves { OnErr result (Moves P.went objects.old objects.new) }
    ensures noted { OnErr result (sites.new ≡ with_events sites.old s (note_events objects.old sites.old s o)) }
    ensures quiet { OnErr result (log.new.lines ≡ log.old.lines) }
    ensures calm { OnOk result (AreCalm objects.new.heap.view.trail) }
    ensures good { AreGood objects.new sites.new }
    ensures seen { AreSeen objects.new.heap.view.trail sites.new }
{
    prototypes_stay_calm::<P>();
    forms_are_kept();
    written_is_kept();
    other_events_keep_plans();
    other_events_add_no_plan();
    operations_go_on::<P>();
    objects.stands();
    let at = objects.writes();
    let done = store(objects, sites, s, o, name, value)?;
    objects.stands();
    put_line(log, at, s, done.by_cache);
    Ok(done.reply)
}

// Puts the line of an access into the log that no plan answered.
fn put_line(log: &mut Log, at: u64, s: u32, by_cache: bool)
    requires room { 0 < log.old.room }
    ensures lines { log.new.lines ≡ log.old.lines ++ (at, way_line by_cache s) ∷ [] }
    ensures room { log.new.room + 1 ≡ log.old.room }
{
    let line = if by_cache {
        Line::Cache(s)
    } else {
        Line::Slow(s)
    };
    log.push(at, line);
}
