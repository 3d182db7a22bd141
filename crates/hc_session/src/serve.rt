//! What each command does, to objects, to sites, to jobs and to the log.
ghost use Rattle.std.specs.Prelude.{◌≡◌, ◌-◌, ◌<◌, ◌≤◌, ◌^◌, ℕ, List, false, length, IfOk, OnOk, OnErr};
ghost use Rattle.hc_value.specs.declared.word.TheConstants.{NUMBER_LIMIT, TEXT_LIMIT};
ghost use Rattle.hc_access.specs.Entries.{AreGood};
ghost use Rattle.hc_compiler.specs.Jobs.{AreReading};
ghost use Rattle.hc_report.specs.declared.line.Line.{Line};
ghost use Rattle.hc_commands.specs.declared.command.Command.TheVariants.{Declare};
ghost use Rattle.hc_installed.specs.Discards.{plan_count};
ghost use Rattle.hc_installed.specs.Installed.{AreInstalled};
ghost use Rattle.hc_modes.specs.Admitting.{IsHonest};
ghost use Rattle.hc_modes.specs.Rest.{AreCalm};
ghost use Rattle.hc_session.specs.Jobs.{AreSeen, IsNotLent};
ghost use Rattle.hc_session.specs.Plain.{HasJobNumber, HasSiteNumber, IsServed, is_beside, is_of_jobs};
ghost use Rattle.hc_session.specs.Plans.{ArePlanned, AreSitesOf};
ghost use Rattle.hc_session.specs.Serving.{AreNamedSites, Attends, KeepsOn, Serves};
ghost use Rattle.hc_session.specs.Standing.{plain_among, plain_with, tables_of};
ghost use Rattle.hc_session.specs.State.{IsTrueReply, NotedInWant, Used};
ghost use Rattle.hc_session.specs.Tables.{AnswersOnTables, HasNumbers, all_there, did_by};
ghost use Rattle.hc_session.specs.Using.{MovesInWant, is_accepted, uses_if};

use crate::exec::exec;
use crate::jobs::{compile, finish, step};
use crate::perform::perform;
use crate::plans::discard_since;
use hc_access::entries_stay_good;
use hc_compiler::{Compiler, jobs_read_on};
use hc_facts::constants_stay_on;
use hc_heap::{Pace, written_is_kept};
use hc_installed::{
    new_sites_have_no_plan, plans_stay_installed, quiet_breaks_no_plan, resting_stays,
};
use hc_layout::Shape;
use hc_objects::{Objects, cells_stand_alone, fields_stay_honest, prototypes_stay_calm};
use hc_plan::{Op, Site};
use hc_report::Log;
use hc_script::Command;
use hc_sites::Sites;
use hc_soundness::objects_rest;
use hc_value::{Memory, Reply};
use std::alloc::Global;

/// Performs a command, one of jobs or another. The allocator is for lists of names.
pub fn attend<P: Pace>(
    objects: &mut Objects<P>,
    sites: &mut Sites,
    compiler: &mut Compiler,
    log: &mut Log,
    shape: Shape,
    command: &Command,
    alloc: Global,
) -> Result<Reply, Memory>
    requires served { IsServed command.now }
    requires numbers { HasNumbers command.now }
    requires room { HasSiteNumber (length sites.old) command.now }
    requires jobs { HasJobNumber compiler.old.started command.now }
    requires own { IsNotLent compiler.old.lent command.now }
    requires shape { shape ≡ objects.old.heap.view.shape }
    requires few { objects.old.heap.view.shape.objects ≤ NUMBER_LIMIT }
    requires names { AreNamedSites TEXT_LIMIT (plain_with objects.old sites.old).sites }
    requires good { AreGood objects.old sites.old }
    requires seen { AreSeen objects.old.heap.view.trail sites.old }
    requires reading { AreReading objects.old compiler.old.jobs }
    requires line { plan_count sites.old < log.old.room }
    requires calm { AreCalm objects.old.heap.view.trail }
    requires honest { IsHonest objects.old.heap.view.trail }
    requires opened { AreSitesOf sites.old compiler.old.jobs }
    requires planned { ArePlanned objects.old sites.old compiler.old.jobs }
    ensures attends { IfOk result (λ reply. Attends P.went objects.old sites.old compiler.old log.old.lines command.now reply
        objects.new sites.new compiler.new log.new.lines) }
    ensures wants { OnErr result (MovesInWant P.went objects.old
        (uses_if (is_accepted (plain_among objects.old sites.old compiler.old) command.now) command.now) objects.new) }
    ensures noted { OnErr result (NotedInWant P.went objects.old sites.old log.old.lines command.now sites.new log.new.lines) }
    ensures idle { OnErr result (compiler.new ≡ compiler.old) }
    ensures keeps { KeepsOn objects.old objects.new }
    ensures names { AreNamedSites TEXT_LIMIT (plain_with objects.new sites.new).sites }
    ensures good { AreGood objects.new sites.new }
    ensures seen { AreSeen objects.new.heap.view.trail sites.new }
    ensures reading { AreReading objects.new compiler.new.jobs }
    ensures opened { AreSitesOf sites.new compiler.new.jobs }
    ensures planned { OnOk result (ArePlanned objects.new sites.new compiler.new.jobs) }
{
    objects_rest();
    objects.stands();
    match command {
        Command::Compile(s) => compile(objects, sites, compiler, shape, *s),
        Command::Step(j, reads) => Ok(step(objects, sites, compiler, *j, *reads)),
        Command::Finish(j) => Ok(finish(objects, sites, compiler, log, shape, *j)),
        _ => serve_beside(objects, sites, compiler, log, shape, command, alloc),
    }
}

// Performs a command that isn't one of jobs. Open jobs read on, and the maps that sites have seen are written.
fn serve_beside<P: Pace>(
    objects: &mut Objects<P>,
    sites: &mut Sites,
    compiler: &Compiler,
    log: &mut Log,
    shape: Shape,
    command: &Command,
    alloc: Global,
) -> Result<Reply, Memory>
    requires served { IsServed command.now }
    requires beside { is_of_jobs command.now ≡ false }
    requires numbers { HasNumbers command.now }
    requires room { HasSiteNumber (length sites.old) command.now }
    requires few { objects.old.heap.view.shape.objects ≤ NUMBER_LIMIT }
    requires names { AreNamedSites TEXT_LIMIT (plain_with objects.old sites.old).sites }
    requires good { AreGood objects.old sites.old }
    requires seen { AreSeen objects.old.heap.view.trail sites.old }
    requires reading { AreReading objects.old compiler.now.jobs }
    requires line { plan_count sites.old < log.old.room }
    requires shape { shape ≡ objects.old.heap.view.shape }
    requires calm { AreCalm objects.old.heap.view.trail }
    requires honest { IsHonest objects.old.heap.view.trail }
    requires opened { AreSitesOf sites.old compiler.now.jobs }
    requires planned { ArePlanned objects.old sites.old compiler.now.jobs }
    ensures serves { IfOk result (λ reply. Serves P.went objects.old sites.old log.old.lines command.now reply
        objects.new sites.new log.new.lines) }
    ensures wants { OnErr result (MovesInWant P.went objects.old (uses_if (is_accepted (plain_with objects.old sites.old) command.now) command.now)
        objects.new) }
    ensures noted { OnErr result (NotedInWant P.went objects.old sites.old log.old.lines command.now sites.new log.new.lines) }
    ensures keeps { KeepsOn objects.old objects.new }
    ensures names { AreNamedSites TEXT_LIMIT (plain_with objects.new sites.new).sites }
    ensures good { AreGood objects.new sites.new }
    ensures seen { AreSeen objects.new.heap.view.trail sites.new }
    ensures reading { AreReading objects.new compiler.now.jobs }
    ensures opened { AreSitesOf sites.new compiler.now.jobs }
    ensures planned { OnOk result (ArePlanned objects.new sites.new compiler.now.jobs) }
{
    prototypes_stay_calm::<P>();
    fields_stay_honest::<P>();
    cells_stand_alone::<P>();
    constants_stay_on();
    jobs_read_on::<P>();
    resting_stays();
    objects.stands();
    let reply = serve(objects, sites, log, shape, command, alloc);
    objects.stands();
    reply
}

// Performs a command on objects or sites.
fn serve<P: Pace>(
    objects: &mut Objects<P>,
    sites: &mut Sites,
    log: &mut Log,
    shape: Shape,
    command: &Command,
    alloc: Global,
) -> Result<Reply, Memory>
    requires served { IsServed command.now }
    requires beside { is_of_jobs command.now ≡ false }
    requires numbers { HasNumbers command.now }
    requires room { HasSiteNumber (length sites.old) command.now }
    requires few { objects.old.heap.view.shape.objects ≤ NUMBER_LIMIT }
    requires names { AreNamedSites TEXT_LIMIT (plain_with objects.old sites.old).sites }
    requires good { AreGood objects.old sites.old }
    requires seen { AreSeen objects.old.heap.view.trail sites.old }
    requires line { plan_count sites.old < log.old.room }
    requires shape { shape ≡ objects.old.heap.view.shape }
    requires calm { AreCalm objects.old.heap.view.trail }
    requires honest { IsHonest objects.old.heap.view.trail }
    requires installed { AreInstalled objects.old.heap.view.shape objects.old.heap.view.trail sites.old }
    ensures serves { IfOk result (λ reply. Serves P.went objects.old sites.old log.old.lines command.now reply
        objects.new sites.new log.new.lines) }
    ensures wants { OnErr result (MovesInWant P.went objects.old (uses_if (is_accepted (plain_with objects.old sites.old) command.now) command.now)
        objects.new) }
    ensures noted { OnErr result (NotedInWant P.went objects.old sites.old log.old.lines command.now sites.new log.new.lines) }
    ensures good { AreGood objects.new sites.new }
    ensures seen { AreSeen objects.new.heap.view.trail sites.new }
    ensures limit { objects.new.heap.view.shape.objects ≡ objects.old.heap.view.shape.objects }
    ensures installed { OnOk result (AreInstalled objects.new.heap.view.shape objects.new.heap.view.trail sites.new) }
{
    match command {
        Command::Declare(op, name) => declare(objects, sites, *op, *name),
        Command::Exec(s, o, value) => exec(objects, sites, log, shape, *s, *o, *value),
        _ => serve_objects(objects, sites, log, shape, command, alloc),
    }
}

// Performs a command on objects, and discards the plans that it broke. What inline caches say stays true, and maps stay written.
fn serve_objects<P: Pace>(
    objects: &mut Objects<P>,
    sites: &mut Sites,
    log: &mut Log,
    shape: Shape,
    command: &Command,
    alloc: Global,
) -> Result<Reply, Memory>
    requires served { IsServed command.now }
    requires objects { is_beside command.now ≡ false }
    requires numbers { HasNumbers command.now }
    requires few { objects.old.heap.view.shape.objects ≤ NUMBER_LIMIT }
    requires good { AreGood objects.old sites.old }
    requires seen { AreSeen objects.old.heap.view.trail sites.old }
    requires line { plan_count sites.old < log.old.room }
    requires shape { shape ≡ objects.old.heap.view.shape }
    requires calm { AreCalm objects.old.heap.view.trail }
    requires honest { IsHonest objects.old.heap.view.trail }
    requires installed { AreInstalled objects.old.heap.view.shape objects.old.heap.view.trail sites.old }
    ensures serves { IfOk result (λ reply. Serves P.went objects.old sites.old log.old.lines command.now reply
        objects.new sites.new log.new.lines) }
    ensures wants { OnErr result (MovesInWant P.went objects.old (uses_if (all_there (tables_of objects.old) command.now) command.now)
        objects.new) }
    ensures same { OnErr result (sites.new ≡ sites.old) }
    ensures quiet { OnErr result (log.new.lines ≡ log.old.lines) }
    ensures good { AreGood objects.new sites.new }
    ensures seen { AreSeen objects.new.heap.view.trail sites.new }
    ensures limit { objects.new.heap.view.shape.objects ≡ objects.old.heap.view.shape.objects }
    ensures installed { OnOk result (AreInstalled objects.new.heap.view.shape objects.new.heap.view.trail sites.new) }
{
    plans_stay_installed();
    quiet_breaks_no_plan();
    objects_rest();
    objects.stands();
    let before = objects.writes();
    let reply = perform_whole(objects, sites, command, alloc)?;
    objects.stands();
    discard_since(objects, shape, sites, log, before);
    Ok(reply)
}

// The same, up to the discards of its end. What fields and constants say stays true.
fn perform_whole<P: Pace>(
    objects: &mut Objects<P>,
    sites: &Sites,
    command: &Command,
    alloc: Global,
) -> Result<Reply, Memory>
    requires served { IsServed command.now }
    requires objects { is_beside command.now ≡ false }
    requires numbers { HasNumbers command.now }
    requires few { objects.old.heap.view.shape.objects ≤ NUMBER_LIMIT }
    requires good { AreGood objects.old sites.now }
    requires seen { AreSeen objects.old.heap.view.trail sites.now }
    ensures answers { IfOk result (λ reply. AnswersOnTables (tables_of objects.old) command.now reply (tables_of objects.new)) }
    ensures kept { IfOk result (λ reply. IsTrueReply objects.new command.now reply) }
    ensures used { OnOk result (Used P.went objects.old (all_there (tables_of objects.old) command.now) command.now
        (did_by (tables_of objects.old) command.now) objects.new) }
    ensures wants { OnErr result (MovesInWant P.went objects.old (uses_if (all_there (tables_of objects.old) command.now) command.now)
        objects.new) }
    ensures keeps { KeepsOn objects.old objects.new }
    ensures good { AreGood objects.new sites.now }
    ensures seen { AreSeen objects.new.heap.view.trail sites.now }
    ensures limit { objects.new.heap.view.shape.objects ≡ objects.old.heap.view.shape.objects }
{
    entries_stay_good::<P>();
    fields_stay_honest::<P>();
    prototypes_stay_calm::<P>();
    cells_stand_alone::<P>();
    constants_stay_on();
    written_is_kept();
    objects.stands();
    let reply = perform(objects, command, alloc);
    objects.stands();
    reply
}

// Declares a site that reads or writes a property of this name.
fn declare<P: Pace>(
    objects: &Objects<P>,
    sites: &mut Sites,
    op: Op,
    name: u32,
) -> Result<Reply, Memory>
    requires room { length sites.old < 2 ^ 32 - 1 }
    requires good { AreGood objects.now sites.old }
    requires seen { AreSeen objects.now.heap.view.trail sites.old }
    requires installed { AreInstalled objects.now.heap.view.shape objects.now.heap.view.trail sites.old }
    ensures serves { IfOk result (λ reply. (log : List (ℕ × Line)) → Serves P.went objects.now sites.old log (Declare op name) reply
        objects.now sites.new log) }
    ensures installed { AreInstalled objects.now.heap.view.shape objects.now.heap.view.trail sites.new }
    ensures same { OnErr result (sites.new ≡ sites.old) }
    ensures good { AreGood objects.now sites.new }
    ensures seen { AreSeen objects.now.heap.view.trail sites.new }
{
    new_sites_have_no_plan();
    quiet_breaks_no_plan();
    objects.stands();
    Ok(Reply::Site(sites.declare(Site { op, name })?))
}
