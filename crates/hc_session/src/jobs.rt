//! The commands of jobs.
ghost use Rattle.std.specs.Prelude.{◌≡◌, ◌<◌, ◌-◌, ◌^◌, ℕ, List, false, IfOk, OnErr};
ghost use Rattle.hc_commands.specs.declared.command.Command.TheVariants.{Compile, Finish, Step};
ghost use Rattle.hc_commands.specs.declared.command.Reads.TheVariants.{All as AskedAll};
ghost use Rattle.hc_compiler.specs.Jobs.{AreReading, is_lent};
ghost use Rattle.hc_soundness.specs.Rest.{IsRest};
ghost use Rattle.hc_report.specs.declared.line.Line.{Line};
ghost use Rattle.hc_sites.specs.declared.state.SiteState.{SiteState};
ghost use Rattle.hc_session.specs.Jobs.{AreSeen, HaveMet, reads_for};
ghost use Rattle.hc_session.specs.Plans.{AreSitesOf, ArePlanned};
ghost use Rattle.hc_session.specs.Serving.{ServesJobs};

use hc_commands::Reads as Asked;
use hc_compiler::{Compiler, Ended, Reads};
use hc_heap::Pace;
use hc_installed::{outcomes_stay_installed, refused_had_held, rest_is_now, settle};
use hc_layout::Shape;
use hc_objects::Objects;
use hc_report::Log;
use hc_sites::Sites;
use hc_value::{Memory, Reply};

/// Starts a job for a site, where the site is there, and there is room for a job more.
pub fn compile<P: Pace>(
    objects: &mut Objects<P>,
    sites: &Sites,
    compiler: &mut Compiler,
    shape: Shape,
    s: u32,
) -> Result<Reply, Memory>
    requires shape { shape ≡ objects.old.heap.view.shape }
    requires numbers { compiler.old.started < 2 ^ 32 - 1 }
    requires seen { AreSeen objects.old.heap.view.trail sites.now }
    requires reading { AreReading objects.old compiler.old.jobs }
    requires opened { AreSitesOf sites.now compiler.old.jobs }
    requires planned { ArePlanned objects.old sites.now compiler.old.jobs }
    ensures serves { IfOk result (λ reply. (log : List (ℕ × Line)) → ServesJobs objects.old sites.now compiler.old log (Compile s) reply
        objects.new sites.now compiler.new log) }
    ensures same { objects.new ≡ objects.old }
    ensures idle { OnErr result (compiler.new ≡ compiler.old) }
    ensures reading { AreReading objects.new compiler.new.jobs }
    ensures opened { AreSitesOf sites.now compiler.new.jobs }
    ensures planned { ArePlanned objects.new sites.now compiler.new.jobs }
{
    if s >= sites.len() {
        return Ok(Reply::NoSite);
    }
    if !compiler.may_open() {
        return Ok(Reply::NoRoom);
    }
    let number = compiler.start(objects, shape, sites, s)?;
    Ok(Reply::Job(number))
}

/// Lets a job make reads, if it is open: all that are left, so these are words of this moment.
pub fn step<P: Pace>(
    objects: &mut Objects<P>,
    sites: &Sites,
    compiler: &mut Compiler,
    j: u32,
    reads: Asked,
) -> Reply
    requires own { is_lent compiler.old.lent j ≡ false }
    requires all { reads ≡ AskedAll }
    requires reading { AreReading objects.old compiler.old.jobs }
    requires opened { AreSitesOf sites.now compiler.old.jobs }
    requires rest { IsRest objects.old.heap.view objects.old.kept }
    requires planned { ArePlanned objects.old sites.now compiler.old.jobs }
    ensures serves { (log : List (ℕ × Line)) → ServesJobs objects.old sites.now compiler.old log (Step j reads) result
        objects.new sites.now compiler.new log }
    ensures met { HaveMet objects.old objects.new }
    ensures reading { AreReading objects.new compiler.new.jobs }
    ensures opened { AreSitesOf sites.now compiler.new.jobs }
    ensures planned { ArePlanned objects.new sites.now compiler.new.jobs }
{
    rest_is_now();
    if !compiler.is_open(j) {
        return Reply::NoJob;
    }
    objects.stands();
    compiler.step(objects, j, reads_for(reads));
    Reply::Fine
}

/// Lets a job make all reads that are left, and ends it, if it is open: its plan is installed at its site where each dependency holds,
/// and else refused; the log tells which, or why there is no plan.
pub fn finish<P: Pace>(
    objects: &mut Objects<P>,
    sites: &mut Sites,
    compiler: &mut Compiler,
    log: &mut Log,
    shape: Shape,
    j: u32,
) -> Reply
    requires own { is_lent compiler.old.lent j ≡ false }
    requires shape { shape ≡ objects.old.heap.view.shape }
    requires reading { AreReading objects.old compiler.old.jobs }
    requires opened { AreSitesOf sites.old compiler.old.jobs }
    requires rest { IsRest objects.old.heap.view objects.old.kept }
    requires planned { ArePlanned objects.old sites.old compiler.old.jobs }
    requires room { 0 < log.old.room }
    ensures serves { ServesJobs objects.old sites.old compiler.old log.old.lines (Finish j) result
        objects.new sites.new compiler.new log.new.lines }
    ensures met { HaveMet objects.old objects.new }
    ensures reading { AreReading objects.new compiler.new.jobs }
    ensures opened { AreSitesOf sites.new compiler.new.jobs }
    ensures planned { ArePlanned objects.new sites.new compiler.new.jobs }
{
    outcomes_stay_installed();
    refused_had_held();
    rest_is_now();
    if !compiler.is_open(j) {
        return Reply::NoJob;
    }
    objects.stands();
    let at = objects.writes();
    let Ended { site, outcome } = compiler.finish(objects, j);
    objects.stands();
    settle(objects, shape, sites, log, at, j, site, outcome);
    Reply::Finished
}

// How many reads a command asks for.
fn reads_for(reads: Asked) -> Reads
    ensures { result ≡ reads_for reads }
{
    match reads {
        Asked::Count(n) => Reads::Count(n),
        Asked::All => Reads::All,
    }
}
