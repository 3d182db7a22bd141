//! What becomes of a job's outcome, with its line.
ghost use Rattle.std.specs.Prelude.{◌≡◌, ◌+◌, ◌<◌, ◌++◌, [], ◌∷◌, length};
ghost use Rattle.hc_deps.specs.Verdicts.{sites_after};
ghost use Rattle.hc_objects.specs.Came.{IsStill};
ghost use Rattle.hc_installed.specs.Settles.{IsOutcomeAt, verdict_line};

use hc_deps::{Verdict, commit};
use hc_heap::Pace;
use hc_layout::Shape;
use hc_objects::Objects;
use hc_question::Outcome;
use hc_report::{Line, Log};
use hc_sites::Sites;

fn line_of(job: u32, site: u32, verdict: &Verdict) -> Line
    ensures { result ≡ verdict_line job site verdict.now }
{
    match verdict {
        Verdict::Installed => Line::Install(job, site),
        Verdict::Refused(dep) => Line::Refuse(job, *dep),
        Verdict::NoPlan(why) => Line::NoPlan(job, *why),
    }
}

/// Settles the outcome of a job: its plan is installed at its site, in the place of an earlier one, where each of its dependencies
/// holds, and else refused; the log gets the line of it.
pub fn settle<P: Pace>(
    objects: &mut Objects<P>,
    shape: Shape,
    sites: &mut Sites,
    log: &mut Log,
    at: u64,
    job: u32,
    site: u32,
    outcome: Outcome,
) -> Verdict
    requires shape { shape ≡ objects.old.heap.view.shape }
    requires there { site < length sites.old }
    requires room { 0 < log.old.room }
    ensures outcome { IsOutcomeAt objects.old outcome result }
    ensures sites { sites.new ≡ sites_after sites.old site outcome result }
    ensures line { log.new.lines ≡ log.old.lines ++ (at, verdict_line job site result) ∷ [] }
    ensures room { log.new.room + 1 ≡ log.old.room }
    ensures still { IsStill objects.old objects.new }
{
    objects.stands();
    let verdict = commit(objects, shape, sites, job, site, outcome);
    log.push(at, line_of(job, site, &verdict));
    verdict
}
