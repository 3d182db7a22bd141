//! What becomes of a job's outcome.
ghost use Rattle.std.specs.Prelude.{◌≡◌, ◌*◌, ◌<◌, IsSome, Some, None, MatchOption, length};
ghost use Rattle.std.specs.Option.{ForSome};
ghost use Rattle.std.specs.List.{AllByRecursion};
ghost use Rattle.hc_layout.specs.Shape.{IsShape};
ghost use Rattle.hc_deps.specs.Looks.{MadeLooks};
ghost use Rattle.hc_deps.specs.Holds.{Holds};
ghost use Rattle.hc_deps.specs.Verdicts.{IsFirstBroken, IsVerdict, sites_after, verdict_looks};

use crate::held::holds;
use hc_board::Look;
use hc_layout::Shape;
use hc_plan::{Dep, Why};
use hc_question::Outcome;
use hc_sites::Sites;

/// What became of a job's outcome.
#[derive(Clone, Copy)]
pub enum Verdict {
    /// The plan is its site's.
    Installed,
    /// This is the first of the plan's dependencies that doesn't hold.
    Refused(Dep),
    /// There was no plan.
    NoPlan(Why),
}

// The first of these dependencies that doesn't hold.
fn first_broken<L: Look>(look: &mut L, shape: Shape, deps: &[Dep]) -> Option<Dep>
    requires fits { IsShape shape }
    requires told { IsSome (L.image look.old) }
    ensures first { ForSome (L.image look.old)
        (λ words. MatchOption result (AllByRecursion (Holds shape words) deps.now)
        (IsFirstBroken (Holds shape words) deps.now)) }
    ensures looks { MadeLooks L.image L.looked 0 (3 * length deps.now) look.old look.new }
{
    for dep in deps {
        if !holds(look, shape, dep) {
            return Some(*dep);
        }
    }
    None
}

/// Installs the plan of a job's outcome at its site where each of its dependencies holds.
///
/// Whose outcome it is, by the job's number, changes nothing: the caller notes it beside the verdict.
pub fn commit<L: Look>(
    look: &mut L,
    shape: Shape,
    sites: &mut Sites,
    _id: u32,
    site: u32,
    outcome: Outcome,
) -> Verdict
    requires fits { IsShape shape }
    requires told { IsSome (L.image look.old) }
    requires there { site < length sites.old }
    ensures verdict { ForSome (L.image look.old)
        (λ words. IsVerdict shape words outcome result) }
    ensures sites { sites.new ≡ sites_after sites.old site outcome result }
    ensures looks { MadeLooks L.image L.looked 0 (verdict_looks outcome)
        look.old look.new }
{
    let plan = match outcome {
        Outcome::Planned(plan) => plan,
        Outcome::NoPlan(why) => return Verdict::NoPlan(why),
    };
    match first_broken(look, shape, plan.deps.as_slice()) {
        Some(dep) => Verdict::Refused(dep),
        None => {
            sites.install(site, plan);
            Verdict::Installed
        }
    }
}
