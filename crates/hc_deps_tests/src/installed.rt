//! The plans of sites over objects: outcomes that are settled, and plans that are discarded.
ghost use Rattle.std.specs.Prelude.{◌≡◌};

use hc_heap::Free;
use hc_installed::{Verdict, discard_broken, plans_are_few, settle};
use hc_layout::Shape;
use hc_objects::Objects;
use hc_plan::{Cases, Dep, Deps, Op, Plan, Site, Why};
use hc_question::Outcome;
use hc_report::{Line, Log};
use hc_sites::Sites;
use hc_value::Rep;
use std::alloc::Global;
use std::test::Fail;

const SHAPE: Shape = Shape {
    maps: 4,
    entries: 4,
    fields: 4,
    links: 4,
    objects: 2,
    slots: 4,
    cells: 1,
};

const WHAT: Site = Site {
    op: Op::Load,
    name: 3,
};

/// On a board without writes no map is unstable, and no field has a representation.
const HOLDS: Dep = Dep::Stable(0);

const BROKEN: Dep = Dep::Rep(0, Rep::Smi);

// A plan with these dependencies.
fn plan(alloc: Global, deps: [Dep; 2]) -> Result<Plan, Fail> {
    Ok(Plan {
        site: 0,
        op: WHAT.op,
        name: WHAT.name,
        cases: Cases::from_vec(Vec::new(alloc)),
        deps: Deps::from_vec(Vec::from_array(alloc, deps)?),
    })
}

// Two sites, of which the second has a plan that is broken.
fn two_sites(alloc: Global) -> Result<Sites, Fail> {
    let mut sites = Sites::new(alloc);
    sites.declare(WHAT)?;
    sites.declare(WHAT)?;
    sites.install(1, plan(alloc, [HOLDS, BROKEN])?);
    Ok(sites)
}

// The line of a number, if the log has so many.
fn line(log: &Log, number: u64) -> Option<(u64, Line)> {
    log.at(number).copied()
}

// Settles an outcome at the first site.
fn settled(
    objects: &mut Objects<Free>,
    sites: &mut Sites,
    log: &mut Log,
    job: u32,
    outcome: Outcome,
) -> Result<bool, Fail>
    requires { objects.old.heap.view.shape ≡ SHAPE }
    ensures { objects.new.heap.view.shape ≡ SHAPE }
{
    log.reserve(1)?;
    if sites.len() == 0 {
        return Ok(false);
    }
    let verdict = settle(objects, SHAPE, sites, log, 7, job, 0, outcome);
    Ok(matches!(verdict, Verdict::Installed))
}

#[test]
fn outcomes_are_settled_with_their_lines(rt: HostRuntime) -> Result<(), Fail> {
    let alloc = rt.alloc();
    let mut objects = Objects::new(alloc, SHAPE, Free)?;
    let mut sites = two_sites(alloc)?;
    let mut log = Log::new(alloc);
    let good = Outcome::Planned(plan(alloc, [HOLDS, HOLDS])?);
    assert!(rt; settled(&mut objects, &mut sites, &mut log, 1, good)?);
    let bad = Outcome::Planned(plan(alloc, [HOLDS, BROKEN])?);
    assert!(rt; !settled(&mut objects, &mut sites, &mut log, 2, bad)?);
    let none = Outcome::NoPlan(Why::Mega);
    assert!(rt; !settled(&mut objects, &mut sites, &mut log, 3, none)?);
    assert!(rt; matches!(line(&log, 0), Some((7, Line::Install(1, 0)))));
    assert!(rt; matches!(line(&log, 1), Some((7, Line::Refuse(2, dep))) if dep == BROKEN));
    assert!(rt; matches!(line(&log, 2), Some((7, Line::NoPlan(3, Why::Mega)))));
    assert!(rt; sites.plan_of(0).is_some());
    Ok(())
}

#[test]
fn broken_plans_are_discarded_with_their_lines(rt: HostRuntime) -> Result<(), Fail> {
    let alloc = rt.alloc();
    let mut objects = Objects::new(alloc, SHAPE, Free)?;
    let mut sites = two_sites(alloc)?;
    let mut log = Log::new(alloc);
    log.reserve(2)?;
    plans_are_few();
    let few = sites.len() <= 2;
    assert!(rt; few);
    discard_broken(&mut objects, SHAPE, &mut sites, &mut log, 9);
    assert!(rt; log.len() == 1);
    assert!(rt; matches!(line(&log, 0), Some((9, Line::Discard(1, dep))) if dep == BROKEN));
    assert!(rt; sites.plan_of(1).is_none());
    Ok(())
}
