//! Outcomes that are installed, refused, or have no plan; and the plans that are broken.
ghost use Rattle.std.specs.Prelude.{◌≡◌};

use crate::board::{SHAPE, written};
use hc_board::Writer;
use hc_deps::{Verdict, commit, next_broken};
use hc_plan::{Cases, Dep, Deps, Op, Plan, Site, Why};
use hc_question::Outcome;
use hc_sites::Sites;
use hc_value::Rep;
use std::alloc::Global;
use std::test::Fail;

const WHAT: Site = Site {
    op: Op::Load,
    name: 3,
};

// A plan with these dependencies.
fn plan(alloc: Global, deps: [Dep; 3]) -> Result<Plan, Fail> {
    Ok(Plan {
        site: 0,
        op: WHAT.op,
        name: WHAT.name,
        cases: Cases::from_vec(Vec::new(alloc)),
        deps: Deps::from_vec(Vec::from_array(alloc, deps)?),
    })
}

// The verdict on an outcome, where its site is there.
fn verdict(writer: &mut Writer, sites: &mut Sites, site: u32, outcome: Outcome) -> Option<Verdict> {
    if site < sites.len() {
        Some(commit(writer, SHAPE, sites, 0, site, outcome))
    } else {
        None
    }
}

fn refused(verdict: Option<Verdict>) -> Option<Dep> {
    match verdict {
        Some(Verdict::Refused(dep)) => Some(dep),
        _ => None,
    }
}

// The first dependency of a site's plan.
fn first_dep(sites: &Sites, site: u32) -> Option<Dep> {
    sites.plan_of(site)?.deps.at(0).copied()
}

#[test]
fn a_plan_is_installed_exactly_where_all_its_dependencies_hold(
    rt: HostRuntime,
) -> Result<(), Fail> {
    let alloc = rt.alloc();
    let mut writer = written(alloc)?;
    let mut sites = Sites::new(alloc);
    sites.declare(WHAT)?;
    let good = Outcome::Planned(plan(alloc, [Dep::Live(1), Dep::Stable(0), Dep::Value(0, 0, 42)])?);
    assert!(rt;
        matches!(
            verdict(&mut writer, &mut sites, 0, good),
            Some(Verdict::Installed)
        )
    );
    assert!(rt; first_dep(&sites, 0) == Some(Dep::Live(1)));
    let bad = Outcome::Planned(plan(alloc, [Dep::Live(0), Dep::Stable(1), Dep::Live(2)])?);
    assert!(rt; refused(verdict(&mut writer, &mut sites, 0, bad)) == Some(Dep::Stable(1)));
    assert!(rt; first_dep(&sites, 0) == Some(Dep::Live(1)));
    Ok(())
}

#[test]
fn an_outcome_without_a_plan_leaves_an_earlier_one(rt: HostRuntime) -> Result<(), Fail> {
    let alloc = rt.alloc();
    let mut writer = written(alloc)?;
    let mut sites = Sites::new(alloc);
    sites.declare(WHAT)?;
    sites.install(0, plan(alloc, [Dep::Live(0); 3])?);
    let none = verdict(&mut writer, &mut sites, 0, Outcome::NoPlan(Why::Mega));
    assert!(rt; matches!(none, Some(Verdict::NoPlan(Why::Mega))));
    assert!(rt; first_dep(&sites, 0) == Some(Dep::Live(0)));
    Ok(())
}

fn declare(sites: &mut Sites) -> Result<(), Fail> {
    if sites.len() < u32::MAX {
        sites.declare(WHAT)?;
    }
    Ok(())
}

// Four sites: one without a plan, one whose plan is broken at a value alone, and two that are broken.
fn four_sites(alloc: Global) -> Result<Sites, Fail> {
    let mut sites = Sites::new(alloc);
    for _ in 0..4u32 {
        declare(&mut sites)?;
    }
    let plans = [
        (1u32, [Dep::Live(0), Dep::Value(0, 0, 41), Dep::Live(1)]),
        (2, [Dep::Value(0, 0, 41), Dep::Stable(1), Dep::Live(2)]),
        (3, [Dep::Live(1), Dep::Rep(0, Rep::Smi), Dep::Const(1)]),
    ];
    for (site, deps) in plans {
        if site < sites.len() {
            sites.install(site, plan(alloc, deps)?);
        }
    }
    Ok(sites)
}

#[test]
fn the_next_broken_plan_is_found_and_no_value_counts(rt: HostRuntime) -> Result<(), Fail> {
    let alloc = rt.alloc();
    let mut writer = written(alloc)?;
    let sites = four_sites(alloc)?;
    let rows = [
        (0u32, Some((2u32, Dep::Stable(1)))),
        (1, Some((2, Dep::Stable(1)))),
        (2, Some((2, Dep::Stable(1)))),
        (3, Some((3, Dep::Const(1)))),
        (4, None),
        (u32::MAX, None),
    ];
    for (from, found) in rows {
        assert!(rt;
            next_broken(&mut writer, SHAPE, &sites, from) == found,
            "from {from}"
        );
    }
    Ok(())
}
