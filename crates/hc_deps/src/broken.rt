//! Which installed plans are broken.
ghost use Rattle.std.specs.Prelude.{IsTrue, ◌↔◌, IsSome, IfSome, IsSomeAnd, MatchOption, length};
ghost use Rattle.std.specs.Option.{ForSome};
ghost use Rattle.std.specs.List.{AllByRecursion};
ghost use Rattle.hc_layout.specs.Shape.{IsShape};
ghost use Rattle.hc_sites.specs.State.{plan_at};
ghost use Rattle.hc_deps.specs.Looks.{MadeLooks};
ghost use Rattle.hc_deps.specs.Holds.{HoldsButValue};
ghost use Rattle.hc_deps.specs.Verdicts.{IsFirstBroken, IsUnbroken, IsNextBroken, deps_count, all_deps_count};

use crate::held::holds;
use hc_board::Look;
use hc_layout::Shape;
use hc_plan::Dep;
use hc_sites::Sites;

// Whether a dependency holds, or is on a value.
fn holds_but_value<L: Look>(look: &mut L, shape: Shape, dep: &Dep) -> bool
    requires fits { IsShape shape }
    requires told { IsSome (L.image look.old) }
    ensures answer { ForSome (L.image look.old)
        (λ words. IsTrue result ↔ HoldsButValue shape words dep.now) }
    ensures looks { MadeLooks L.image L.looked 0 1 look.old look.new }
{
    match dep {
        Dep::Value(_, _, _) => true,
        _ => holds(look, shape, dep),
    }
}

// The first of these dependencies, other than values, that doesn't hold.
fn first_broken_but_value<L: Look>(look: &mut L, shape: Shape, deps: &[Dep]) -> Option<Dep>
    requires fits { IsShape shape }
    requires told { IsSome (L.image look.old) }
    ensures first { ForSome (L.image look.old)
        (λ words. MatchOption result (AllByRecursion (HoldsButValue shape words) deps.now)
        (IsFirstBroken (HoldsButValue shape words) deps.now)) }
    ensures looks { MadeLooks L.image L.looked 0 (length deps.now) look.old look.new }
{
    for dep in deps {
        if !holds_but_value(look, shape, dep) {
            return Some(*dep);
        }
    }
    None
}

// What breaks the plan of a site, if it has one.
fn broken_at<L: Look>(look: &mut L, shape: Shape, sites: &Sites, site: u32) -> Option<Dep>
    requires fits { IsShape shape }
    requires told { IsSome (L.image look.old) }
    ensures broken { ForSome (L.image look.old)
        (λ words. MatchOption result (IfSome (plan_at sites.now site) (IsUnbroken shape words))
        (λ dep. IsSomeAnd (plan_at sites.now site)
        (λ plan. IsFirstBroken (HoldsButValue shape words) plan.deps dep))) }
    ensures looks { MadeLooks L.image L.looked 0 (deps_count (plan_at sites.now site))
        look.old look.new }
{
    match sites.plan_of(site) {
        Some(plan) => first_broken_but_value(look, shape, plan.deps.as_slice()),
        None => None,
    }
}

/// The first site from one on whose plan is broken, and the first of the plan's dependencies, other than
/// values, that doesn't hold.
pub fn next_broken<L: Look>(
    look: &mut L,
    shape: Shape,
    sites: &Sites,
    from: u32,
) -> Option<(u32, Dep)>
    requires fits { IsShape shape }
    requires told { IsSome (L.image look.old) }
    ensures broken { ForSome (L.image look.old)
        (λ words. IsNextBroken shape words sites.now from result) }
    ensures looks { MadeLooks L.image L.looked 0 (all_deps_count sites.now) look.old look.new }
{
    for site in from..sites.len() {
        if let Some(dep) = broken_at(look, shape, sites, site) {
            return Some((site, dep));
        }
    }
    None
}
