//! What holds of every plan. The functions do nothing: each has a law as its contract, for a proof that calls it.
ghost use Rattle.hc_plan.specs.Laws.{DepsAreOfCases};

pub fn deps_are_of_cases()
    ensures law { DepsAreOfCases }
{}
