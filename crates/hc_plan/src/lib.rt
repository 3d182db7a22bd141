//! Plans: how a site answers for each of its maps, and on what that depends.
//!
//! A plan's dependencies are a function of its cases: contracts see them as `deps_of`.
#![tactic(auto)]

mod case;
mod deps;
mod laws;
mod lists;
mod plan;
mod skip;

pub use case::{Case, Op, Site, Way};
pub use deps::{Dep, MOST_DEPS};
pub use laws::deps_are_of_cases;
pub use lists::{Cases, Chain, Deps, MAX_CHAIN};
pub use plan::Plan;
pub use skip::{Skip, SkipList, Why};
