//! The use of a plan: what it answers for a receiver and a value.
#![tactic(auto)]

mod admits;
mod answer;
mod applied;

pub use admits::is_place;
pub use answer::is_readable;
pub use applied::{Applied, apply};
