//! The question of a site's feedback, a tree of looks, and what a list of reads tells of it.
#![tactic(auto)]

mod laws;
mod outcome;

pub use laws::{fits_never_stop, one_position_answers, told_is_one};
pub use outcome::{Answer, Outcome};
