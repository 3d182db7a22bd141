//! Validity cells: each belongs to a prototype, and is valid as long as nothing on its chain of prototypes changes.
#![tactic(auto)]

mod cells;
mod chain;
mod laws;
mod watched;

pub use cells::{cell_of, invalidate, valid};
pub use laws::{chains_stay, marks_stay, ways_stay};
pub use watched::Watched;
