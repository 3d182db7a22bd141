//! No job is given up for a word that it reads: reads that fit a lawful trail, from a position at which the maps of the
//! feedback are written, always tell an outcome, whatever is written between them.
#![tactic(auto)]

mod laws;

pub use laws::{links_are_few, no_job_stops, questions_are_safe, reads_tell};
