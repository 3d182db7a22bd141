//! The compiler: jobs are started for sites, make their reads between and within commands, and end.
//!
//! Contracts see how many jobs were started, and those that are open, each with what it was given when it was started: its
//! site, the feedback of that moment, and the position at which its reader began.
#![tactic(auto)]

mod batches;
mod compiler;
mod feedback;
mod laws;
mod lending;
mod openings;

pub use batches::Ended;
pub use compiler::Compiler;
pub use hc_jobs::{OpenJob, Reads};
pub use laws::jobs_read_on;
