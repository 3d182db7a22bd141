//! The planner: a job looks at the board's words, one a step, and ends with a plan or with the reason why there is none.
//!
//! What a job asks for is the question of its site's feedback. Its reads, each the look that was asked for,
//! bring that question to what the job still asks.
#![tactic(auto)]

mod at;
mod chain;
mod field;
mod finished;
mod job;
mod link;
mod looks;
mod own;
mod seeker;

pub use finished::Finished;
pub use hc_question::Outcome;
pub use job::{Job, Step};
