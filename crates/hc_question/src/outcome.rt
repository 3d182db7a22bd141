use hc_plan::{Plan, Skip, Way, Why};

/// What is told of one map: the way of its case, or why it has none.
#[derive(Clone, Copy)]
pub enum Answer {
    Found(Way),
    Skipped(Skip),
}

/// What a job found out.
#[derive(Drop)]
pub enum Outcome {
    Planned(Plan),
    NoPlan(Why),
}
