//! A gate, at which a test may hold the threads.

/// It is told what is about to be done, in whichever thread it is done.
pub trait Gate: Sync {
    /// The command of this number is about to begin, counted from 1.
    fn command(&self, n: u64);

    /// This job is about to make its k-th read, counted from 1.
    fn look(&self, job: u32, k: u64);
}

/// The gate that holds nobody.
#[derive(Clone, Copy, Drop)]
pub struct NoGate;

impl Gate for NoGate {
    fn command(&self, _n: u64) {}

    fn look(&self, _job: u32, _k: u64) {}
}
