//! The jobs that are open.
ghost use Rattle.std.specs.Prelude.{◌≡◌, ◌<◌, ◌≤◌, ◌↔◌, [], ◌∷◌, ◌++◌, Some, None, false, true, length, take, slice_get, vec_len, IfOk, IfSome, IsTrue};
ghost use Rattle.hc_planner.specs.Jobs.{IsOwn};
ghost use Rattle.hc_jobs.specs.Opened.{AreOthers, has_number, is_open, open_at, without};

use hc_board::Reader;
use hc_planner::Job;
use hc_value::Memory;
use std::alloc::Global;
use std::marker::Model;

/// The most jobs that are open at a time.
pub const MOST_JOBS: usize = 64;

/// A job that is open, and the reader through which it reads.
#[derive(Drop)]
pub struct OpenJob {
    pub job: Job,
    pub reader: Reader,
}

/// The jobs that are open, each with its own reader, in the order in which they were put in. All memory is taken
/// when the table is made.
#[derive(Drop)]
pub struct JobTable {
    jobs: Vec<OpenJob>,
}

impl Model for JobTable {
    ghost use Rattle.std.specs.Prelude.{List, vec_capacity};
    ghost use Rattle.hc_jobs.specs.declared.table.OpenJob.{OpenJob};
    ghost use Rattle.hc_jobs.specs.Opened.{IsTable};

    ghost Value = { List OpenJob };

    ghost view = { λ t. t.jobs.items };

    ghost invariant = { λ t. IsTable t.jobs.items (vec_capacity t.jobs) };
}

// The place of the job of a number, or else the number of jobs.
fn place_of(jobs: &[OpenJob], number: u32) -> usize
    ensures within { result ≤ length jobs.now }
    ensures others { AreOthers number (take result jobs.now) }
    ensures first { IfSome (slice_get jobs.now result) (λ x. has_number number x ≡ true) }
{
    let mut i = 0;
    while i < jobs.len() && jobs[i].job.id() != number {
        i += 1;
    }
    i
}

impl JobTable {
    /// A table without a job, with the memory for as many as may be open.
    pub fn new(alloc: Global) -> Result<JobTable, Memory>
        ensures none { IfOk result (λ t. t ≡ []) }
    {
        let jobs = Vec::with_capacity(alloc, MOST_JOBS)?;
        Ok(JobTable { jobs })
    }

    /// How many jobs are in the table.
    pub fn len(&self) -> usize
        ensures len { result ≡ length self.now }
        ensures few { result ≤ 64 }
    {
        self.jobs.len()
    }

    /// Whether there is room for a job more.
    pub fn has_room(&self) -> bool
        ensures room { IsTrue result ↔ length self.now < 64 }
        ensures few { length self.now ≤ 64 }
    {
        self.jobs.len() < MOST_JOBS
    }

    /// Whether the job of a number is in the table.
    pub fn is_open(&self, number: u32) -> bool
        ensures there { result ≡ is_open self.now number }
    {
        place_of(self.jobs.as_slice(), number) < self.jobs.len()
    }

    /// Puts in a job and its own reader.
    pub fn start(&mut self, job: Job, reader: Reader)
        requires room { length self.old < 64 }
        requires fresh { is_open self.old job.id ≡ false }
        requires own { IsOwn job reader }
        ensures last { self.new ≡ self.old ++ record { job = job; reader = reader } ∷ [] }
        ensures started { open_at self.new job.id ≡ Some (record { job = job; reader = reader }) }
    {
        self.jobs.push_reserved(OpenJob { job, reader });
    }

    /// Takes out the job of a number, and its own reader.
    pub fn take(&mut self, number: u32) -> (Job, Reader)
        requires there { is_open self.old number ≡ true }
        ensures number { result.0.id ≡ number }
        ensures own { IsOwn result.0 result.1 }
        ensures pair { open_at self.old number ≡ Some (record { job = result.0; reader = result.1 }) }
        ensures rest { self.new ≡ without number self.old }
        ensures gone { is_open self.new number ≡ false }
        ensures room { length self.new < 64 }
    {
        let place = place_of(self.jobs.as_slice(), number);
        let OpenJob { job, reader } = self.jobs.remove(place);
        (job, reader)
    }
}
