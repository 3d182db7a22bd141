//! The jobs that callers have.
ghost use Rattle.std.specs.Prelude.{◌≡◌, ◌+◌, ◌<◌, ◌≤◌, [], false, true, length, map, take, slice_get, IfOk, IfSome, IsSomeAnd};
ghost use Rattle.hc_planner.specs.Jobs.{in_four};
ghost use Rattle.hc_compiler.specs.Calls.{Lends, TakesBack};
ghost use Rattle.hc_compiler.specs.Jobs.{is_lent, lent_at};
ghost use Rattle.hc_compiler.specs.Lending.{given_to};

use hc_jobs::OpenJob;
use hc_plan::Site;
use hc_value::Memory;
use std::alloc::Global;
use std::marker::Model;

// The most jobs that are open at a time, those that callers have among them.
pub(crate) const MOST_JOBS: usize = 64;

/// What a job was given that a caller has, with the count at which its reader began.
#[derive(Clone, Copy)]
pub(crate) struct Lent {
    job: u32,
    site: u32,
    what: Site,
    maps: [Option<u32>; 4],
    mega: bool,
    start: u64,
}

impl Lent {
    fn number(&self) -> u32
        ensures { result ≡ self.now.job }
    {
        self.job
    }
}

/// The jobs that callers have, in the order in which they were lent. All memory is taken when the table is made.
#[derive(Drop)]
pub(crate) struct LentJobs {
    jobs: Vec<Lent>,
}

impl Model for LentJobs {
    ghost use Rattle.std.specs.Prelude.{List, map, vec_capacity};
    ghost use Rattle.hc_compiler.specs.Jobs.{Opening};
    ghost use Rattle.hc_compiler.specs.Lending.{IsLending, given_to};

    ghost Value = { List Opening };

    ghost view = { λ t. map given_to t.jobs.items };

    ghost invariant = { λ t. IsLending (map given_to t.jobs.items) (vec_capacity t.jobs) };
}

// The place of the job of a number, or else the number of jobs.
fn place_of(jobs: &[Lent], number: u32) -> usize
    ensures within { result ≤ length jobs.now }
    ensures others { is_lent (map given_to (take result jobs.now)) number ≡ false }
    ensures first { IfSome (slice_get jobs.now result) (λ x. x.job ≡ number) }
{
    let mut i = 0;
    while i < jobs.len() && jobs[i].number() != number {
        i += 1;
    }
    i
}

impl LentJobs {
    /// No caller has a job.
    pub(crate) fn new(alloc: Global) -> Result<LentJobs, Memory>
        ensures none { IfOk result (λ t. t ≡ []) }
    {
        let jobs = Vec::with_capacity(alloc, MOST_JOBS)?;
        Ok(LentJobs { jobs })
    }

    pub(crate) fn len(&self) -> usize
        ensures len { result ≡ length self.now }
        ensures few { result ≤ 64 }
    {
        self.jobs.len()
    }

    /// Whether a caller has the job of a number.
    pub(crate) fn is_lent(&self, number: u32) -> bool
        ensures there { result ≡ is_lent self.now number }
    {
        place_of(self.jobs.as_slice(), number) < self.jobs.len()
    }

    /// Keeps what a job was given that a caller gets.
    pub(crate) fn lend(&mut self, x: &OpenJob)
        requires room { length self.old < 64 }
        requires fresh { is_lent self.old x.now.job.id ≡ false }
        ensures lends { Lends self.old x.now self.new }
    {
        self.jobs.push_reserved(Lent {
            job: x.job.id(),
            site: x.job.site(),
            what: x.job.what(),
            maps: x.job.maps(),
            mega: x.job.mega(),
            start: x.reader.start(),
        });
    }

    /// Forgets the job of a number. The answer is its site's number.
    pub(crate) fn take_back(&mut self, number: u32) -> u32
        requires there { is_lent self.old number ≡ true }
        ensures site { IsSomeAnd (lent_at self.old number) (λ given. result ≡ given.site) }
        ensures taken { TakesBack self.old number self.new }
    {
        let place = place_of(self.jobs.as_slice(), number);
        self.jobs.remove(place).site
    }
}
