//! Jobs, from their start to their end.
ghost use Rattle.std.specs.Prelude.{◌≡◌, ◌+◌, ◌-◌, ◌<◌, ◌≤◌, ◌^◌, ◌↔◌, true, length, slice_get, IfOk, IfSome, IsSomeAnd, IsTrue, OnOk, OnErr};
ghost use Rattle.hc_planner.specs.Jobs.{IsOwn};
ghost use Rattle.hc_jobs.specs.Opened.{is_open};
ghost use Rattle.hc_answers.specs.Laws.{AreWritten};
ghost use Rattle.hc_compiler.specs.Calls.{Finishes, IsNewJob, Lends, Starts, Steps, TakesBack};
ghost use Rattle.hc_compiler.specs.Ends.{HasEnded};
ghost use Rattle.hc_compiler.specs.Jobs.{AreNumbered, AreReading, is_lent, lent_at, no_jobs, open_count, opening_at};

use crate::batches::{Ended, finish_job, step_job};
use crate::lending::{LentJobs, MOST_JOBS};
use crate::openings::begin;
use hc_heap::{Pace, stores_are_writes};
use hc_jobs::{JobTable, OpenJob, Reads, others_stay_open};
use hc_layout::Shape;
use hc_objects::Objects;
use hc_sites::Sites;
use hc_value::Memory;
use std::alloc::Global;
use std::marker::Model;

/// The jobs that are open, each with its own reader, those that callers have, and how many were started.
#[derive(Drop)]
pub struct Compiler {
    jobs: JobTable,
    lent: LentJobs,
    started: u32,
    alloc: Global,
}

impl Model for Compiler {
    ghost use Rattle.hc_compiler.specs.Jobs.{Compiling, IsCompiling};

    ghost Value = { Compiling };

    ghost view = { λ c. record { started = c.started; jobs = c.jobs; lent = c.lent } };

    ghost invariant = { λ c. IsCompiling (record { started = c.started; jobs = c.jobs; lent = c.lent }) };
}

impl Compiler {
    /// No job was started. There is memory for as many as may be open.
    pub fn new(alloc: Global) -> Result<Compiler, Memory>
        ensures none { IfOk result (λ c. c ≡ no_jobs) }
    {
        Ok(Compiler {
            jobs: JobTable::new(alloc)?,
            lent: LentJobs::new(alloc)?,
            started: 0,
            alloc,
        })
    }

    /// How many jobs were started.
    pub fn started(&self) -> u32
        ensures { result ≡ self.now.started }
    {
        self.started
    }

    /// Whether there is room for a job more.
    pub fn may_open(&self) -> bool
        ensures room { IsTrue result ↔ open_count self.now < 64 }
        ensures few { open_count self.now ≤ 64 }
    {
        self.jobs.len() + self.lent.len() < MOST_JOBS
    }

    /// Whether the job of a number is in the table: it was started, no caller got it, and it isn't finished.
    pub fn is_open(&self, j: u32) -> bool
        ensures there { result ≡ is_open self.now.jobs j }
    {
        self.jobs.is_open(j)
    }

    /// Starts a job for a site, with what it has seen of maps so far. The answer is the job's number.
    pub fn start<P: Pace>(
        &mut self,
        objects: &mut Objects<P>,
        shape: Shape,
        sites: &Sites,
        s: u32,
    ) -> Result<u32, Memory>
        requires shape { shape ≡ objects.old.heap.view.shape }
        requires site { s < length sites.now }
        requires written { IfSome (slice_get sites.now s) (λ state. AreWritten objects.old.heap.view.trail state.maps) }
        requires room { open_count self.old < 64 }
        requires numbers { self.old.started < 2 ^ 32 - 1 }
        ensures number { IfOk result (λ j. j ≡ self.old.started) }
        ensures started { OnOk result (self.new.started ≡ self.old.started + 1) }
        ensures starts { OnOk result (IfSome (slice_get sites.now s) (λ state. Starts objects.old self.old.jobs self.old.started s state self.new.jobs)) }
        ensures lent { self.new.lent ≡ self.old.lent }
        ensures err { OnErr result (self.new ≡ self.old) }
        ensures same { objects.new ≡ objects.old }
        ensures reading { AreReading objects.old self.old.jobs → AreReading objects.new self.new.jobs }
    {
        others_stay_open();
        stores_are_writes();
        objects.stands();
        let number = self.started;
        let opened = begin(self.alloc, objects, shape, sites, s, number)?;
        let OpenJob { job, reader } = opened;
        self.started = number + 1;
        self.jobs.start(job, reader);
        Ok(number)
    }

    /// Lets an open job make so many reads, or all that are left where these are fewer.
    pub fn step<P: Pace>(&mut self, objects: &mut Objects<P>, j: u32, n: Reads)
        requires there { is_open self.old.jobs j ≡ true }
        requires reading { AreReading objects.old self.old.jobs }
        ensures steps { Steps n objects.old self.old.jobs j objects.new self.new.jobs }
        ensures started { self.new.started ≡ self.old.started }
        ensures lent { self.new.lent ≡ self.old.lent }
        ensures reading { AreReading objects.new self.new.jobs }
    {
        step_job(&mut self.jobs, objects, j, n);
    }

    /// Lets an open job make all reads that are left, and ends it. The answer is what it ended with, and its site.
    pub fn finish<P: Pace>(&mut self, objects: &mut Objects<P>, j: u32) -> Ended
        requires there { is_open self.old.jobs j ≡ true }
        requires reading { AreReading objects.old self.old.jobs }
        ensures finishes { Finishes objects.old self.old.jobs j objects.new self.new.jobs }
        ensures ended { HasEnded self.old.jobs j result.outcome objects.new }
        ensures site { IsSomeAnd (opening_at self.old.jobs j) (λ given. result.site ≡ given.site) }
        ensures started { self.new.started ≡ self.old.started }
        ensures lent { self.new.lent ≡ self.old.lent }
        ensures reading { AreReading objects.new self.new.jobs }
    {
        finish_job(&mut self.jobs, objects, j)
    }

    /// Starts a job for a site as `start` does, and hands it and its reader to the caller.
    pub fn lend<P: Pace>(
        &mut self,
        objects: &mut Objects<P>,
        shape: Shape,
        sites: &Sites,
        s: u32,
    ) -> Result<OpenJob, Memory>
        requires shape { shape ≡ objects.old.heap.view.shape }
        requires site { s < length sites.now }
        requires room { open_count self.old < 64 }
        requires numbers { self.old.started < 2 ^ 32 - 1 }
        ensures new { IfOk result (λ x. IfSome (slice_get sites.now s) (λ state. IsNewJob objects.old self.old.started s state x)) }
        ensures own { IfOk result (λ x. IsOwn x.job x.reader) }
        ensures number { IfOk result (λ x. x.job.id ≡ self.old.started) }
        ensures started { OnOk result (self.new.started ≡ self.old.started + 1) }
        ensures lends { IfOk result (λ x. Lends self.old.lent x self.new.lent) }
        ensures jobs { self.new.jobs ≡ self.old.jobs }
        ensures err { OnErr result (self.new ≡ self.old) }
        ensures same { objects.new ≡ objects.old }
    {
        objects.stands();
        let number = self.started;
        let opened = begin(self.alloc, objects, shape, sites, s, number)?;
        self.started = number + 1;
        self.lent.lend(&opened);
        Ok(opened)
    }

    /// Whether a caller has the job of a number, which `lend` handed out.
    pub fn is_lent(&self, j: u32) -> bool
        ensures there { result ≡ is_lent self.now.lent j }
    {
        self.lent.is_lent(j)
    }

    /// Forgets a job that a caller had. The answer is its site's number.
    pub fn take_back(&mut self, j: u32) -> u32
        requires there { is_lent self.old.lent j ≡ true }
        ensures site { IsSomeAnd (lent_at self.old.lent j) (λ given. result ≡ given.site) }
        ensures taken { TakesBack self.old.lent j self.new.lent }
        ensures jobs { self.new.jobs ≡ self.old.jobs }
        ensures started { self.new.started ≡ self.old.started }
    {
        self.lent.take_back(j)
    }

    /// What the numbers of jobs say: those of all jobs are below the next one, and no job is both in the table and with a caller.
    pub fn numbers(&self)
        ensures { AreNumbered self.now }
    {
        let _ = &self.jobs;
    }
}
