//! The reads of a job, some at a time or all to the end.
ghost use Rattle.std.specs.Prelude.{◌≡◌, ◌⊎◌, true};
ghost use Rattle.hc_board.specs.States.{beginning, reads_made};
ghost use Rattle.hc_question.specs.Told.{IsTold, TellsNothing};
ghost use Rattle.hc_planner.specs.Jobs.{IsOwn, asks, in_four, is_done};
ghost use Rattle.hc_jobs.specs.Reading.{MakesReads, ReadsOn};

use crate::gate::Gate;
use hc_board::{Look, Reader, look_adds_reads};
use hc_planner::{Finished, Job, Step};

/// How many reads are to be made: at most so many, or all that are left.
#[derive(Clone, Copy)]
pub enum Reads {
    Count(u32),
    All,
}

/// Makes so many reads of a job, or all that are left where these are fewer.
pub fn make_reads(job: &mut Job, reader: &mut Reader, n: Reads)
    requires own { IsOwn job.old reader.old }
    ensures own { IsOwn job.new reader.new }
    ensures reads { MakesReads n job.old job.new reader.old reader.new }
    ensures same { job.new ≡ record job.old { seekers = job.new.seekers } }
{
    match n {
        Reads::Count(most) => make_some(job, reader, most),
        Reads::All => make_all(job, reader),
    }
}

fn make_some(job: &mut Job, reader: &mut Reader, most: u32)
    requires own { IsOwn job.old reader.old }
    ensures own { IsOwn job.new reader.new }
    ensures reads { MakesReads (Reads.Count most) job.old job.new reader.old reader.new }
    ensures same { job.new ≡ record job.old { seekers = job.new.seekers } }
{
    let mut made = 0u32;
    while made < most {
        if job.is_done() {
            return;
        }
        job.step(reader);
        made += 1;
    }
}

fn make_all(job: &mut Job, reader: &mut Reader)
    requires own { IsOwn job.old reader.old }
    ensures own { IsOwn job.new reader.new }
    ensures reads { MakesReads Reads.All job.old job.new reader.old reader.new }
    ensures same { job.new ≡ record job.old { seekers = job.new.seekers } }
{
    while !job.is_done() {
        job.step(reader);
    }
}

/// Makes every read of a job, each after the gate was told, and ends the job.
pub fn work<G: Gate>(job: Job, reader: Reader, gate: &G) -> Finished
    requires own { IsOwn job reader }
    ensures id { result.id ≡ job.id }
    ensures site { result.site ≡ job.site }
    ensures what { result.what ≡ job.what }
    ensures maps { result.maps ≡ in_four job.maps }
    ensures mega { result.mega ≡ job.mega }
    ensures reader { ReadsOn job reader result.reader }
    ensures board { result.reader.board ≡ reader.board }
    ensures start { beginning result.reader ≡ beginning reader }
    ensures told { IsTold job.shape job.site job.what job.maps job.mega (reads_made result.reader) result.outcome
        ⊎ TellsNothing job.shape job.what job.maps job.mega (reads_made result.reader) }
{
    look_adds_reads();
    let mut job = job;
    let mut reader = reader;
    let mut k = 0u64;
    while !job.is_done() {
        k = k.saturating_add(1);
        gate.look(job.id(), k);
        job.step(&mut reader);
    }
    job.finish(reader)
}
