//! Reads that an open job makes at one position, and its end.
ghost use Rattle.std.specs.Prelude.{◌≡◌, true, IsSomeAnd};
ghost use Rattle.hc_board.specs.States.{position_of, renewed};
ghost use Rattle.hc_planner.specs.Jobs.{IsOwn};
ghost use Rattle.hc_jobs.specs.Opened.{is_open};
ghost use Rattle.hc_jobs.specs.Reading.{MakesReads};
ghost use Rattle.hc_modes.specs.Readers.{HasMet};
ghost use Rattle.hc_compiler.specs.Calls.{Finishes, Steps};
ghost use Rattle.hc_compiler.specs.Ends.{HasEnded};
ghost use Rattle.hc_compiler.specs.Jobs.{AreReading, opening_at};

use hc_answers::reads_tell;
use hc_board::{Reader, one_position, renew_keeps_reads};
use hc_heap::Pace;
use hc_jobs::{JobTable, Reads, a_batch_is_a_part, make_reads, others_stay_open};
use hc_objects::Objects;
use hc_planner::{Finished, Job};
use hc_question::Outcome;

// A renewal, and the reads of a batch.
fn read_on<P: Pace>(objects: &mut Objects<P>, job: &mut Job, reader: Reader, n: Reads) -> Reader
    requires own { IsOwn job.old reader }
    requires board { reader.board ≡ objects.old.heap.desk.board }
    ensures own { IsOwn job.new result }
    ensures same { job.new ≡ record job.old { seekers = job.new.seekers } }
    ensures reads { MakesReads n job.old job.new (renewed reader (position_of objects.old.heap.desk)) result }
    ensures met { HasMet objects.old reader objects.new }
{
    renew_keeps_reads();
    let mut reader = objects.renew(reader);
    make_reads(job, &mut reader, n);
    reader
}

/// Lets an open job make so many reads.
pub(crate) fn step_job<P: Pace>(jobs: &mut JobTable, objects: &mut Objects<P>, j: u32, n: Reads)
    requires there { is_open jobs.old j ≡ true }
    requires reading { AreReading objects.old jobs.old }
    ensures steps { Steps n objects.old jobs.old j objects.new jobs.new }
    ensures reading { AreReading objects.new jobs.new }
{
    others_stay_open();
    a_batch_is_a_part();
    one_position();
    renew_keeps_reads();
    let (mut job, reader) = jobs.take(j);
    let reader = read_on(objects, &mut job, reader, n);
    let reader = objects.renew(reader);
    jobs.start(job, reader);
}

/// What a job ended with, and the number of its site.
#[derive(Drop)]
pub struct Ended {
    pub site: u32,
    pub outcome: Outcome,
}

/// Lets an open job make all reads that are left, and ends it.
pub(crate) fn finish_job<P: Pace>(jobs: &mut JobTable, objects: &mut Objects<P>, j: u32) -> Ended
    requires there { is_open jobs.old j ≡ true }
    requires reading { AreReading objects.old jobs.old }
    ensures finishes { Finishes objects.old jobs.old j objects.new jobs.new }
    ensures ended { HasEnded jobs.old j result.outcome objects.new }
    ensures site { IsSomeAnd (opening_at jobs.old j) (λ given. result.site ≡ given.site) }
    ensures reading { AreReading objects.new jobs.new }
{
    others_stay_open();
    a_batch_is_a_part();
    one_position();
    renew_keeps_reads();
    reads_tell();
    objects.stands();
    let (mut job, reader) = jobs.take(j);
    let reader = read_on(objects, &mut job, reader, Reads::All);
    let finished = job.finish(reader);
    let Finished {
        site,
        outcome,
        reader,
        ..
    } = finished;
    objects.meet(reader);
    Ended { site, outcome }
}
