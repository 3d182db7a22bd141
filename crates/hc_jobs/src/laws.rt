//! What holds of the readers of jobs, and of tables. The functions do nothing: each has a law as its contract, for a
//! proof that calls it.
ghost use Rattle.hc_jobs.specs.Batches.{BatchIsAPart};
ghost use Rattle.hc_jobs.specs.Opened.{OthersStayOpen};

pub fn a_batch_is_a_part()
    ensures law { BatchIsAPart }
{}

pub fn others_stay_open()
    ensures law { OthersStayOpen }
{}
