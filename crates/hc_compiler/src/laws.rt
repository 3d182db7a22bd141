//! What holds of open jobs. The functions do nothing: each has a law as its contract, for a proof that calls it.
ghost use Rattle.hc_compiler.specs.Laws.{JobsReadOn};

use hc_heap::{Pace, stores_are_writes};
use hc_modes::writes_go_on;

pub fn jobs_read_on<P: Pace>()
    ensures law { JobsReadOn P }
{
    writes_go_on();
    stores_are_writes();
}
