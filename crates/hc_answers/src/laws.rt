//! What holds of the questions of lawful trails. The functions do nothing: each has a law as its contract, for a proof
//! that calls it.
ghost use Rattle.hc_answers.specs.Laws.{LinksAreFew, NoJobStops, QuestionsAreSafe, ReadsTell};

use hc_heap::{
    details_rise, forms_are_kept, gates_are_open, lawful_at_each, positions_go_on, stores_grow,
    unused_says_nothing, words_say, writes_are_within, written_is_kept,
};
use hc_links::{links_are_chained, links_lead};
use hc_question::fits_never_stop;

pub fn links_are_few()
    ensures law { LinksAreFew }
{
    written_is_kept();
    links_are_chained();
    links_lead();
}

pub fn questions_are_safe()
    ensures law { QuestionsAreSafe }
{
    lawful_at_each();
    positions_go_on();
    words_say();
    unused_says_nothing();
    writes_are_within();
    written_is_kept();
    details_rise();
    stores_grow();
    gates_are_open();
    forms_are_kept();
    links_are_chained();
    links_lead();
    links_are_few();
}

pub fn no_job_stops()
    ensures law { NoJobStops }
{
    questions_are_safe();
    fits_never_stop();
}

pub fn reads_tell()
    ensures law { ReadsTell }
{
    no_job_stops();
}
