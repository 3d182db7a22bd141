//! What holds of installed plans. The functions do nothing: each has a law as its contract, for a proof that calls it.
ghost use Rattle.hc_installed.specs.Laws.{BreaksAreFirst, HitsAreLive, HitsStay, InstalledAreRight, MissesStay, NewSitesCountNone, NewSitesHaveNoPlan, OtherEventsAddNoPlan, OtherEventsKeepPlans, OutcomesStayInstalled, PlansAreFew, PlansStayInstalled, PromptIsNotRefused, QuietBreaksNoPlan, RefusedHadHeld, RestIsNow, RestingStays, TestsAreMeant, UnbrokenAreLeft};

use hc_board::{entry_fits_as_one, longer_keeps_words, now_is_image};
use hc_deps::holds_as_the_trail_says;
use hc_heap::{Pace, positions_are_stores, stores_are_writes, words_say};
use hc_soundness::{
    borne_is_right, borne_names_live, installed_is_borne, quiet_breaks_none, reads_are_told,
    told_at_once_holds, told_is_borne, told_is_of_site, unbroken_is_borne,
};

/// What is tested of a dependency is that it holds, or is on a value.
pub fn tests_are_meant()
    ensures law { TestsAreMeant }
{}

/// What breaks a plan is its first dependency, other than a value, that doesn't hold.
pub fn breaks_are_first()
    ensures law { BreaksAreFirst }
{}

/// From one rest to a later one the plans that aren't broken stay borne.
pub fn plans_stay_installed()
    ensures law { PlansStayInstalled }
{
    unbroken_is_borne();
}

/// Where nothing was written to bits and details, no plan is broken.
pub fn quiet_breaks_no_plan()
    ensures law { QuietBreaksNoPlan }
{
    holds_as_the_trail_says();
    quiet_breaks_none();
}

/// After broken plans are discarded none is left.
pub fn unbroken_are_left()
    ensures law { UnbrokenAreLeft }
{}

/// There are no more plans than sites.
pub fn plans_are_few()
    ensures law { PlansAreFew }
{}

/// What becomes of an outcome that reads told, earlier or now, leaves the plans of sites borne.
pub fn outcomes_stay_installed()
    ensures law { OutcomesStayInstalled }
{
    installed_is_borne();
    told_is_of_site();
    entry_fits_as_one();
}

/// An outcome isn't refused where nothing was stored since the job's reads.
pub fn prompt_outcomes_are_not_refused()
    ensures law { PromptIsNotRefused }
{
    told_at_once_holds();
}

/// A dependency for which a plan is refused held where the job made its reads.
pub fn refused_had_held()
    ensures law { RefusedHadHeld }
{
    told_is_of_site();
    reads_are_told();
    told_is_borne();
}

/// Reads that are made at rest are reads of one rest.
pub fn rest_is_now()
    ensures law { RestIsNow }
{
    stores_are_writes();
}

/// And so they stay.
pub fn resting_stays()
    ensures law { RestingStays }
{
    longer_keeps_words();
    positions_are_stores();
    stores_are_writes();
}

/// An event that installs no plan leaves those of sites borne.
pub fn other_events_keep_plans()
    ensures law { OtherEventsKeepPlans }
{}

/// And no more sites have one.
pub fn other_events_add_no_plan()
    ensures law { OtherEventsAddNoPlan }
{}

/// A new site has no plan.
pub fn new_sites_have_no_plan()
    ensures law { NewSitesHaveNoPlan }
    ensures count { NewSitesCountNone }
{}

/// A plan that a site has is right.
pub fn installed_are_right()
    ensures law { InstalledAreRight }
{
    borne_is_right();
}

/// A site's plan answers for no receiver whose map is deprecated.
pub fn hits_are_live<P: Pace>()
    ensures law { HitsAreLive P }
{
    words_say();
    stores_are_writes();
    now_is_image();
    borne_names_live();
}

/// What a site's plan answers is the same after loads.
pub fn loads_keep_answers<P: Pace>()
    ensures hit { HitsStay P }
    ensures miss { MissesStay P }
{}
