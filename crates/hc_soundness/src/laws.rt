//! Why an installed plan is right. The functions do nothing: each has a law as its contract, for a proof that calls it.
ghost use Rattle.hc_soundness.specs.Applied.{AppliedIsRight, BorneCanApply};
ghost use Rattle.hc_soundness.specs.Breaks.{OthersAreUnbroken, QuietBreaksNone, SameSubjectsHold};
ghost use Rattle.hc_soundness.specs.Installed.{InstalledIsBorne, ToldAtOnceHolds, UnbrokenIsBorne};
ghost use Rattle.hc_soundness.specs.Laws.{BorneIsKept, BorneIsRight, BorneNamesLive, ObjectsRest, OwnIsBorne, SeenIsBorne, SeenIsKept, ToldIsBorne, ToldIsReadable, ToldIsSeen};
ghost use Rattle.hc_soundness.specs.Reads.{ReadsAreSeen, ReadsAreTold, ToldIsOfSite};

use hc_board::now_is_image;
use hc_deps::holds_as_the_trail_says;
use hc_heap::{
    deprecated_are_unstable, details_rise, entries_are_kept, forms_are_kept, gates_are_open,
    positions_go_on, stable_is_kept, stores_are_writes, unused_says_nothing, words_say,
    writes_are_within, written_is_kept,
};
use hc_links::{links_are_chained, links_are_kept, links_lead, same_keys_are_equal};

/// A plan that the words of a moment at rest bear answers as full lookup.
pub fn borne_is_right()
    ensures law { BorneIsRight }
{
    gates_are_open();
    unused_says_nothing();
}

/// No map that it names is deprecated.
pub fn borne_names_live()
    ensures law { BorneNamesLive }
{
    deprecated_are_unstable();
}

/// What the words of one moment at rest tell, they bear.
pub fn told_is_borne()
    ensures law { ToldIsBorne }
{
    forms_are_kept();
    unused_says_nothing();
    writes_are_within();
}

/// What the answer of a told case reads is there.
pub fn told_is_readable()
    ensures law { ToldIsReadable }
{
    forms_are_kept();
    unused_says_nothing();
}

/// There are such plans.
pub fn own_is_borne()
    ensures law { OwnIsBorne }
{
    told_is_borne();
}

/// What words that were seen tell is borne at a rest where each dependency holds.
pub fn seen_is_borne()
    ensures law { SeenIsBorne }
{
    stable_is_kept();
    details_rise();
    links_are_kept();
    same_keys_are_equal();
}

/// What was told was seen, later on.
pub fn told_is_seen()
    ensures law { ToldIsSeen }
{
    written_is_kept();
    entries_are_kept();
}

/// What was seen was seen, later on too.
pub fn seen_is_kept()
    ensures law { SeenIsKept }
{
    written_is_kept();
    entries_are_kept();
}

/// A plan stays borne from one rest to a later one while its dependencies hold.
pub fn borne_is_kept()
    ensures law { BorneIsKept }
{
    stable_is_kept();
    told_is_seen();
    seen_is_borne();
}

/// Objects between two commands are at rest.
pub fn objects_rest()
    ensures law { ObjectsRest }
{}

/// A plan that reads tell is that of the site.
pub fn told_is_of_site()
    ensures law { ToldIsOfSite }
{}

/// What reads of one position tell of a plan's cases, the words of that position tell.
pub fn reads_are_told()
    ensures law { ReadsAreTold }
{
    words_say();
    positions_go_on();
    written_is_kept();
    entries_are_kept();
    links_are_chained();
    links_lead();
}

/// What reads that fit a trail tell of a plan's cases was seen.
pub fn reads_are_seen()
    ensures law { ReadsAreSeen }
{
    words_say();
    positions_go_on();
    written_is_kept();
    entries_are_kept();
    links_are_chained();
    links_lead();
}

/// A dependency holds still where its map's bits, or its field's detail, are as they were.
pub fn same_subjects_hold()
    ensures law { SameSubjectsHold }
{}

/// A dependency holds still after writes to other bits and details.
pub fn others_are_unbroken()
    ensures law { OthersAreUnbroken }
{}

/// Where none were to bits and details, no dependency is broken.
pub fn quiet_breaks_none()
    ensures law { QuietBreaksNone }
{}

/// What a borne plan answers on the words of the board is the answer of the ordinary operation.
pub fn applied_is_right()
    ensures law { AppliedIsRight }
{
    words_say();
    stores_are_writes();
    now_is_image();
    holds_as_the_trail_says();
    gates_are_open();
    forms_are_kept();
    unused_says_nothing();
}

/// A borne plan can be used: its answers can be read.
pub fn borne_can_apply()
    ensures law { BorneCanApply }
{
    words_say();
    stores_are_writes();
    now_is_image();
    holds_as_the_trail_says();
    gates_are_open();
    forms_are_kept();
    unused_says_nothing();
}

/// A plan that was installed is borne.
pub fn installed_is_borne()
    ensures law { InstalledIsBorne }
{
    holds_as_the_trail_says();
    stores_are_writes();
    told_is_of_site();
    reads_are_seen();
    seen_is_borne();
}

/// A plan of reads since which nothing was stored isn't refused.
pub fn told_at_once_holds()
    ensures law { ToldAtOnceHolds }
{
    holds_as_the_trail_says();
    stores_are_writes();
    told_is_of_site();
    reads_are_told();
    told_is_borne();
}

/// A plan that isn't broken stays borne.
pub fn unbroken_is_borne()
    ensures law { UnbrokenIsBorne }
{
    holds_as_the_trail_says();
    stores_are_writes();
    borne_is_kept();
}
