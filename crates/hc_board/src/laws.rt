//! What holds of every trail. The functions do nothing: each has a law as its contract, for a proof that calls it.
ghost use Rattle.hc_board.specs.Laws.{EarliestServes, EntryFitsAsOne, FitsGoOnward, FitsMeet, ImageIsWide, LongerKeepsEntries, LongerKeepsFits, LongerKeepsWords, LookAddsReads, NowIsImage, OnePosition, PastIsZero, RenewKeepsReads, StoreSetsImage, WiderKeepsFits};

pub fn image_is_wide()
    ensures law { ImageIsWide }
{}

pub fn store_sets_image()
    ensures law { StoreSetsImage }
{}

pub fn now_is_image()
    ensures law { NowIsImage }
{}

pub fn past_is_zero()
    ensures law { PastIsZero }
{}

pub fn longer_keeps_words()
    ensures law { LongerKeepsWords }
{}

pub fn longer_keeps_fits()
    ensures law { LongerKeepsFits }
{}

pub fn longer_keeps_entries()
    ensures law { LongerKeepsEntries }
{}

pub fn fits_go_onward()
    ensures law { FitsGoOnward }
{}

pub fn wider_keeps_fits()
    ensures law { WiderKeepsFits }
{}

pub fn fits_meet()
    ensures law { FitsMeet }
{}

pub fn earliest_serves()
    ensures law { EarliestServes }
{}

pub fn one_position()
    ensures law { OnePosition }
{}

pub fn entry_fits_as_one()
    ensures law { EntryFitsAsOne }
{}

pub fn renew_keeps_reads()
    ensures law { RenewKeepsReads }
{}

pub fn look_adds_reads()
    ensures law { LookAddsReads }
{}
