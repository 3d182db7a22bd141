//! What holds of all sites. The functions do nothing: each has a law as its contract, for a proof that calls it.
ghost use Rattle.hc_sites.specs.Laws.{FoldOfItsEvents, MegamorphicForGood};

pub fn a_site_is_the_fold_of_its_events()
    ensures law { FoldOfItsEvents }
{}

pub fn megamorphic_for_good()
    ensures law { MegamorphicForGood }
{}
