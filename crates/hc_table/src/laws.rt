//! What changing calls keep of the objects. The function does nothing: it has a law as its contract, for a proof that calls it.
ghost use Rattle.hc_table.specs.Kept.{ChangesKeep};

pub fn changes_keep()
    ensures law { ChangesKeep }
{}
