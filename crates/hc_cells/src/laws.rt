//! What a change of one object leaves of chains. The functions do nothing: each has a law as its contract, for a proof that calls it.
ghost use Rattle.hc_cells.specs.Laws.{ChainsStay, MarksStay, WaysStay};

pub fn chains_stay()
    ensures law { ChainsStay }
{}

pub fn ways_stay()
    ensures law { WaysStay }
{}

pub fn marks_stay()
    ensures law { MarksStay }
{
    chains_stay();
    ways_stay();
}
