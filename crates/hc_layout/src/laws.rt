//! What holds of every shape. The functions do nothing: each has a law as its contract, for a proof that calls it.
ghost use Rattle.hc_layout.specs.Place.{PlacesLie, PlacesAreFound};

pub fn places_lie()
    ensures law { PlacesLie }
{}

pub fn places_are_found()
    ensures law { PlacesAreFound }
{}
