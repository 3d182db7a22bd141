//! What holds of every dependency. The function does nothing: it has a law as its contract, for a proof that calls it.
ghost use Rattle.hc_deps.specs.Trails.{HoldsAsTheTrailSays};

use hc_board::now_is_image;
use hc_heap::{stores_are_writes, unused_says_nothing, words_say, writes_are_within};

pub fn holds_as_the_trail_says()
    ensures law { HoldsAsTheTrailSays }
{
    words_say();
    stores_are_writes();
    now_is_image();
    writes_are_within();
    unused_says_nothing();
}
