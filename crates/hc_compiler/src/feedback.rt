//! The maps of a feedback.
ghost use Rattle.std.specs.Prelude.{◌≡◌};
ghost use Rattle.hc_compiler.specs.Feedback.{listed};

use arrayvec::ArrayVec;
use hc_sites::MAX_MAPS;

/// The maps in the places of a feedback, as a slice gives them.
pub(crate) fn maps_in(places: [Option<u32>; 4]) -> ArrayVec<u32, MAX_MAPS>
    ensures { result.items ≡ listed places }
{
    let mut maps = ArrayVec::new();
    for place in places.iter() {
        if let Some(map) = place {
            maps.push(*map);
        }
    }
    maps
}
