//! What a site has seen of maps.
ghost use Rattle.std.specs.Prelude.{◌≡◌, ◌≤◌, [], if◌then◌else◌, length};
ghost use Rattle.hc_sites.specs.Maps.{AreMaps, has_map, is_one_too_many, with_map, without_map, places};

use arrayvec::ArrayVec;
use std::marker::Model;

/// How many maps a site keeps at most.
pub const MAX_MAPS: usize = 4;

/// The maps that a site has seen, in the order in which they came.
#[derive(Drop)]
pub struct Maps {
    items: ArrayVec<u32, MAX_MAPS>,
}

impl Model for Maps {
    ghost use Rattle.std.specs.Prelude.{ℕ, List};
    ghost use Rattle.hc_sites.specs.Maps.{AreMaps};

    ghost Value = { List ℕ };

    ghost view = { λ maps. maps.items.items };

    ghost invariant = { λ maps. AreMaps maps.items.items };
}

impl Maps {
    pub(crate) fn new() -> Maps
        ensures { result ≡ [] }
    {
        Maps {
            items: ArrayVec::new(),
        }
    }

    pub(crate) fn as_slice(&self) -> &[u32]
        ensures value { result.now ≡ self.now }
        ensures maps { AreMaps self.now }
    {
        self.items.as_slice()
    }

    /// Notes a map, and tells whether it found as many others as a site keeps.
    pub(crate) fn note(&mut self, map: u32) -> bool
        ensures maps { self.new ≡ with_map self.old map }
        ensures answer { result ≡ is_one_too_many self.old map }
    {
        if self.as_slice().contains(&map) {
            return false;
        }
        if self.items.is_full() {
            return true;
        }
        self.items.push(map);
        false
    }

    pub(crate) fn forget(&mut self, map: u32)
        ensures { self.new ≡ without_map self.old map }
    {
        self.items.retain(|other| *other != map);
    }
}

/// What a job is told of a site: the maps that it has seen, the first in front, and whether there were too many.
#[derive(Clone, Copy, PartialEq, Eq)]
pub struct Feedback {
    pub maps: [Option<u32>; 4],
    pub mega: bool,
}

/// The maps in the places of a feedback.
pub fn in_places(maps: &[u32]) -> [Option<u32>; 4]
    ensures { result ≡ places maps.now }
{
    [
        maps.first().copied(),
        maps.get(1).copied(),
        maps.get(2).copied(),
        maps.get(3).copied(),
    ]
}
