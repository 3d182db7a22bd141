//! How an object is kept, whether its map is live, and which objects share one.
ghost use Rattle.std.specs.Prelude.{◌≡◌, ◌≢◌, ◌<◌, ◌↔◌, false, IsTrue, IsSomeAnd, None, IfOk, length};
ghost use Rattle.hc_heap.specs.Readings.{bits_in, map_in};
ghost use Rattle.hc_heap.specs.States.{OnlyLoads};
ghost use Rattle.hc_modes.specs.Meaning.{cause_in};
ghost use Rattle.hc_modes.specs.Modes.{AreAlike, HaveOneWord, mode_of};
ghost use Rattle.hc_modes.specs.Came.{IsStill, world_of};
ghost use Rattle.hc_modes.specs.State.{IsLive};

use crate::objects::Objects;
use hc_heap::{Pace, gates_are_open};
use hc_value::{Memory, Mode};

impl<P: Pace> Objects<P> {
    /// How an object is kept: fast with so many properties, or slow for a cause.
    pub fn shape(&mut self, o: u32) -> Result<Mode, Memory>
        requires there { o < length (world_of self.old) }
        ensures mode { IfOk result (λ mode. mode ≡ mode_of self.old.heap.view.trail self.old.kept o) }
        ensures still { IsStill self.old self.new }
        ensures loads { OnlyLoads 2 self.old.heap.desk self.new.heap.desk }
    {
        if let Some(slow) = self.slow(o) {
            return Ok(Mode::Slow(slow.cause));
        }
        Ok(Mode::Fast(self.len(o)))
    }

    /// Whether a map is deprecated.
    pub fn is_dead(&mut self, map: u32) -> bool
        ensures dead { result ≡ (bits_in self.old.heap.view.trail map).deprecated }
        ensures still { IsStill self.old self.new }
        ensures loads { OnlyLoads 1 self.old.heap.desk self.new.heap.desk }
    {
        self.heap.bits(map).deprecated
    }

    /// Whether the map of an object is deprecated. A slow object has none.
    pub fn is_deprecated(&mut self, o: u32) -> bool
        requires there { o < length (world_of self.old) }
        ensures live { (result ≡ false) ↔ IsLive self.old.heap.view.trail o }
        ensures dead { IsTrue result → IsSomeAnd (map_in self.old.heap.view.trail o) (λ m. IsTrue (bits_in self.old.heap.view.trail m).deprecated) }
        ensures still { IsStill self.old self.new }
        ensures loads { OnlyLoads 2 self.old.heap.desk self.new.heap.desk }
    {
        match self.map_of(o) {
            Some(map) => self.is_dead(map),
            None => false,
        }
    }

    /// Whether two objects are fast and have one map. No map of theirs is deprecated.
    pub fn same(&mut self, a: u32, b: u32) -> Result<bool, Memory>
        requires a { a < length (world_of self.old) }
        requires b { b < length (world_of self.old) }
        requires live_a { IsLive self.old.heap.view.trail a }
        requires live_b { IsLive self.old.heap.view.trail b }
        ensures itself { a ≡ b → IfOk result (λ same. IsTrue same ↔ (cause_in self.old.kept a ≡ None)) }
        ensures others { a ≢ b → IfOk result (λ same. IsTrue same ↔ AreAlike self.old.heap.view.trail self.old.kept a b) }
        ensures words { IfOk result (λ same. IsTrue same ↔ HaveOneWord self.old.heap.view.trail a b) }
        ensures still { IsStill self.old self.new }
        ensures loads { OnlyLoads 2 self.old.heap.desk self.new.heap.desk }
    {
        gates_are_open();
        self.stands();
        let (Some(map), Some(other)) = (self.map_of(a), self.map_of(b)) else {
            return Ok(false);
        };
        Ok(map == other)
    }
}
