//! Objects, fast and slow.
ghost use Rattle.std.specs.Prelude.{◌≡◌, ◌<◌, ◌↔◌, None, Some, [], length, IfOk, IsSome};
ghost use Rattle.hc_board.specs.States.{AllFit, TableId, counted};
ghost use Rattle.hc_heap.specs.Readings.{map_in};
ghost use Rattle.hc_heap.specs.States.{IsDesk, OnlyLoads, no_items};
ghost use Rattle.hc_layout.specs.Shape.{IsShape, items_of};
ghost use Rattle.hc_modes.specs.Looks.{AreFast};
ghost use Rattle.hc_modes.specs.Meaning.{kept_of};
ghost use Rattle.hc_modes.specs.State.{IsObjects};
ghost use Rattle.hc_modes.specs.Came.{IsStill, world_of};

use hc_dict::Dictionary;
use hc_heap::{Heap, Pace, unused_says_nothing};
use hc_layout::{Region, Shape};
use hc_value::Memory;
use std::alloc::Global;
use std::marker::Model;

/// Objects: fast ones by their maps and slots, slow ones by dictionaries.
#[derive(Drop)]
pub struct Objects<P: Pace> {
    pub(crate) heap: Heap<P>,
    pub(crate) kept: Vec<Option<Dictionary>>,
    pub(crate) of_null: Option<u32>,
    pub(crate) alloc: Global,
}

impl<P: Pace> Model for Objects<P> {
    ghost use Rattle.hc_modes.specs.State.{ObjectsState, IsObjects};

    ghost Value = { ObjectsState P };

    ghost view = { λ o. record { heap = o.heap; kept = o.kept.items; of_null = o.of_null } };

    ghost invariant = { λ o. IsObjects o.heap.view o.kept.items o.of_null };
}

impl<P: Pace> Objects<P> {
    /// No objects, over a board whose words are 0. The pace holds no reader.
    pub fn new(alloc: Global, shape: Shape, pace: P) -> Result<Objects<P>, Memory>
        requires shape { IsShape shape }
        requires pace { (board : TableId) → P.fits pace board }
        ensures view { IfOk result (λ o. o.heap.view ≡ record { shape = shape; trail = []; used = no_items }) }
        ensures desk { IfOk result (λ o. o.heap.desk ≡ record { board = o.heap.desk.board; trail = []; loads = 0; met = [] }) }
        ensures pace { IfOk result (λ o. o.heap.pace ≡ pace) }
        ensures none { IfOk result (λ o. o.kept ≡ []) }
        ensures null { IfOk result (λ o. o.of_null ≡ None) }
    {
        let heap = Heap::new(alloc, shape, pace)?;
        Ok(Objects {
            heap,
            kept: Vec::new(alloc),
            of_null: None,
            alloc,
        })
    }

    /// What holds of objects: the words and the dictionaries are sound, an object that has a map is fast with it, the words are
    /// those of the board's stores, and the pace fits the board.
    pub fn stands(&self)
        ensures sound { IsObjects self.now.heap.view self.now.kept self.now.of_null }
        ensures fast { AreFast self.now.heap.view.trail }
        ensures desk { IsDesk self.now.heap.view self.now.heap.desk }
        ensures fits { P.fits self.now.heap.pace self.now.heap.desk.board }
    {
        unused_says_nothing();
        self.heap.stands();
    }

    /// How many items of a region were handed out.
    pub fn used(&self, region: Region) -> u32
        ensures { result ≡ items_of self.now.heap.view.used region }
    {
        self.heap.used(region)
    }

    /// The number of stores, up to the end of its type.
    pub fn writes(&self) -> u64
        ensures count { result ≡ counted (length self.now.heap.desk.trail) }
    {
        self.heap.writes()
    }

    /// The number of met entries, up to the end of its type. Each of them fits the stores.
    pub fn met(&self) -> u64
        ensures count { result ≡ counted (length self.now.heap.desk.met) }
        ensures fits { AllFit self.now.heap.desk }
    {
        self.heap.met()
    }

    /// The map of an object; none exactly where the object is slow.
    pub fn map_of(&mut self, o: u32) -> Option<u32>
        requires there { o < length (world_of self.old) }
        ensures value { result ≡ map_in self.old.heap.view.trail o }
        ensures slow { (result ≡ None) ↔ IsSome (kept_of self.old.kept o) }
        ensures still { IsStill self.old self.new }
        ensures loads { OnlyLoads 1 self.old.heap.desk self.new.heap.desk }
    {
        self.heap.object_map(o)
    }
}
