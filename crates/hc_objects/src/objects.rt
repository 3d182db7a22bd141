//! Objects, and which of them valid cells may concern.
ghost use Rattle.std.specs.Prelude.{◌≡◌, ◌≢◌, ◌<◌, ◌↔◌, IsTrue, None, Some, [], length, replicate, IfOk, IsSome, OnErr, OnOk};
ghost use Rattle.hc_board.specs.States.{AllFit, TableId, counted};
ghost use Rattle.hc_cells.specs.Cells.{AreCells};
ghost use Rattle.hc_heap.specs.Readings.{bits_in, map_in};
ghost use Rattle.hc_heap.specs.States.{IsDesk, OnlyLoads, no_items};
ghost use Rattle.hc_layout.specs.Shape.{IsShape, items_of};
ghost use Rattle.hc_modes.specs.Looks.{AreFast};
ghost use Rattle.hc_modes.specs.Meaning.{cause_in, kept_of};
ghost use Rattle.hc_modes.specs.Modes.{AreAlike, HaveOneWord, mode_of};
ghost use Rattle.hc_modes.specs.State.{IsLive, IsObjects, ObjectsState};
ghost use Rattle.hc_objects.specs.Came.{IsStill, MadeLive, Moves, world_of};

use hc_cells::Watched;
use hc_heap::Pace;
use hc_layout::{Region, Shape};
use hc_modes::{Objects as Inside, alike_objects_stay_live, fields_stay_honest};
use hc_value::{Memory, Mode};
use std::alloc::Global;
use std::marker::Model;

/// Objects, of each that is slow its prototype, and marks of those that a valid cell may concern.
#[derive(Drop)]
pub struct Objects<P: Pace> {
    pub(crate) inside: Inside<P>,
    pub(crate) protos: Vec<Option<u32>>,
    pub(crate) watched: Watched,
}

impl<P: Pace> Model for Objects<P> {
    ghost use Rattle.hc_modes.specs.State.{ObjectsState};
    ghost use Rattle.hc_objects.specs.State.{IsWatching};

    ghost Value = { ObjectsState P };

    ghost view = { λ o. o.inside };

    ghost invariant = { λ o. IsWatching o.inside o.protos.items o.watched };
}

// The prototypes of slow objects, while none is.
fn no_protos(alloc: Global, objects: u32) -> Result<Vec<Option<u32>>, Memory>
    ensures none { IfOk result (λ protos. protos.items ≡ replicate objects None) }
{
    Ok(vec![in alloc; None; objects as usize]?)
}

impl<P: Pace> Objects<P> {
    /// No objects, over a board whose words are 0. The pace holds no reader.
    pub fn new(alloc: Global, shape: Shape, pace: P) -> Result<Objects<P>, Memory>
        requires shape { IsShape shape }
        requires pace { (board : TableId) → P.fits pace board }
        ensures view { IfOk result (λ o. o.heap.view ≡ record { shape = shape; trail = []; used = no_items }) }
        ensures desk { IfOk result (λ o. o.heap.desk ≡ record { board = o.heap.desk.board; trail = []; loads = 0; met = [] }) }
        ensures pace { IfOk result (λ o. o.heap.pace ≡ pace) }
        ensures none { IfOk result (λ o. o.kept ≡ []) }
        ensures null { IfOk result (λ o. o.of_null ≡ None) }
    {
        fields_stay_honest::<P>();
        let most = shape.objects;
        let inside = Inside::new(alloc, shape, pace)?;
        let protos = no_protos(alloc, most)?;
        let watched = Watched::new(alloc, most)?;
        Ok(Objects {
            inside,
            protos,
            watched,
        })
    }

    /// What holds of objects: the words and the dictionaries are sound, an object that has a map is fast with it, cells are sound, the
    /// words are those of the board's stores, and the pace fits the board.
    pub fn stands(&self)
        ensures sound { IsObjects self.now.heap.view self.now.kept self.now.of_null }
        ensures fast { AreFast self.now.heap.view.trail }
        ensures cells { AreCells self.now.heap.view.trail self.now.heap.view.used }
        ensures desk { IsDesk self.now.heap.view self.now.heap.desk }
        ensures fits { P.fits self.now.heap.pace self.now.heap.desk.board }
    {
        self.inside.stands();
    }

    /// How many items of a region were handed out.
    pub fn used(&self, region: Region) -> u32
        ensures { result ≡ items_of self.now.heap.view.used region }
    {
        self.inside.used(region)
    }

    /// The number of stores, up to the end of its type.
    pub fn writes(&self) -> u64
        ensures count { result ≡ counted (length self.now.heap.desk.trail) }
    {
        self.inside.writes()
    }

    /// The number of met entries, up to the end of its type. Each of them fits the stores.
    pub fn met(&self) -> u64
        ensures count { result ≡ counted (length self.now.heap.desk.met) }
        ensures fits { AllFit self.now.heap.desk }
    {
        self.inside.met()
    }

    /// The map of an object; none exactly where the object is slow.
    pub fn map_of(&mut self, o: u32) -> Option<u32>
        requires there { o < length (world_of self.old) }
        ensures value { result ≡ map_in self.old.heap.view.trail o }
        ensures slow { (result ≡ None) ↔ IsSome (kept_of self.old.kept o) }
        ensures still { IsStill self.old self.new }
        ensures loads { OnlyLoads 1 self.old.heap.desk self.new.heap.desk }
    {
        self.inside.map_of(o)
    }

    /// Whether a map is deprecated.
    pub fn is_dead(&mut self, map: u32) -> bool
        ensures dead { result ≡ (bits_in self.old.heap.view.trail map).deprecated }
        ensures still { IsStill self.old self.new }
        ensures loads { OnlyLoads 1 self.old.heap.desk self.new.heap.desk }
    {
        self.inside.is_dead(map)
    }

    /// How an object is kept: fast with so many properties, or slow for a cause. Where it is deprecated it is migrated before.
    pub fn shape(&mut self, o: u32) -> Result<Mode, Memory>
        requires there { o < length (world_of self.old) }
        ensures made { OnOk result (MadeLive P.went self.old o self.new) }
        ensures moved { OnErr result (Moves P.went self.old self.new) }
        ensures mode { IfOk result (λ mode. mode ≡ mode_of self.new.heap.view.trail self.new.kept o) }
    {
        self.migrate(o)?;
        self.inside.shape(o)
    }

    // Has two objects be live: the first, then the second, and then the first again, since the second's migration may have deprecated
    // its map.
    fn migrate_both(&mut self, a: u32, b: u32) -> Result<(), Memory>
        requires a { a < length (world_of self.old) }
        requires b { b < length (world_of self.old) }
        ensures live_a { OnOk result (IsLive self.new.heap.view.trail a) }
        ensures live_b { OnOk result (IsLive self.new.heap.view.trail b) }
        ensures made { OnOk result ((once : ObjectsState P) × (twice : ObjectsState P) × MadeLive P.went self.old a once × MadeLive P.went once b twice × MadeLive P.went twice a self.new) }
        ensures moved { Moves P.went self.old self.new }
    {
        alike_objects_stay_live::<P>();
        self.migrate(a)?;
        self.stands();
        self.migrate(b)?;
        self.migrate(a)
    }

    /// Whether two objects are fast and have one map. They are migrated before, the first one once more after the second.
    pub fn same(&mut self, a: u32, b: u32) -> Result<bool, Memory>
        requires a { a < length (world_of self.old) }
        requires b { b < length (world_of self.old) }
        ensures itself { a ≡ b → IfOk result (λ same. IsTrue same ↔ (cause_in self.new.kept a ≡ None)) }
        ensures others { a ≢ b → IfOk result (λ same. IsTrue same ↔ AreAlike self.new.heap.view.trail self.new.kept a b) }
        ensures words { IfOk result (λ same. IsTrue same ↔ HaveOneWord self.new.heap.view.trail a b) }
        ensures made { OnOk result ((once : ObjectsState P) × (twice : ObjectsState P) × MadeLive P.went self.old a once × MadeLive P.went once b twice × MadeLive P.went twice a self.new) }
        ensures moved { Moves P.went self.old self.new }
    {
        self.migrate_both(a, b)?;
        self.inside.same(a, b)
    }
}
