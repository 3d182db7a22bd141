//! Validity cells of objects: handed out, asked, and made invalid.
ghost use Rattle.std.specs.Prelude.{◌≡◌, ℕ, ◌+◌, ◌*◌, ◌<◌, ◌≤◌, false, None, Some, IfSome, length};
ghost use Rattle.hc_layout.specs.declared.shape.Region.TheVariants.{Cells};
ghost use Rattle.hc_heap.specs.Kept.{Adds};
ghost use Rattle.hc_heap.specs.Readings.{validity_in};
ghost use Rattle.hc_heap.specs.States.{HasRoom, OnlyLoads};
ghost use Rattle.hc_cells.specs.Cells.{AreCells, Invalidates, cell_after, is_valid, loads_for, named_cell, valid_cell, with_cell};
ghost use Rattle.hc_cells.specs.Chains.{chain};
ghost use Rattle.hc_cells.specs.Watched.{AreWatched, AreWatchedBut, is_watched};
ghost use Rattle.hc_modes.specs.Came.{IsStill, world_of};
ghost use Rattle.hc_modes.specs.Validity.{OnlyCells, protos_of, slow_proto as proto_in};

use crate::objects::Objects;
use hc_cells::Watched;
use hc_facts::{honest_after, kept_is_carried};
use hc_heap::{Pace, details_rise, unused_says_nothing};
use hc_tree::{maps_are_kept, trees_stay};

impl<P: Pace> Objects<P> {
    /// The prototype of a slow object; none for a fast one.
    pub fn slow_proto(&self, o: u32) -> Option<u32>
        requires there { o < length (world_of self.now) }
        ensures { result ≡ proto_in self.now.kept o }
    {
        self.slow(o)?.proto
    }

    /// Whether a cell is valid.
    pub fn valid(&mut self, cell: u32) -> bool
        ensures valid { result ≡ is_valid (validity_in self.old.heap.view.trail cell) }
        ensures still { IsStill self.old self.new }
        ensures loads { OnlyLoads 1 self.old.heap.desk self.new.heap.desk }
    {
        hc_cells::valid(&mut self.heap, cell)
    }

    /// Makes exactly those valid cells invalid whose prototypes' chains go through an object that changed, or is to change.
    /// `protos` has for each object that is slow its prototype. Where the object isn't marked nothing is loaded or stored.
    pub fn invalidate(&mut self, watched: &mut Watched, o: u32, protos: &[Option<u32>])
        requires object { o < length (world_of self.old) }
        requires protos { protos.now ≡ protos_of self.old }
        requires room { length protos.now ≤ length watched.old }
        requires cells { AreCells self.old.heap.view.trail self.old.heap.view.used }
        requires watched { AreWatchedBut o self.old.heap.view.trail protos.now watched.old }
        ensures after { (c : ℕ) → validity_in self.new.heap.view.trail c ≡ cell_after self.old.heap.view.trail protos.now o c }
        ensures writes { Adds (Invalidates self.old.heap.view.trail protos.now o) self.old.heap.view.trail self.new.heap.view.trail }
        ensures view { self.new.heap.view ≡ record self.old.heap.view { trail = self.new.heap.view.trail } }
        ensures only { OnlyCells P.went self.old self.new }
        ensures free { is_watched watched.old o ≡ false → self.new ≡ self.old }
        ensures loads { self.new.heap.desk.loads ≤ self.old.heap.desk.loads + loads_for self.old.heap.view.trail protos.now o self.old.heap.view.used.cells }
        ensures watched { AreWatched self.new.heap.view.trail protos.now watched.new }
        ensures size { length watched.new ≡ length watched.old }
        ensures cells { AreCells self.new.heap.view.trail self.new.heap.view.used }
    {
        maps_are_kept();
        details_rise();
        trees_stay();
        unused_says_nothing();
        honest_after();
        kept_is_carried();
        watched.invalidate(&mut self.heap, o, protos);
    }

    /// A valid cell of a prototype: the one that its word names, and else a new record. None where one is needed and none is
    /// left. `protos` has for each object that is slow its prototype.
    pub fn cell_of(&mut self, watched: &mut Watched, o: u32, protos: &[Option<u32>]) -> Option<u32>
        requires object { o < length (world_of self.old) }
        requires protos { protos.now ≡ protos_of self.old }
        requires room { length protos.now ≤ length watched.old }
        requires cells { AreCells self.old.heap.view.trail self.old.heap.view.used }
        requires watched { AreWatched self.old.heap.view.trail protos.now watched.old }
        ensures named { IfSome (named_cell self.old.heap.view.trail o) (λ c. (result ≡ Some c) × (self.new.heap.view ≡ self.old.heap.view)) }
        ensures made { named_cell self.old.heap.view.trail o ≡ None → HasRoom self.old.heap.view Cells 1 → (result ≡ Some self.old.heap.view.used.cells) × (self.new.heap.view ≡ with_cell self.old.heap.view o) }
        ensures none { named_cell self.old.heap.view.trail o ≡ None → (HasRoom self.old.heap.view Cells 1 → ⊥) → (result ≡ None) × (self.new.heap.view ≡ self.old.heap.view) }
        ensures valid { IfSome result (λ c. validity_in self.new.heap.view.trail c ≡ Some (valid_cell o)) }
        ensures only { OnlyCells P.went self.old self.new }
        ensures loads { self.new.heap.desk.loads ≤ self.old.heap.desk.loads + (2 + 2 * length (chain self.old.heap.view.trail protos.now o)) }
        ensures watched { AreWatched self.new.heap.view.trail protos.now watched.new }
        ensures size { length watched.new ≡ length watched.old }
        ensures cells { AreCells self.new.heap.view.trail self.new.heap.view.used }
    {
        maps_are_kept();
        details_rise();
        trees_stay();
        unused_says_nothing();
        honest_after();
        kept_is_carried();
        watched.cell_of(&mut self.heap, o, protos)
    }
}
