//! Which objects a valid cell may concern, so that a change of any other costs nothing.
ghost use Rattle.std.specs.Prelude.{◌≡◌, ◌≢◌, ℕ, ◌+◌, ◌*◌, ◌<◌, ◌≤◌, ◌||◌, Bool, IsTrue, false, Some, None, IfSome, IfOk, length, replicate, slice_set};
ghost use Rattle.hc_layout.specs.declared.shape.Region.TheVariants.{Cells};
ghost use Rattle.hc_heap.specs.Readings.{validity_in};
ghost use Rattle.hc_heap.specs.Kept.{Adds};
ghost use Rattle.hc_heap.specs.States.{IsHeap, Goes, HasRoom, OnlyLoads};
ghost use Rattle.hc_cells.specs.Chains.{Ends, HaveEnds, chain, passes};
ghost use Rattle.hc_cells.specs.Cells.{AreCells, Invalidates, cell_after, loads_for, named_cell as named_in, valid_cell, with_cell};
ghost use Rattle.hc_cells.specs.Watched.{AreWatched, AreWatchedBut, is_watched};

use crate::cells::{invalidate, named_cell, new_cell};
use crate::chain::proto_of;
use hc_heap::{Heap, Pace};
use hc_value::Memory;
use std::alloc::Global;
use std::marker::Model;

/// Marks of objects: each is marked that the chain of a valid cell goes through.
#[derive(Drop)]
pub struct Watched {
    marks: Vec<bool>,
}

impl Model for Watched {
    ghost use Rattle.std.specs.Prelude.{Bool, List};

    ghost Value = { List Bool };

    ghost view = { λ w. w.marks.items };
}

impl Watched {
    /// No mark, for so many objects.
    pub fn new(alloc: Global, objects: u32) -> Result<Watched, Memory>
        ensures none { IfOk result (λ w. w ≡ replicate objects false) }
    {
        Ok(Watched {
            marks: vec![in alloc; false; objects as usize]?,
        })
    }

    /// Whether a valid cell's chain may go through an object.
    pub fn may_concern(&self, object: u32) -> bool
        requires there { object < length self.now }
        ensures { result ≡ is_watched self.now object }
    {
        self.marks[object as usize]
    }

    // Marks the objects of a chain.
    fn watch<P: Pace>(&mut self, h: &mut Heap<P>, from: u32, protos: &[Option<u32>])
        requires ends { Ends (length protos.now) h.old.view.trail protos.now (Some from) }
        requires room { length protos.now ≤ length self.old }
        ensures marks { (o : ℕ) → is_watched self.new o ≡ (passes h.old.view.trail protos.now from o || is_watched self.old o) }
        ensures size { length self.new ≡ length self.old }
        ensures same { h.new ≡ record h.old { desk = h.new.desk } }
        ensures loads { OnlyLoads (2 * length (chain h.old.view.trail protos.now from)) h.old.desk h.new.desk }
        ensures goes { Goes h.old.desk h.new.desk }
        ensures went { P.went h.old.pace h.old.desk.trail h.new.desk.trail h.new.pace }
    {
        let mut at = Some(from);
        while let Some(here) = at {
            self.marks[here as usize] = true;
            at = proto_of(h, here, protos);
        }
    }

    /// A valid cell of a prototype, as `cell_of` gives it. The objects of a new one's chain are marked.
    pub fn cell_of<P: Pace>(
        &mut self,
        h: &mut Heap<P>,
        object: u32,
        protos: &[Option<u32>],
    ) -> Option<u32>
        requires handed { object < h.old.view.used.objects }
        requires items { h.old.view.used.objects ≤ length protos.now }
        requires room { length protos.now ≤ length self.old }
        requires ends { HaveEnds h.old.view.trail protos.now }
        requires cells { AreCells h.old.view.trail h.old.view.used }
        requires watched { AreWatched h.old.view.trail protos.now self.old }
        ensures named { IfSome (named_in h.old.view.trail object) (λ c. (result ≡ Some c) × (h.new.view ≡ h.old.view)) }
        ensures made { named_in h.old.view.trail object ≡ None → HasRoom h.old.view Cells 1 → (result ≡ Some h.old.view.used.cells) × (h.new.view ≡ with_cell h.old.view object) }
        ensures none { named_in h.old.view.trail object ≡ None → (HasRoom h.old.view Cells 1 → ⊥) → (result ≡ None) × (h.new.view ≡ h.old.view) }
        ensures valid { IfSome result (λ c. validity_in h.new.view.trail c ≡ Some (valid_cell object)) }
        ensures loads { h.new.desk.loads ≤ h.old.desk.loads + (2 + 2 * length (chain h.old.view.trail protos.now object)) }
        ensures watched { AreWatched h.new.view.trail protos.now self.new }
        ensures marks { (o : ℕ) → IsTrue (is_watched self.new o) → IsTrue (passes h.old.view.trail protos.now object o || is_watched self.old o) }
        ensures size { length self.new ≡ length self.old }
        ensures cells { AreCells h.new.view.trail h.new.view.used }
        ensures heap { IsHeap h.new.view }
        ensures goes { Goes h.old.desk h.new.desk }
        ensures went { P.went h.old.pace h.old.desk.trail h.new.desk.trail h.new.pace }
    {
        h.stands();
        if let Some(cell) = named_cell(h, object) {
            return Some(cell);
        }
        let cell = new_cell(h, object)?;
        self.watch(h, object, protos);
        Some(cell)
    }

    /// What `invalidate` does, before the object changes or after it. Where the object isn't marked there is nothing to do, and
    /// nothing is loaded or stored.
    pub fn invalidate<P: Pace>(&mut self, h: &mut Heap<P>, object: u32, protos: &[Option<u32>])
        requires there { object < length self.old }
        requires items { h.old.view.used.objects ≤ length protos.now }
        requires ends { HaveEnds h.old.view.trail protos.now }
        requires cells { AreCells h.old.view.trail h.old.view.used }
        requires watched { AreWatchedBut object h.old.view.trail protos.now self.old }
        ensures after { (c : ℕ) → validity_in h.new.view.trail c ≡ cell_after h.old.view.trail protos.now object c }
        ensures writes { Adds (Invalidates h.old.view.trail protos.now object) h.old.view.trail h.new.view.trail }
        ensures view { h.new.view ≡ record h.old.view { trail = h.new.view.trail } }
        ensures free { is_watched self.old object ≡ false → h.new ≡ h.old }
        ensures loads { h.new.desk.loads ≤ h.old.desk.loads + loads_for h.old.view.trail protos.now object h.old.view.used.cells }
        ensures unwatched { self.new ≡ slice_set self.old object false }
        ensures watched { AreWatched h.new.view.trail protos.now self.new }
        ensures cells { AreCells h.new.view.trail h.new.view.used }
        ensures heap { IsHeap h.new.view }
        ensures goes { Goes h.old.desk h.new.desk }
        ensures went { P.went h.old.pace h.old.desk.trail h.new.desk.trail h.new.pace }
    {
        h.stands();
        if !self.marks[object as usize] {
            return;
        }
        invalidate(h, object, protos);
        self.marks[object as usize] = false;
    }
}
