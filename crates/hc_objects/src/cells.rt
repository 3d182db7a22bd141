//! Cells: handed out, and asked.
ghost use Rattle.std.specs.Prelude.{◌≡◌, ◌+◌, ◌*◌, ◌<◌, ◌≤◌, None, Some, IfSome, length};
ghost use Rattle.hc_cells.specs.Cells.{is_valid, named_cell, valid_cell, with_cell};
ghost use Rattle.hc_cells.specs.Chains.{chain};
ghost use Rattle.hc_heap.specs.Readings.{validity_in};
ghost use Rattle.hc_heap.specs.States.{HasRoom, OnlyLoads};
ghost use Rattle.hc_layout.specs.declared.shape.Region.TheVariants.{Cells};
ghost use Rattle.hc_modes.specs.Validity.{OnlyCells, protos_of};
ghost use Rattle.hc_objects.specs.Came.{IsStill, world_of};

use crate::objects::Objects;
use hc_heap::Pace;

impl<P: Pace> Objects<P> {
    /// A valid cell of an object: the one that its word names, and else a new record. None where one is needed and none is left.
    pub fn cell_of(&mut self, o: u32) -> Option<u32>
        requires there { o < length (world_of self.old) }
        ensures named { IfSome (named_cell self.old.heap.view.trail o) (λ c. (result ≡ Some c) × (self.new.heap.view ≡ self.old.heap.view)) }
        ensures made { named_cell self.old.heap.view.trail o ≡ None → HasRoom self.old.heap.view Cells 1 → (result ≡ Some self.old.heap.view.used.cells) × (self.new.heap.view ≡ with_cell self.old.heap.view o) }
        ensures none { named_cell self.old.heap.view.trail o ≡ None → (HasRoom self.old.heap.view Cells 1 → ⊥) → (result ≡ None) × (self.new.heap.view ≡ self.old.heap.view) }
        ensures valid { IfSome result (λ c. validity_in self.new.heap.view.trail c ≡ Some (valid_cell o)) }
        ensures only { OnlyCells P.went self.old self.new }
        ensures few { self.new.heap.view.used.cells ≤ self.old.heap.view.used.cells + 1 }
        ensures loads { self.new.heap.desk.loads ≤ self.old.heap.desk.loads + (2 + 2 * length (chain self.old.heap.view.trail (protos_of self.old) o)) }
    {
        self.inside.stands();
        self.inside.cell_of(&mut self.watched, o, &self.protos)
    }

    /// Whether a cell is valid.
    pub fn valid(&mut self, cell: u32) -> bool
        ensures valid { result ≡ is_valid (validity_in self.old.heap.view.trail cell) }
        ensures still { IsStill self.old self.new }
        ensures loads { OnlyLoads 1 self.old.heap.desk self.new.heap.desk }
    {
        self.inside.valid(cell)
    }
}
