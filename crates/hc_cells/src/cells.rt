//! Cells: handed out, asked, and made invalid.
ghost use Rattle.std.specs.Prelude.{◌≡◌, ℕ, ◌+◌, ◌<◌, ◌≤◌, ◌≢◌, Some, None, IfSome, length};
ghost use Rattle.hc_layout.specs.declared.shape.Region.TheVariants.{Cells};
ghost use Rattle.hc_heap.specs.Readings.{validity_in};
ghost use Rattle.hc_heap.specs.Kept.{Adds};
ghost use Rattle.hc_heap.specs.States.{IsHeap, Goes, HasRoom, OnlyLoads, one_load};
ghost use Rattle.hc_cells.specs.Chains.{Ends, HaveEnds};
ghost use Rattle.hc_cells.specs.Cells.{AreCells, Invalidates, cell_after, is_valid, loads_for, loads_of, named_cell as named_in, valid_cell, with_cell};

use crate::chain::goes_through;
use hc_heap::{Heap, Pace, unused_says_nothing};
use hc_layout::{CellWord, Region};

/// Whether a cell is valid.
pub fn valid<P: Pace>(h: &mut Heap<P>, cell: u32) -> bool
    ensures valid { result ≡ is_valid (validity_in h.old.view.trail cell) }
    ensures new { h.new ≡ record h.old { desk = one_load h.old.desk } }
    ensures goes { Goes h.old.desk h.new.desk }
    ensures went { P.went h.old.pace h.old.desk.trail h.new.desk.trail h.new.pace }
{
    match h.validity(cell) {
        Some(state) => !state.invalid,
        None => false,
    }
}

// The valid cell that the word of a prototype names.
pub(crate) fn named_cell<P: Pace>(h: &mut Heap<P>, object: u32) -> Option<u32>
    ensures named { result ≡ named_in h.old.view.trail object }
    ensures same { h.new ≡ record h.old { desk = h.new.desk } }
    ensures loads { OnlyLoads 2 h.old.desk h.new.desk }
    ensures goes { Goes h.old.desk h.new.desk }
    ensures went { P.went h.old.pace h.old.desk.trail h.new.desk.trail h.new.pace }
{
    let cell = h.object_cell(object)?;
    if valid(h, cell) { Some(cell) } else { None }
}

// A new record of a prototype that has no valid cell; none where none is left.
pub(crate) fn new_cell<P: Pace>(h: &mut Heap<P>, object: u32) -> Option<u32>
    requires handed { object < h.old.view.used.objects }
    requires needed { named_in h.old.view.trail object ≡ None }
    requires cells { AreCells h.old.view.trail h.old.view.used }
    ensures made { HasRoom h.old.view Cells 1 → (result ≡ Some h.old.view.used.cells) × (h.new.view ≡ with_cell h.old.view object) }
    ensures none { (HasRoom h.old.view Cells 1 → ⊥) → (result ≡ None) × (h.new ≡ h.old) }
    ensures view { IfSome result (λ c. h.new.view ≡ with_cell h.old.view object) }
    ensures loads { h.new.desk.loads ≡ h.old.desk.loads }
    ensures cells { AreCells h.new.view.trail h.new.view.used }
    ensures heap { IsHeap h.new.view }
    ensures goes { Goes h.old.desk h.new.desk }
    ensures went { P.went h.old.pace h.old.desk.trail h.new.desk.trail h.new.pace }
{
    h.stands();
    unused_says_nothing();
    if !h.room(Region::Cells, 1) {
        return None;
    }
    let cell = h.fresh(Region::Cells, 1);
    h.set_validity(
        cell,
        CellWord {
            invalid: false,
            object,
        },
    );
    h.set_object_cell(object, Some(cell));
    Some(cell)
}

/// A valid cell of a prototype: the one that its word names, and else a new record. None where one is needed and none is left.
pub fn cell_of<P: Pace>(h: &mut Heap<P>, object: u32) -> Option<u32>
    requires handed { object < h.old.view.used.objects }
    requires cells { AreCells h.old.view.trail h.old.view.used }
    ensures named { IfSome (named_in h.old.view.trail object) (λ c. (result ≡ Some c) × (h.new.view ≡ h.old.view)) }
    ensures made { named_in h.old.view.trail object ≡ None → HasRoom h.old.view Cells 1 → (result ≡ Some h.old.view.used.cells) × (h.new.view ≡ with_cell h.old.view object) }
    ensures none { named_in h.old.view.trail object ≡ None → (HasRoom h.old.view Cells 1 → ⊥) → (result ≡ None) × (h.new.view ≡ h.old.view) }
    ensures valid { IfSome result (λ c. validity_in h.new.view.trail c ≡ Some (valid_cell object)) }
    ensures loads { h.new.desk.loads ≤ h.old.desk.loads + 2 }
    ensures cells { AreCells h.new.view.trail h.new.view.used }
    ensures heap { IsHeap h.new.view }
    ensures goes { Goes h.old.desk h.new.desk }
    ensures went { P.went h.old.pace h.old.desk.trail h.new.desk.trail h.new.pace }
{
    h.stands();
    if let Some(cell) = named_cell(h, object) {
        return Some(cell);
    }
    new_cell(h, object)
}

// Makes a cell invalid where it is valid and its prototype's chain goes through an object.
fn invalidate_one<P: Pace>(h: &mut Heap<P>, cell: u32, object: u32, protos: &[Option<u32>])
    requires handed { cell < h.old.view.used.cells }
    requires ends { IfSome (validity_in h.old.view.trail cell) (λ v. Ends (length protos.now) h.old.view.trail protos.now (Some v.object)) }
    requires there { IfSome (validity_in h.old.view.trail cell) (λ v. v.object < h.old.view.shape.objects) }
    ensures view { h.new.view ≡ record h.old.view { trail = h.new.view.trail } }
    ensures cell { validity_in h.new.view.trail cell ≡ cell_after h.old.view.trail protos.now object cell }
    ensures writes { Adds (Invalidates h.old.view.trail protos.now object) h.old.view.trail h.new.view.trail }
    ensures others { (c : ℕ) → c ≢ cell → validity_in h.new.view.trail c ≡ validity_in h.old.view.trail c }
    ensures loads { h.new.desk.loads ≤ h.old.desk.loads + loads_of h.old.view.trail protos.now object (validity_in h.old.view.trail cell) }
    ensures heap { IsHeap h.new.view }
    ensures goes { Goes h.old.desk h.new.desk }
    ensures went { P.went h.old.pace h.old.desk.trail h.new.desk.trail h.new.pace }
{
    h.stands();
    let Some(state) = h.validity(cell) else {
        return;
    };
    if state.invalid {
        return;
    }
    if goes_through(h, state.object, object, protos) {
        h.set_validity(
            cell,
            CellWord {
                invalid: true,
                object: state.object,
            },
        );
    }
}

/// Makes exactly those valid cells invalid whose prototypes' chains go through an object. `protos` has for each object that is
/// slow its prototype.
pub fn invalidate<P: Pace>(h: &mut Heap<P>, object: u32, protos: &[Option<u32>])
    requires items { h.old.view.used.objects ≤ length protos.now }
    requires ends { HaveEnds h.old.view.trail protos.now }
    requires cells { AreCells h.old.view.trail h.old.view.used }
    ensures after { (c : ℕ) → validity_in h.new.view.trail c ≡ cell_after h.old.view.trail protos.now object c }
    ensures writes { Adds (Invalidates h.old.view.trail protos.now object) h.old.view.trail h.new.view.trail }
    ensures view { h.new.view ≡ record h.old.view { trail = h.new.view.trail } }
    ensures loads { h.new.desk.loads ≤ h.old.desk.loads + loads_for h.old.view.trail protos.now object h.old.view.used.cells }
    ensures cells { AreCells h.new.view.trail h.new.view.used }
    ensures heap { IsHeap h.new.view }
    ensures goes { Goes h.old.desk h.new.desk }
    ensures went { P.went h.old.pace h.old.desk.trail h.new.desk.trail h.new.pace }
{
    h.stands();
    unused_says_nothing();
    for cell in 0..h.used(Region::Cells) {
        invalidate_one(h, cell, object, protos);
    }
}
