//! What follows of what was done, for proofs above. The functions do nothing: their contracts are laws.
ghost use Rattle.std.specs.Prelude.{◌≡◌, ◌+◌, ◌≤◌, List, []};
ghost use Rattle.hc_cells.specs.Cells.{AreCells};
ghost use Rattle.hc_table.specs.Changes.{Did};
ghost use Rattle.hc_modes.specs.State.{IsObjects, ObjectsState};
ghost use Rattle.hc_objects.specs.Came.{Came};
ghost use Rattle.hc_objects.specs.Onward.{HasGoneOn};
ghost use Rattle.hc_sites.specs.declared.state.SiteState.{SiteState};
ghost use Rattle.hc_access.specs.Accesses.{AskedCell};
ghost use Rattle.hc_access.specs.Entries.{AreGood};

use hc_heap::{Pace, gates_are_open, unused_says_nothing};
use hc_modes::chains_are_told;
use hc_objects::{fields_stay_honest, operations_go_on, valid_cells_say};
use hc_tree::maps_are_kept;

/// What the entries of inline caches say stays true, whatever an operation does, and the moves that want of memory leaves: as long
/// as its cell is valid, an entry says where full lookup finds the property.
pub fn entries_stay_good<P: Pace>()
    ensures law { (a b : ObjectsState P) (did : Did) (sites : List SiteState) → IsObjects a.heap.view a.kept a.of_null → IsObjects b.heap.view b.kept b.of_null
        → AreCells a.heap.view.trail a.heap.view.used → Came P.went a did b → AreGood a sites → AreGood b sites }
    ensures none { (a : ObjectsState P) → AreGood a [] }
{
    gates_are_open();
    unused_says_nothing();
    maps_are_kept();
    chains_are_told::<P>();
    fields_stay_honest::<P>();
    valid_cells_say::<P>();
}

/// Where a cell was asked for at most one was handed out, and the trail goes on.
pub fn asking_is_little<P: Pace>()
    ensures cells { (a b : ObjectsState P) → AskedCell P.went a b → b.heap.view.used.cells ≤ a.heap.view.used.cells + 1 }
    ensures goes { (a b : ObjectsState P) → AskedCell P.went a b → HasGoneOn a b }
{
    operations_go_on::<P>();
}
