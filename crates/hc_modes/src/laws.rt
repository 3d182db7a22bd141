//! What follows of what was done, for proofs above. The functions do nothing: their contracts are laws.
ghost use Rattle.std.specs.Prelude.{ℕ, ◌≡◌, ◌+◌, ◌≤◌, []};
ghost use Rattle.hc_board.specs.States.{WriterState};
ghost use Rattle.hc_heap.specs.Kept.{GoesOn};
ghost use Rattle.hc_heap.specs.States.{View, IsHeap, IsDesk, Goes};
ghost use Rattle.hc_table.specs.Changes.{Did};
ghost use Rattle.hc_modes.specs.Admitting.{FactsStay, IsHonest};
ghost use Rattle.hc_cells.specs.Chains.{HaveEnds, proto_at};
ghost use Rattle.hc_table.specs.World.{object};
ghost use Rattle.hc_modes.specs.Planned.{ComersMayGet};
ghost use Rattle.hc_modes.specs.Came.{Came, IsMadeLive, Moves, world_of};
ghost use Rattle.hc_modes.specs.Validity.{OnlyCells, protos_of};
ghost use Rattle.hc_modes.specs.Cells.{CellsStay};
ghost use Rattle.hc_modes.specs.Rest.{AreCalm};
ghost use Rattle.hc_modes.specs.Spent.{IsSpent};
ghost use Rattle.hc_modes.specs.State.{ObjectsState, IsLive, IsObjects};

use hc_facts::constants_stay_on;
use hc_heap::{
    Pace, deprecated_are_unstable, gates_are_open, positions_are_stores, positions_go_on,
    stores_are_writes, unused_says_nothing,
};
use hc_tree::{
    live_is_child, live_stand_high, maps_are_kept, one_is_live, owners_stand, roots_stand,
};

/// Where the board's stores go on, so do the writes that are read from them, and each of these is lawful.
pub fn writes_go_on()
    ensures law { (v w : View) (d e : WriterState) → IsDesk v d → IsDesk w e → IsHeap w → w.shape ≡ v.shape → Goes d e
        → GoesOn w.shape v.trail w.trail }
{
    positions_are_stores();
    positions_go_on();
    stores_are_writes();
}

/// An operation, with the moves before it, hands out no more than two steps may need, and one move no more than one may, and they
/// leave an object slow for want of room only where some region is nearly full; so do several, one after the other.
pub fn operations_spend_little<P: Pace>()
    ensures one { (a b : ObjectsState P) (did : Did) → IsObjects a.heap.view a.kept a.of_null → Came P.went a did b → IsSpent 2 a b }
    ensures moves { (a b : ObjectsState P) → IsObjects a.heap.view a.kept a.of_null → Moves P.went a b → IsSpent 1 a b }
    ensures none { (n : ℕ) (a : ObjectsState P) → IsSpent n a a }
    ensures onward { (m n : ℕ) (a b c : ObjectsState P) → IsSpent m a b → IsSpent n b c → IsSpent (m + n) a c }
    ensures more { (m n : ℕ) (a b : ObjectsState P) → m ≤ n → IsSpent m a b → IsSpent n a b }
{
    gates_are_open();
}

/// What fields say is true of the values of objects where there is none yet; it stays true over an operation, and over the moves
/// that want of memory leaves, and constants stay.
pub fn fields_stay_honest<P: Pace>()
    ensures law { (a b : ObjectsState P) (did : Did) → IsObjects a.heap.view a.kept a.of_null → Came P.went a did b → FactsStay a.heap.view.shape a.heap.view.trail b.heap.view.trail }
    ensures none { IsHonest [] }
{
    constants_stay_on();
}

/// Where no map was unstable that a prototype had, none is after an operation, nor after the moves that want of memory leaves.
pub fn prototypes_stay_calm<P: Pace>()
    ensures law { (a b : ObjectsState P) (did : Did) → IsObjects a.heap.view a.kept a.of_null → IsObjects b.heap.view b.kept b.of_null → Came P.went a did b
        → AreCalm a.heap.view.trail → AreCalm b.heap.view.trail }
{
    unused_says_nothing();
}

/// An operation, and the moves that want of memory leaves, write no word of a cell, and none by which a prototype names one.
pub fn operations_leave_cells<P: Pace>()
    ensures law { (a b : ObjectsState P) (did : Did) → Came P.went a did b → CellsStay a.heap.view.trail b.heap.view.trail }
{}

/// The chains that cells are told of are those of the objects' prototypes, and each comes to its end.
pub fn chains_are_told<P: Pace>()
    ensures protos { (s : ObjectsState P) (o : ℕ) → IsObjects s.heap.view s.kept s.of_null → proto_at s.heap.view.trail (protos_of s) o ≡ (object (world_of s) o).proto }
    ensures ends { (s : ObjectsState P) → IsObjects s.heap.view s.kept s.of_null → HaveEnds s.heap.view.trail (protos_of s) }
{
    unused_says_nothing();
}

/// Where an object is live, and another one is made live, and then the first one again, both are live then: what the second has
/// admits what the first did, so that the first comes to a live map by joins in place, and no map dies. Cells may be written between.
pub fn alike_objects_stay_live<P: Pace>()
    ensures law { (s t u w : ObjectsState P) (a b : ℕ) → IsObjects s.heap.view s.kept s.of_null → IsObjects t.heap.view t.kept t.of_null → IsObjects u.heap.view u.kept u.of_null
        → IsLive s.heap.view.trail a → IsMadeLive P.went s b t → OnlyCells P.went t u → IsMadeLive P.went u a w → IsLive w.heap.view.trail b }
{
    deprecated_are_unstable();
    live_stand_high();
    maps_are_kept();
    one_is_live();
    owners_stand();
    roots_stand();
    unused_says_nothing();
}

/// An object whose map's child for a name is known, to which it may come, lacks the name, and may get properties.
pub fn comers_may_get()
    ensures law { ComersMayGet }
{
    gates_are_open();
    live_is_child();
}
