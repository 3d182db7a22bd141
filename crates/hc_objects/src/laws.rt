//! What follows of what was done, for proofs above. The functions do nothing: their contracts are laws.
ghost use Rattle.std.specs.Prelude.{ℕ, ◌≡◌, ◌+◌, ◌≤◌, [], Some, IsSomeAnd};
ghost use Rattle.hc_layout.specs.declared.words.CellWord.{CellWord};
ghost use Rattle.hc_heap.specs.Lawful.{Lawful};
ghost use Rattle.hc_heap.specs.Readings.{map_in, validity_in};
ghost use Rattle.hc_table.specs.Changes.{Did};
ghost use Rattle.hc_modes.specs.Admitting.{FactsStay, IsHonest};
ghost use Rattle.hc_modes.specs.Rest.{AreCalm};
ghost use Rattle.hc_modes.specs.Spent.{IsSpent};
ghost use Rattle.hc_modes.specs.State.{ObjectsState, IsObjects};
ghost use Rattle.hc_modes.specs.Validity.{OnlyCells};
ghost use Rattle.hc_objects.specs.Came.{Came, IsStill, MadeLive, MovesOnce, SaysStill, world_of};
ghost use Rattle.hc_objects.specs.Onward.{HasGoneOn};
ghost use Rattle.hc_objects.specs.State.{IsStanding};

use hc_facts::constants_stay_on;
use hc_heap::Pace;

/// An operation with the moves before it hands out no more than four steps may need, and moves alone no more than three; they leave
/// an object slow for want of room only where some region is nearly full. An object is made live in one step. So do several, one after
/// the other.
pub fn operations_spend_little<P: Pace>()
    ensures one { (a b : ObjectsState P) (did : Did) → IsObjects a.heap.view a.kept a.of_null → Came P.went a did b → IsSpent 4 a b }
    ensures live { (a b : ObjectsState P) (o : ℕ) → IsObjects a.heap.view a.kept a.of_null → MadeLive P.went a o b → IsSpent 1 a b }
    ensures none { (n : ℕ) (a : ObjectsState P) → IsSpent n a a }
    ensures onward { (m n : ℕ) (a b c : ObjectsState P) → IsSpent m a b → IsSpent n b c → IsSpent (m + n) a c }
    ensures more { (m n : ℕ) (a b : ObjectsState P) → m ≤ n → IsSpent m a b → IsSpent n a b }
{
    hc_modes::operations_spend_little::<P>();
}

/// No operation hands out a cell.
pub fn operations_hand_out_no_cell<P: Pace>()
    ensures law { (a b : ObjectsState P) (did : Did) → Came P.went a did b → b.heap.view.used.cells ≡ a.heap.view.used.cells }
{}

/// Where a cell was handed out and is valid after an operation, it was before, and nothing changed at any object of its chain, neither
/// by the operation nor by the moves before it.
pub fn valid_cells_say<P: Pace>()
    ensures law { (a b : ObjectsState P) (did : Did) (c : ℕ) (was : CellWord) → IsStanding a → Came P.went a did b → validity_in a.heap.view.trail c ≡ Some was → IsSomeAnd (validity_in b.heap.view.trail c) (λ now. SaysStill a b was now) }
{
    hc_modes::chains_are_told::<P>();
}

/// The objects and the cells are sound after an operation where they were before.
pub fn operations_stand<P: Pace>()
    ensures law { (a b : ObjectsState P) (did : Did) → IsStanding a → Came P.went a did b → IsStanding b }
{}

/// What fields say is true of the values of objects where there is none yet; it stays true over an operation, and over the moves
/// that want of memory leaves, and constants stay.
pub fn fields_stay_honest<P: Pace>()
    ensures law { (a b : ObjectsState P) (did : Did) → IsObjects a.heap.view a.kept a.of_null → Came P.went a did b → FactsStay a.heap.view.shape a.heap.view.trail b.heap.view.trail }
    ensures none { IsHonest [] }
{
    hc_modes::fields_stay_honest::<P>();
    constants_stay_on();
}

/// Whatever is done, the trail goes on and constants stay: over an operation, over moves alone, where an object is made live, and where
/// a cell is made. So it is over several, one after the other.
pub fn operations_go_on<P: Pace>()
    ensures law { (a b : ObjectsState P) (did : Did) → Lawful a.heap.view.shape a.heap.view.trail → Came P.went a did b → HasGoneOn a b }
    ensures live { (a b : ObjectsState P) (o : ℕ) → Lawful a.heap.view.shape a.heap.view.trail → MadeLive P.went a o b → HasGoneOn a b }
    ensures moves { (a b : ObjectsState P) → Lawful a.heap.view.shape a.heap.view.trail → MovesOnce P.went a b → HasGoneOn a b }
    ensures cells { (a b : ObjectsState P) → OnlyCells P.went a b → HasGoneOn a b }
    ensures still { (a b : ObjectsState P) → Lawful a.heap.view.shape a.heap.view.trail → IsStill a b → HasGoneOn a b }
    ensures onward { (a b c : ObjectsState P) → HasGoneOn a b → HasGoneOn b c → HasGoneOn a c }
{
    constants_stay_on();
}

/// Where no map was unstable that a prototype had, none is after an operation, nor after the moves that want of memory leaves.
pub fn prototypes_stay_calm<P: Pace>()
    ensures law { (a b : ObjectsState P) (did : Did) → IsObjects a.heap.view a.kept a.of_null → IsObjects b.heap.view b.kept b.of_null → Came P.went a did b
        → AreCalm a.heap.view.trail → AreCalm b.heap.view.trail }
{
    hc_modes::prototypes_stay_calm::<P>();
}

/// Where cells alone were written, objects keep their maps, what fields say stays true, and no map of a prototype is unstable that
/// wasn't before.
pub fn cells_stand_alone<P: Pace>()
    ensures world { (a b : ObjectsState P) → OnlyCells P.went a b → world_of b ≡ world_of a }
    ensures maps { (a b : ObjectsState P) (o : ℕ) → OnlyCells P.went a b → map_in b.heap.view.trail o ≡ map_in a.heap.view.trail o }
    ensures facts { (a b : ObjectsState P) → OnlyCells P.went a b → FactsStay a.heap.view.shape a.heap.view.trail b.heap.view.trail }
    ensures calm { (a b : ObjectsState P) → OnlyCells P.went a b → AreCalm a.heap.view.trail → AreCalm b.heap.view.trail }
{}

/// Loads that come first change nothing of what is said then: an object is made live, or an operation is done, as if they weren't.
pub fn loads_come_first<P: Pace>()
    ensures live { (a s b : ObjectsState P) (o : ℕ) → IsStill a s → MadeLive P.went s o b → MadeLive P.went a o b }
    ensures came { (a s b : ObjectsState P) (did : Did) → IsStill a s → Came P.went s did b → Came P.went a did b }
{}
