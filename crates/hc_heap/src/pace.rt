//! What happens beside the stores.
ghost use Rattle.std.specs.Prelude.{◌≡◌, ◌<◌, List, ◌++◌, ◌∷◌, [], length};
ghost use Rattle.hc_board.specs.Trail.{Access};
ghost use Rattle.hc_board.specs.States.{TableId, WriterState};
ghost use Rattle.hc_heap.specs.States.{Extends};

use hc_board::Writer;

/// Is called after each store, and may make reads with readers that it holds.
pub trait Pace: Drop {
    /// All readers that it holds are of this board.
    ghost fits: { Self → TableId → Type 0 };

    /// From this pace and these stores it came to these stores and this pace.
    ghost went: { Self → List Access → List Access → Self → Type 0 };

    /// A store was made. The words stay, and so do the stores and the writer's loads; readers may be met.
    fn wrote(&mut self, writer: &mut Writer)
        requires fits { fits self.old writer.old.board }
        requires stored { 0 < length writer.old.trail }
        ensures fits { fits self.new writer.new.board }
        ensures same { writer.new ≡ record writer.old { met = writer.new.met } }
        ensures met { Extends writer.old.met writer.new.met }
        ensures went { (trail : List Access) (store : Access) → writer.old.trail ≡ trail ++ store ∷ [] → went self.old trail writer.old.trail self.new };

    /// Nothing happened.
    ghost stays: { (a : Self) (trail : List Access) → went a trail trail a };

    /// One thing happened, and then another.
    ghost goes_on: { (a b c : Self) (first second third : List Access) → went a first second b → went b second third c → went a first third c };
}

/// Does nothing.
#[derive(Clone, Copy, Drop)]
pub struct Free;

impl Pace for Free {
    ghost use Rattle.std.specs.Prelude.{⊤};

    ghost fits = { λ _ _. ⊤ };

    ghost went = { λ _ _ _ _. ⊤ };

    fn wrote(&mut self, _writer: &mut Writer) {}

    ghost stays = { λ _ _. tt };

    ghost goes_on = { λ _ _ _ _ _ _ _ _. tt };
}
