//! Objects, looked at as a job looks at the board's words.
use crate::objects::Objects;
use hc_board::Look;
use hc_heap::Pace;

impl<P: Pace> Look for Objects<P> {
    ghost use Rattle.std.specs.Prelude.{Some};
    ghost use Rattle.hc_board.specs.States.{words_of};
    ghost use Rattle.hc_modes.specs.Looks.{HasLooked, looked-stays, looked-goes_on};

    ghost image = { λ o. Some (words_of o.heap.desk) };

    ghost looked = { HasLooked };

    ghost stays = { looked-stays };

    ghost goes_on = { looked-goes_on };

    fn look(&mut self, index: u32) -> u64 {
        self.inside.look(index)
    }
}
