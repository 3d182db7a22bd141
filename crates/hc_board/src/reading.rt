//! A reader, which may stand in any thread.
ghost use Rattle.std.specs.Prelude.{◌≡◌, ◌<◌, ◌≤◌, true, [], ◌∷◌, ◌++◌, IfSome, slice_index};
ghost use Rattle.std.specs.Arc.{arc_value};
ghost use Rattle.hc_board.specs.Parts.{start_of};
ghost use Rattle.hc_board.specs.States.{ReaderState, beginning, counted};
ghost use Rattle.hc_board.specs.Looked.{reader_looked};

use crate::looking::Look;
use crate::rule::{Seat, Shared, Words};
use crate::steps::{Asked, Note, NotePast};
use std::alloc::Global;
use std::marker::{Brand, Model};
use std::sync::Arc;

#[derive(Drop)]
pub struct Reader {
    pub(crate) table: Arc<Words, Global>,
    pub(crate) seat: Seat,
    pub(crate) words: u32,
    pub(crate) start: u64,
}

impl Model for Reader {
    ghost use Rattle.std.specs.Arc.{arc_value};
    ghost use Rattle.hc_board.specs.States.{ReaderState};

    ghost Value = { ReaderState };

    ghost use Rattle.hc_board.specs.Rule.{IsReader};

    ghost view = { λ r. record { board = r.seat.table_id; parts = r.seat.me.0.parts; begin = r.seat.me.0.begin; last = r.seat.me.0.last } };

    ghost invariant = { λ r. IsReader r.seat (arc_value r.table).shared.table_id r.words r.start };
}

impl Reader {
    pub(crate) fn seated(table: Arc<Words, Global>, seat: Seat, words: u32, start: u64) -> Reader
        requires table { (seat.table_id ≡ (arc_value table).shared.table_id) × (seat.table_id.words ≡ words) }
        requires some { 0 < words }
        requires reader { (seat.me.0.reads ≡ true) × (seat.me.0.width ≡ words) × (seat.me.1 ≡ []) }
        requires start { start ≡ counted (start_of seat.me.0.parts seat.me.0.begin) }
        ensures { result ≡ record { board = seat.table_id; parts = seat.me.0.parts; begin = seat.me.0.begin; last = seat.me.0.last } }
    {
        Reader {
            table,
            seat,
            words,
            start,
        }
    }

    /// The position at which the first part began, up to the end of its type.
    pub fn start(&self) -> u64
        ensures start { result ≡ counted (beginning self.now) }
    {
        self.start
    }
}

// The read of an index past the board's end: word 0 is loaded, and 0 is noted under the index asked.
fn note_past<I: Asked>(table: &Shared, seat: &mut Seat, index: u32)
    requires asked { index ≡ I.index }
    requires table { (seat.old.table_id ≡ table.now.table_id) × (0 < table.now.table_id.words) }
    requires reader { seat.old.me.0.reads ≡ true }
    requires past { seat.old.me.0.width ≤ index }
    ensures table { seat.new.table_id ≡ seat.old.table_id }
    ensures me { seat.new.me ≡ (record seat.old.me.0 { last = seat.old.me.0.last ++ (index, 0) ∷ [] }, seat.old.me.1) }
{
    table.load::<NotePast<I>>(seat, 0);
}

impl Look for Reader {
    ghost use Rattle.std.specs.Prelude.{None};
    ghost use Rattle.hc_board.specs.Looked.{reader_looked, reader_stays, reader_goes_on};

    ghost image = { λ _. None };

    ghost looked = { reader_looked };

    ghost stays = { reader_stays };

    ghost goes_on = { reader_goes_on };

    /// One load, which the last part has. An index past the board's end has 0.
    fn look(&mut self, index: u32) -> u64
        ensures looked { reader_looked self.old ((index, result) ∷ []) self.new }
        ensures past { self.old.board.words ≤ index → result ≡ 0 }
    {
        if index < self.words {
            self.table
                .shared
                .load::<Note>(&mut self.seat, index as usize)
        } else {
            note_past::<Brand>(&self.table.shared, &mut self.seat, index);
            0
        }
    }
}
