//! The writer, the one who stores.
ghost use Rattle.std.specs.Prelude.{◌≡◌, ◌+◌, ◌<◌, [], ◌∷◌, ◌++◌, length, IfOk, MatchResult, slice_index, slice_set};
ghost use Rattle.std.specs.Arc.{arc_value};
ghost use Rattle.hc_board.specs.Fits.{ReadsFit};
ghost use Rattle.hc_board.specs.Parts.{EntryFits};
ghost use Rattle.hc_board.specs.States.{WriterState, words_of, position_of, AllFit, entry_of, new_reader, renewed, reads_made, beginning, counted};
ghost use Rattle.hc_board.specs.Rule.{first_view};

use crate::looking::Look;
use crate::making::Memory;
use crate::reading::Reader;
use crate::rule::{Seat, Words};
use crate::steps::{Begin, Check, GoOn, Load, Meet, Store};
use std::alloc::Global;
use std::marker::Model;
use std::sync::Arc;

#[derive(Drop)]
pub struct Writer {
    table: Arc<Words, Global>,
    seat: Seat,
    words: u32,
    writes: u64,
    met: u64,
}

impl Model for Writer {
    ghost use Rattle.std.specs.Arc.{arc_value};
    ghost use Rattle.hc_board.specs.States.{WriterState};

    ghost Value = { WriterState };

    ghost use Rattle.hc_board.specs.Rule.{IsWriter};

    ghost view = { λ w. record { board = w.seat.table_id; trail = w.seat.me.0.trail; loads = w.seat.me.0.loads; met = w.seat.me.0.met } };

    ghost invariant = { λ w. IsWriter w.seat (arc_value w.table).shared.table_id w.words w.writes w.met };
}

impl Writer {
    // The writer of a new table, with the table's first seat.
    pub(crate) fn seated(table: Arc<Words, Global>, seat: Seat, words: u32) -> Writer
        requires table { (seat.table_id ≡ (arc_value table).shared.table_id) × (seat.table_id.words ≡ words) }
        requires some { 0 < words }
        requires first { seat.me ≡ (first_view words, []) }
        ensures { result ≡ record { board = seat.table_id; trail = []; loads = 0; met = [] } }
    {
        Writer {
            table,
            seat,
            words,
            writes: 0,
            met: 0,
        }
    }

    /// The word of the image, or 0 past the board's end. Each load counts.
    pub fn load(&mut self, index: u32) -> u64
        ensures value { result ≡ slice_index (words_of self.old) index }
        ensures new { self.new ≡ record self.old { loads = self.old.loads + 1 } }
    {
        if index < self.words {
            self.table
                .shared
                .load::<Load>(&mut self.seat, index as usize)
        } else {
            self.table.shared.load::<Load>(&mut self.seat, 0);
            0
        }
    }

    /// Writes one word: the trail has the store, and the image the word.
    pub fn store(&mut self, index: u32, word: u64)
        requires inside { index < self.old.board.words }
        ensures new { self.new ≡ record self.old { trail = self.old.trail ++ (index, word) ∷ [] } }
        ensures image { words_of self.new ≡ slice_set (words_of self.old) index word }
    {
        self.table
            .shared
            .store::<Store>(&mut self.seat, index as usize, word);
        self.writes = self.writes.saturating_add(1);
    }

    /// A reader that begins here. It may go to another thread.
    pub fn reader(&mut self) -> Result<Reader, Memory>
        ensures reader { IfOk result (λ r. r ≡ new_reader self.old.board (position_of self.old)) }
        ensures same { self.new ≡ self.old }
    {
        let table = Arc::try_clone(&self.table)?;
        let seat = self.table.shared.split_seat::<Begin>(&mut self.seat);
        Ok(Reader::seated(table, seat, self.words, self.writes))
    }

    // The join and the load after it.
    fn take_in(&mut self, reader: Reader) -> Arc<Words, Global>
        requires board { reader.board ≡ self.old.board }
        ensures table { (arc_value result).shared.table_id ≡ self.old.board }
        ensures new { self.new ≡ record self.old { met = self.old.met ++ entry_of reader (position_of self.old) ∷ [] } }
        ensures fits { EntryFits self.old.board.words self.old.trail (entry_of reader (position_of self.old)) }
    {
        let Reader {
            table,
            seat,
            words: _,
            start: _,
        } = reader;
        self.table.shared.join_seat::<Meet>(&mut self.seat, seat);
        self.table.shared.load::<Check>(&mut self.seat, 0);
        self.met = self.met.saturating_add(1);
        table
    }

    /// Takes a reader back: its parts, the last ended here, are the newest entry.
    /// They fit the trail, part by part, and all its reads in order fit from where it began to here.
    pub fn meet(&mut self, reader: Reader)
        requires board { reader.board ≡ self.old.board }
        ensures new { self.new ≡ record self.old { met = self.old.met ++ entry_of reader (position_of self.old) ∷ [] } }
        ensures fits { EntryFits self.old.board.words self.old.trail (entry_of reader (position_of self.old)) }
        ensures last { ReadsFit self.old.board.words self.old.trail reader.begin (position_of self.old) reader.last }
        ensures reads { ReadsFit self.old.board.words self.old.trail (beginning reader) (position_of self.old) (reads_made reader) }
    {
        let _table = self.take_in(reader);
    }

    /// Ends the reader's last part here, and begins a new one. The parts that ended are the newest entry, and fit as those of a reader that is met.
    pub fn renew(&mut self, reader: Reader) -> Reader
        requires board { reader.board ≡ self.old.board }
        ensures reader { result ≡ renewed reader (position_of self.old) }
        ensures new { self.new ≡ record self.old { met = self.old.met ++ entry_of reader (position_of self.old) ∷ [] } }
        ensures fits { EntryFits self.old.board.words self.old.trail (entry_of reader (position_of self.old)) }
        ensures last { ReadsFit self.old.board.words self.old.trail reader.begin (position_of self.old) reader.last }
        ensures reads { ReadsFit self.old.board.words self.old.trail (beginning reader) (position_of self.old) (reads_made reader) }
    {
        let start = reader.start();
        let table = self.take_in(reader);
        let seat = self.table.shared.split_seat::<GoOn>(&mut self.seat);
        Reader::seated(table, seat, self.words, start)
    }

    /// The number of stores, up to the end of its type.
    pub fn writes(&self) -> u64
        ensures count { result ≡ counted (length self.now.trail) }
    {
        self.writes
    }

    /// The number of met entries, up to the end of its type. Each of them fits the trail.
    pub fn met(&self) -> u64
        ensures count { result ≡ counted (length self.now.met) }
        ensures fits { AllFit self.now }
    {
        self.met
    }
}

impl Look for Writer {
    ghost use Rattle.std.specs.Prelude.{Some};
    ghost use Rattle.hc_board.specs.States.{words_of};
    ghost use Rattle.hc_board.specs.Looked.{writer_looked, writer_stays, writer_goes_on};

    ghost image = { λ w. Some (words_of w) };

    ghost looked = { writer_looked };

    ghost stays = { writer_stays };

    ghost goes_on = { writer_goes_on };

    fn look(&mut self, index: u32) -> u64 {
        self.load(index)
    }
}
