//! Readers of the board's words. No call here loads or stores a word.
ghost use Rattle.std.specs.Prelude.{◌≡◌, IfOk};
ghost use Rattle.hc_board.specs.Fits.{ReadsFit};
ghost use Rattle.hc_board.specs.Parts.{EntryFits};
ghost use Rattle.hc_board.specs.States.{position_of, entry_of, new_reader, renewed, reads_made, beginning};
ghost use Rattle.hc_modes.specs.Readers.{HasMet};

use crate::objects::Objects;
use hc_board::Reader;
use hc_heap::Pace;
use hc_value::Memory;

impl<P: Pace> Objects<P> {
    /// A reader that begins here. It may go to another thread.
    pub fn reader(&mut self) -> Result<Reader, Memory>
        ensures reader { IfOk result (λ r. r ≡ new_reader self.old.heap.desk.board (position_of self.old.heap.desk)) }
        ensures same { self.new ≡ self.old }
    {
        self.inside.reader()
    }

    /// Takes a reader back: its parts, the last ended here, are the newest entry. They fit the stores, part by part, and all its
    /// reads in order fit from where it began to here.
    pub fn meet(&mut self, reader: Reader)
        requires board { reader.board ≡ self.old.heap.desk.board }
        ensures met { HasMet self.old reader self.new }
        ensures fits { EntryFits self.old.heap.desk.board.words self.old.heap.desk.trail (entry_of reader (position_of self.old.heap.desk)) }
        ensures last { ReadsFit self.old.heap.desk.board.words self.old.heap.desk.trail reader.begin (position_of self.old.heap.desk) reader.last }
        ensures reads { ReadsFit self.old.heap.desk.board.words self.old.heap.desk.trail (beginning reader) (position_of self.old.heap.desk) (reads_made reader) }
    {
        self.inside.meet(reader);
    }

    /// Ends the reader's last part here, and begins a new one. The parts that ended are the newest entry, and fit as those of a
    /// reader that is met.
    pub fn renew(&mut self, reader: Reader) -> Reader
        requires board { reader.board ≡ self.old.heap.desk.board }
        ensures reader { result ≡ renewed reader (position_of self.old.heap.desk) }
        ensures met { HasMet self.old reader self.new }
        ensures fits { EntryFits self.old.heap.desk.board.words self.old.heap.desk.trail (entry_of reader (position_of self.old.heap.desk)) }
        ensures last { ReadsFit self.old.heap.desk.board.words self.old.heap.desk.trail reader.begin (position_of self.old.heap.desk) reader.last }
        ensures reads { ReadsFit self.old.heap.desk.board.words self.old.heap.desk.trail (beginning reader) (position_of self.old.heap.desk) (reads_made reader) }
    {
        self.inside.renew(reader)
    }
}
