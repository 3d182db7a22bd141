//! The heap: items, handed out in order, and the words of the board with their types.
ghost use Rattle.std.specs.Prelude.{◌≡◌, ℕ, ◌+◌, ◌<◌, ◌≤◌, ◌↔◌, List, [], ◌∷◌, ◌++◌, length, slice_index, IfOk, IsTrue};
ghost use Rattle.hc_board.specs.Trail.{Access};
ghost use Rattle.hc_board.specs.Fits.{ReadsFit};
ghost use Rattle.hc_board.specs.Parts.{EntryFits};
ghost use Rattle.hc_board.specs.States.{TableId, WriterState, words_of, position_of, AllFit, entry_of, new_reader, renewed, reads_made, beginning, counted};
ghost use Rattle.hc_layout.specs.Shape.{IsShape, items_of};
ghost use Rattle.hc_heap.specs.Kinds.{region_of};
ghost use Rattle.hc_heap.specs.Decode.{written};
ghost use Rattle.hc_heap.specs.Lawful.{LawfulWrite, AllWithin};
ghost use Rattle.hc_heap.specs.Said.{Says};
ghost use Rattle.hc_heap.specs.States.{IsWords, IsHeap, IsDesk, KeepsArrays, OneStore, Goes, HasRoom, one_load, with_write, with_items, with_met, no_items};

use crate::kind::Kind;
use crate::pace::Pace;
use crate::words::Words;
use hc_board::Reader;
use hc_layout::{Region, Shape};
use hc_value::Memory;
use std::alloc::Global;
use std::marker::Model;
use std::mem;

/// The words of the board with their types. Each store is lawful, and is told to the pace.
#[derive(Drop)]
pub struct Heap<P: Pace> {
    words: Words,
    pace: P,
}

impl<P: Pace> Model for Heap<P> {
    ghost use Rattle.hc_heap.specs.States.{HeapState, IsWords};

    ghost Value = { HeapState P };

    ghost view = { λ h. record { view = h.words.view; desk = h.words.desk; pace = h.pace } };

    ghost invariant = { λ h. P.fits h.pace h.words.desk.board × IsWords h.words.view h.words.desk };
}

impl<P: Pace> Heap<P> {
    /// A heap whose words are 0 and whose items aren't handed out. The pace holds no reader.
    pub fn new(alloc: Global, shape: Shape, pace: P) -> Result<Heap<P>, Memory>
        requires shape { IsShape shape }
        requires pace { (board : TableId) → P.fits pace board }
        ensures view { IfOk result (λ h. h.view ≡ record { shape = shape; trail = []; used = no_items }) }
        ensures desk { IfOk result (λ h. h.desk ≡ record { board = h.desk.board; trail = []; loads = 0; met = [] }) }
        ensures pace { IfOk result (λ h. h.pace ≡ pace) }
        ensures heap { IfOk result (λ h. IsHeap h.view) }
    {
        let words = Words::new(alloc, shape)?;
        Ok(Heap { words, pace })
    }

    // The word of an item, by one load.
    #[inline]
    pub(crate) fn word(&mut self, kind: Kind, item: u32) -> u64
        ensures says { Says kind self.old.view.trail item result }
        ensures new { self.new ≡ record self.old { desk = one_load self.old.desk } }
        ensures goes { Goes self.old.desk self.new.desk }
        ensures went { P.went self.old.pace self.old.desk.trail self.new.desk.trail self.new.pace }
    {
        self.words.load(kind, item)
    }

    // Writes the word of an item, by one store.
    pub(crate) fn put(&mut self, kind: Kind, item: u32, word: u64)
        requires handed { item < items_of self.old.view.used (region_of kind) }
        requires lawful { LawfulWrite self.old.view.shape self.old.view.trail (written kind item word) }
        requires arrays { KeepsArrays self.old.view kind item word }
        ensures view { self.new.view ≡ with_write self.old.view (written kind item word) }
        ensures heap { IsHeap self.new.view }
        ensures one { OneStore self.old.desk self.new.desk }
        ensures goes { Goes self.old.desk self.new.desk }
        ensures went { P.went self.old.pace self.old.desk.trail self.new.desk.trail self.new.pace }
    {
        self.words.store(kind, item, word);
        self.words.tell(&mut self.pace);
    }

    /// How many items of a region were handed out.
    pub fn used(&self, region: Region) -> u32
        ensures { result ≡ items_of self.now.view.used region }
    {
        self.words.used(region)
    }

    /// Whether a region has so many items more.
    pub fn room(&self, region: Region, n: u32) -> bool
        ensures { IsTrue result ↔ HasRoom self.now.view region n }
    {
        self.words.room(region, n)
    }

    /// Hands out the next items of a region, which no store was made to. The answer is the first of them.
    pub fn fresh(&mut self, region: Region, n: u32) -> u32
        requires room { HasRoom self.old.view region n }
        ensures first { result ≡ items_of self.old.view.used region }
        ensures new { self.new ≡ record self.old { view = record self.old.view { used = with_items region (result + n) self.old.view.used } } }
        ensures unused { AllWithin self.old.view.used self.new.view.trail }
        ensures heap { IsHeap self.new.view }
    {
        self.stands();
        self.words.fresh(region, n)
    }

    /// What a heap keeps: its trail is lawful, and is that of its writer.
    pub fn stands(&self)
        ensures heap { IsHeap self.now.view }
        ensures desk { IsDesk self.now.view self.now.desk }
        ensures pace { P.fits self.now.pace self.now.desk.board }
    {
        let _words = &self.words;
    }

    /// The number of stores, up to the end of its type.
    pub fn writes(&self) -> u64
        ensures count { result ≡ counted (length self.now.desk.trail) }
    {
        self.words.writes()
    }

    /// The number of met entries, up to the end of its type. Each of them fits the trail.
    pub fn met(&self) -> u64
        ensures count { result ≡ counted (length self.now.desk.met) }
        ensures fits { AllFit self.now.desk }
    {
        self.words.met()
    }

    /// The word at an index, or 0 past the board's end, by one load.
    pub fn look(&mut self, index: u32) -> u64
        ensures value { result ≡ slice_index (words_of self.old.desk) index }
        ensures new { self.new ≡ record self.old { desk = one_load self.old.desk } }
        ensures goes { Goes self.old.desk self.new.desk }
        ensures went { P.went self.old.pace self.old.desk.trail self.new.desk.trail self.new.pace }
    {
        self.words.look(index)
    }

    /// A reader that begins here. It may go to another thread.
    pub fn reader(&mut self) -> Result<Reader, Memory>
        ensures reader { IfOk result (λ r. r ≡ new_reader self.old.desk.board (position_of self.old.desk)) }
        ensures same { self.new ≡ self.old }
    {
        self.words.reader()
    }

    /// Takes a reader back: its parts, the last ended here, are the newest entry.
    /// They fit the trail, part by part, and all its reads in order fit from where it began to here.
    pub fn meet(&mut self, reader: Reader)
        requires board { reader.board ≡ self.old.desk.board }
        ensures new { self.new ≡ record self.old { desk = with_met self.old.desk reader } }
        ensures fits { EntryFits self.old.desk.board.words self.old.desk.trail (entry_of reader (position_of self.old.desk)) }
        ensures last { ReadsFit self.old.desk.board.words self.old.desk.trail reader.begin (position_of self.old.desk) reader.last }
        ensures reads { ReadsFit self.old.desk.board.words self.old.desk.trail (beginning reader) (position_of self.old.desk) (reads_made reader) }
    {
        self.words.meet(reader);
    }

    /// Ends the reader's last part here, and begins a new one. The parts that ended are the newest entry, and fit as those of a reader that is met.
    pub fn renew(&mut self, reader: Reader) -> Reader
        requires board { reader.board ≡ self.old.desk.board }
        ensures reader { result ≡ renewed reader (position_of self.old.desk) }
        ensures new { self.new ≡ record self.old { desk = with_met self.old.desk reader } }
        ensures fits { EntryFits self.old.desk.board.words self.old.desk.trail (entry_of reader (position_of self.old.desk)) }
        ensures last { ReadsFit self.old.desk.board.words self.old.desk.trail reader.begin (position_of self.old.desk) reader.last }
        ensures reads { ReadsFit self.old.desk.board.words self.old.desk.trail (beginning reader) (position_of self.old.desk) (reads_made reader) }
    {
        self.words.renew(reader)
    }

    /// Gives the pace back, and goes on at another, whose readers are of this board.
    pub fn trade(&mut self, pace: P) -> P
        requires fits { P.fits pace self.old.desk.board }
        ensures result { result ≡ self.old.pace }
        ensures new { self.new ≡ record self.old { pace = pace } }
        ensures fits { P.fits result self.new.desk.board }
    {
        mem::replace(&mut self.pace, pace)
    }
}
