//! The words of the board by kind and item, and the counts of items.
ghost use Rattle.std.specs.Prelude.{◌≡◌, ℕ, ◌+◌, ◌<◌, ◌≤◌, ◌↔◌, List, [], ◌∷◌, ◌++◌, length, slice_index, IfOk, IsTrue};
ghost use Rattle.hc_board.specs.Trail.{Access};
ghost use Rattle.hc_board.specs.Fits.{ReadsFit};
ghost use Rattle.hc_board.specs.Parts.{EntryFits};
ghost use Rattle.hc_board.specs.States.{WriterState, words_of as image_words, position_of, AllFit, entry_of, new_reader, renewed, reads_made, beginning, counted};
ghost use Rattle.hc_layout.specs.Shape.{IsShape, items_of, words_of};
ghost use Rattle.hc_heap.specs.Kinds.{region_of, place_at};
ghost use Rattle.hc_heap.specs.Decode.{written};
ghost use Rattle.hc_heap.specs.Lawful.{LawfulWrite};
ghost use Rattle.hc_heap.specs.Said.{word_in, Says};
ghost use Rattle.hc_heap.specs.States.{IsWords, IsHeap, KeepsArrays, OneStore, Extends, HasRoom, one_load, with_write, with_items, with_met, no_items};

use crate::kind::Kind;
use crate::pace::Pace;
use hc_board::{Board, Reader, Writer, image_is_wide};
use hc_layout::{Layout, Region, Shape, places_are_found, places_lie};
use hc_value::Memory;
use std::alloc::Global;
use std::marker::Model;

/// The board's writer, the board's layout, and how many items of each region were handed out.
#[derive(Drop)]
pub(crate) struct Words {
    pub(crate) writer: Writer,
    layout: Layout,
    used: Shape,
}

impl Model for Words {
    ghost use Rattle.hc_heap.specs.Decode.{typed};
    ghost use Rattle.hc_heap.specs.States.{WordsState, IsWords};

    ghost Value = { WordsState };

    ghost view = { λ w. record { view = record { shape = w.layout; trail = typed w.layout w.writer.trail; used = w.used }; desk = w.writer } };

    ghost invariant = { λ w. IsWords (record { shape = w.layout; trail = typed w.layout w.writer.trail; used = w.used }) w.writer };
}

impl Words {
    /// A new board, whose words are 0 and whose items aren't handed out.
    pub(crate) fn new(alloc: Global, shape: Shape) -> Result<Words, Memory>
        requires fits { IsShape shape }
        ensures view { IfOk result (λ r. r.view ≡ record { shape = shape; trail = []; used = no_items }) }
        ensures desk { IfOk result (λ r. r.desk ≡ record { board = r.desk.board; trail = []; loads = 0; met = [] }) }
        ensures words { IfOk result (λ r. IsWords r.view r.desk) }
    {
        let Ok((_board, writer)) = Board::make(alloc, shape.words()) else {
            return Err(Memory);
        };
        let used = Shape {
            maps: 0,
            entries: 0,
            fields: 0,
            links: 0,
            objects: 0,
            slots: 0,
            cells: 0,
        };
        Ok(Words {
            writer,
            layout: Layout::new(shape),
            used,
        })
    }

    #[inline]
    // Where the word of an item lies, or else the end of the board.
    fn index(&self, kind: Kind, item: u32) -> u32
        ensures { (words : List ℕ) → length words ≡ words_of self.now.view.shape → slice_index words result ≡ word_in self.now.view.shape words kind item }
    {
        let place = kind.place(item);
        if item < self.layout.items(place.region) {
            self.layout.index(place)
        } else {
            self.layout.words()
        }
    }

    /// The word of an item, by one load.
    #[inline]
    pub(crate) fn load(&mut self, kind: Kind, item: u32) -> u64
        ensures says { Says kind self.old.view.trail item result }
        ensures new { self.new ≡ record self.old { desk = one_load self.old.desk } }
        ensures words { IsWords self.new.view self.new.desk }
    {
        image_is_wide();
        places_lie();
        places_are_found();
        let index = self.index(kind, item);
        self.writer.load(index)
    }

    /// Writes the word of an item, by one store.
    pub(crate) fn store(&mut self, kind: Kind, item: u32, word: u64)
        requires handed { item < items_of self.old.view.used (region_of kind) }
        requires lawful { LawfulWrite self.old.view.shape self.old.view.trail (written kind item word) }
        requires arrays { KeepsArrays self.old.view kind item word }
        ensures view { self.new.view ≡ with_write self.old.view (written kind item word) }
        ensures one { OneStore self.old.desk self.new.desk }
        ensures words { IsWords self.new.view self.new.desk }
    {
        let index = self.layout.index(kind.place(item));
        self.writer.store(index, word);
    }

    /// Tells the pace of a store.
    pub(crate) fn tell<P: Pace>(&mut self, pace: &mut P)
        requires fits { P.fits pace.old self.old.desk.board }
        requires stored { 0 < length self.old.desk.trail }
        ensures fits { P.fits pace.new self.new.desk.board }
        ensures new { self.new ≡ record self.old { desk = record self.old.desk { met = self.new.desk.met } } }
        ensures met { Extends self.old.desk.met self.new.desk.met }
        ensures went { (trail : List Access) (store : Access) → self.old.desk.trail ≡ trail ++ store ∷ [] → P.went pace.old trail self.old.desk.trail pace.new }
        ensures words { IsWords self.new.view self.new.desk }
    {
        pace.wrote(&mut self.writer);
    }

    /// The word at an index, or 0 past the board's end.
    pub(crate) fn look(&mut self, index: u32) -> u64
        ensures value { result ≡ slice_index (image_words self.old.desk) index }
        ensures new { self.new ≡ record self.old { desk = one_load self.old.desk } }
        ensures words { IsWords self.new.view self.new.desk }
    {
        self.writer.load(index)
    }

    /// The number of stores.
    pub(crate) fn writes(&self) -> u64
        ensures { result ≡ counted (length self.now.desk.trail) }
    {
        self.writer.writes()
    }

    /// The number of met entries.
    pub(crate) fn met(&self) -> u64
        ensures count { result ≡ counted (length self.now.desk.met) }
        ensures fits { AllFit self.now.desk }
    {
        self.writer.met()
    }

    /// A reader that begins here.
    pub(crate) fn reader(&mut self) -> Result<Reader, Memory>
        ensures reader { IfOk result (λ r. r ≡ new_reader self.old.desk.board (position_of self.old.desk)) }
        ensures same { self.new ≡ self.old }
    {
        let Ok(reader) = self.writer.reader() else {
            return Err(Memory);
        };
        Ok(reader)
    }

    /// Takes a reader back.
    pub(crate) fn meet(&mut self, reader: Reader)
        requires board { reader.board ≡ self.old.desk.board }
        ensures new { self.new ≡ record self.old { desk = with_met self.old.desk reader } }
        ensures fits { EntryFits self.old.desk.board.words self.old.desk.trail (entry_of reader (position_of self.old.desk)) }
        ensures last { ReadsFit self.old.desk.board.words self.old.desk.trail reader.begin (position_of self.old.desk) reader.last }
        ensures reads { ReadsFit self.old.desk.board.words self.old.desk.trail (beginning reader) (position_of self.old.desk) (reads_made reader) }
        ensures words { IsWords self.new.view self.new.desk }
    {
        self.writer.meet(reader);
    }

    /// Ends the reader's last part here, and begins a new one.
    pub(crate) fn renew(&mut self, reader: Reader) -> Reader
        requires board { reader.board ≡ self.old.desk.board }
        ensures reader { result ≡ renewed reader (position_of self.old.desk) }
        ensures new { self.new ≡ record self.old { desk = with_met self.old.desk reader } }
        ensures fits { EntryFits self.old.desk.board.words self.old.desk.trail (entry_of reader (position_of self.old.desk)) }
        ensures last { ReadsFit self.old.desk.board.words self.old.desk.trail reader.begin (position_of self.old.desk) reader.last }
        ensures reads { ReadsFit self.old.desk.board.words self.old.desk.trail (beginning reader) (position_of self.old.desk) (reads_made reader) }
        ensures words { IsWords self.new.view self.new.desk }
    {
        self.writer.renew(reader)
    }

    /// How many items of a region were handed out.
    pub(crate) fn used(&self, region: Region) -> u32
        ensures { result ≡ items_of self.now.view.used region }
    {
        self.used.items(region)
    }

    /// Whether a region has so many items more.
    pub(crate) fn room(&self, region: Region, n: u32) -> bool
        ensures { IsTrue result ↔ HasRoom self.now.view region n }
    {
        n <= self.layout.items(region) - self.used.items(region)
    }

    /// Hands out the next items of a region. The answer is the first of them.
    pub(crate) fn fresh(&mut self, region: Region, n: u32) -> u32
        requires room { HasRoom self.old.view region n }
        ensures first { result ≡ items_of self.old.view.used region }
        ensures new { self.new ≡ record self.old { view = record self.old.view { used = with_items region (result + n) self.old.view.used } } }
        ensures words { IsWords self.new.view self.new.desk }
    {
        let first = self.used.items(region);
        self.used = with_count(self.used, region, first + n);
        first
    }
}

// The counts, with one of them set.
fn with_count(counts: Shape, region: Region, n: u32) -> Shape
    ensures { result ≡ with_items region n counts }
{
    match region {
        Region::Maps => Shape { maps: n, ..counts },
        Region::Entries => Shape {
            entries: n,
            ..counts
        },
        Region::Fields => Shape {
            fields: n,
            ..counts
        },
        Region::Links => Shape { links: n, ..counts },
        Region::Objects => Shape {
            objects: n,
            ..counts
        },
        Region::Slots => Shape { slots: n, ..counts },
        Region::Cells => Shape { cells: n, ..counts },
    }
}
