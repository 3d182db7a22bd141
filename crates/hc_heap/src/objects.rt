//! The words of objects, slots and cells.
ghost use Rattle.std.specs.Prelude.{◌≡◌, ◌<◌};
ghost use Rattle.hc_heap.specs.Writes.{ObjectMap, Root, Store, ObjectCell, Slot, Validity};
ghost use Rattle.hc_heap.specs.Readings.{map_in, root_in, store_in, object_cell_in, slot_in, validity_in};
ghost use Rattle.hc_heap.specs.Lawful.{LawfulObjectMap, LawfulRoot, LawfulStore, LawfulObjectCell, LawfulValidity};
ghost use Rattle.hc_heap.specs.States.{IsHeap, OneStore, Goes, one_load, with_write};

use crate::codes::{optional, optional_word};
use crate::heap::Heap;
use crate::kind::Kind;
use crate::pace::Pace;
use hc_layout::{CellWord, RootWord, StoreWord};

impl<P: Pace> Heap<P> {
    /// The map of an object; none while it is slow or not made.
    pub fn object_map(&mut self, object: u32) -> Option<u32>
        ensures value { result ≡ map_in self.old.view.trail object }
        ensures new { self.new ≡ record self.old { desk = one_load self.old.desk } }
        ensures goes { Goes self.old.desk self.new.desk }
        ensures went { P.went self.old.pace self.old.desk.trail self.new.desk.trail self.new.pace }
    {
        match optional(self.word(Kind::MapOfObject, object)) {
            Some(map) => map,
            None => None,
        }
    }

    /// Moves an object to a map that its slots are filled for, or to none.
    pub fn set_object_map(&mut self, object: u32, map: Option<u32>)
        requires handed { object < self.old.view.used.objects }
        requires lawful { LawfulObjectMap self.old.view.shape self.old.view.trail object map }
        ensures view { self.new.view ≡ with_write self.old.view (ObjectMap object map) }
        ensures heap { IsHeap self.new.view }
        ensures one { OneStore self.old.desk self.new.desk }
        ensures goes { Goes self.old.desk self.new.desk }
        ensures went { P.went self.old.pace self.old.desk.trail self.new.desk.trail self.new.pace }
    {
        self.put(Kind::MapOfObject, object, optional_word(map));
    }

    /// Whether an object is or was a prototype, and the root of the maps that have it as theirs.
    pub fn object_root(&mut self, object: u32) -> RootWord
        ensures value { result ≡ root_in self.old.view.trail object }
        ensures new { self.new ≡ record self.old { desk = one_load self.old.desk } }
        ensures goes { Goes self.old.desk self.new.desk }
        ensures went { P.went self.old.pace self.old.desk.trail self.new.desk.trail self.new.pace }
    {
        match RootWord::unpack(self.word(Kind::RootOfObject, object)) {
            Some(root) => root,
            None => RootWord {
                is_proto: false,
                map: None,
            },
        }
    }

    /// Writes the root word of an object.
    pub fn set_object_root(&mut self, object: u32, root: RootWord)
        requires handed { object < self.old.view.used.objects }
        requires lawful { LawfulRoot self.old.view.shape self.old.view.trail object root }
        ensures view { self.new.view ≡ with_write self.old.view (Root object root) }
        ensures heap { IsHeap self.new.view }
        ensures one { OneStore self.old.desk self.new.desk }
        ensures goes { Goes self.old.desk self.new.desk }
        ensures went { P.went self.old.pace self.old.desk.trail self.new.desk.trail self.new.pace }
    {
        self.stands();
        self.put(Kind::RootOfObject, object, root.pack());
    }

    /// The slots of an object.
    pub fn store(&mut self, object: u32) -> StoreWord
        ensures value { result ≡ store_in self.old.view.trail object }
        ensures new { self.new ≡ record self.old { desk = one_load self.old.desk } }
        ensures goes { Goes self.old.desk self.new.desk }
        ensures went { P.went self.old.pace self.old.desk.trail self.new.desk.trail self.new.pace }
    {
        match StoreWord::unpack(self.word(Kind::StoreOfObject, object)) {
            Some(store) => store,
            None => StoreWord {
                capacity: 0,
                first: None,
            },
        }
    }

    /// Moves an object to other slots.
    pub fn set_store(&mut self, object: u32, store: StoreWord)
        requires handed { object < self.old.view.used.objects }
        requires lawful { LawfulStore self.old.view.shape self.old.view.trail object store }
        ensures view { self.new.view ≡ with_write self.old.view (Store object store) }
        ensures heap { IsHeap self.new.view }
        ensures one { OneStore self.old.desk self.new.desk }
        ensures goes { Goes self.old.desk self.new.desk }
        ensures went { P.went self.old.pace self.old.desk.trail self.new.desk.trail self.new.pace }
    {
        self.stands();
        self.put(Kind::StoreOfObject, object, store.pack());
    }

    /// The validity cell of an object.
    pub fn object_cell(&mut self, object: u32) -> Option<u32>
        ensures value { result ≡ object_cell_in self.old.view.trail object }
        ensures new { self.new ≡ record self.old { desk = one_load self.old.desk } }
        ensures goes { Goes self.old.desk self.new.desk }
        ensures went { P.went self.old.pace self.old.desk.trail self.new.desk.trail self.new.pace }
    {
        match optional(self.word(Kind::CellOfObject, object)) {
            Some(cell) => cell,
            None => None,
        }
    }

    /// Writes the validity cell of an object.
    pub fn set_object_cell(&mut self, object: u32, cell: Option<u32>)
        requires handed { object < self.old.view.used.objects }
        requires lawful { LawfulObjectCell self.old.view.shape self.old.view.trail object cell }
        ensures view { self.new.view ≡ with_write self.old.view (ObjectCell object cell) }
        ensures heap { IsHeap self.new.view }
        ensures one { OneStore self.old.desk self.new.desk }
        ensures goes { Goes self.old.desk self.new.desk }
        ensures went { P.went self.old.pace self.old.desk.trail self.new.desk.trail self.new.pace }
    {
        self.put(Kind::CellOfObject, object, optional_word(cell));
    }

    /// The word of a slot.
    pub fn slot(&mut self, slot: u32) -> u64
        ensures value { result ≡ slot_in self.old.view.trail slot }
        ensures new { self.new ≡ record self.old { desk = one_load self.old.desk } }
        ensures goes { Goes self.old.desk self.new.desk }
        ensures went { P.went self.old.pace self.old.desk.trail self.new.desk.trail self.new.pace }
    {
        self.word(Kind::WordOfSlot, slot)
    }

    /// Writes the word of a slot.
    pub fn set_slot(&mut self, slot: u32, word: u64)
        requires handed { slot < self.old.view.used.slots }
        ensures view { self.new.view ≡ with_write self.old.view (Slot slot word) }
        ensures heap { IsHeap self.new.view }
        ensures one { OneStore self.old.desk self.new.desk }
        ensures goes { Goes self.old.desk self.new.desk }
        ensures went { P.went self.old.pace self.old.desk.trail self.new.desk.trail self.new.pace }
    {
        self.put(Kind::WordOfSlot, slot, word);
    }

    /// A validity cell; none before it is written.
    pub fn validity(&mut self, cell: u32) -> Option<CellWord>
        ensures value { result ≡ validity_in self.old.view.trail cell }
        ensures new { self.new ≡ record self.old { desk = one_load self.old.desk } }
        ensures goes { Goes self.old.desk self.new.desk }
        ensures went { P.went self.old.pace self.old.desk.trail self.new.desk.trail self.new.pace }
    {
        CellWord::unpack(self.word(Kind::StateOfCell, cell))
    }

    /// Writes a cell, or makes it invalid.
    pub fn set_validity(&mut self, cell: u32, state: CellWord)
        requires handed { cell < self.old.view.used.cells }
        requires lawful { LawfulValidity self.old.view.shape self.old.view.trail cell state }
        ensures view { self.new.view ≡ with_write self.old.view (Validity cell state) }
        ensures heap { IsHeap self.new.view }
        ensures one { OneStore self.old.desk self.new.desk }
        ensures goes { Goes self.old.desk self.new.desk }
        ensures went { P.went self.old.pace self.old.desk.trail self.new.desk.trail self.new.pace }
    {
        self.put(Kind::StateOfCell, cell, state.pack());
    }
}
