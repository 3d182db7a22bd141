//! The words of the board, each by one look.
ghost use Rattle.std.specs.Prelude.{◌≡◌, ◌∷◌, [], IfSome, IsTrue, ◌↔◌, ◌<◌};
ghost use Rattle.hc_layout.specs.Shape.{IsShape, items_of, words_of};
ghost use Rattle.hc_layout.specs.Words.{gate_of, map_bits_of, store_of};
ghost use Rattle.hc_value.specs.Field.{detail_of};
ghost use Rattle.hc_heap.specs.Kinds.{region_of, place_at};
ghost use Rattle.hc_heap.specs.Decode.{key_read, settled_number, optional_number, number_read, any_word};
ghost use Rattle.hc_heap.specs.declared.kind.Kind.TheVariants.{GateOfMap, PrototypeOfMap, BitsOfMap, BaseOfMap, HeadOfMap, KeyOfEntry, ReferenceOfEntry, DetailOfField, KeyOfLink, ChildOfLink, NextOfLink, MapOfObject, StoreOfObject, WordOfSlot};
ghost use Rattle.hc_broker.specs.Peeks.{Peeked, index_asked};

use hc_board::Look;
use hc_heap::{Kind, key_of_word, number, optional, settled};
use hc_layout::{GateWord, MapBits, Shape, StoreWord};
use hc_value::{Detail, Key};

/// One who looks at the words of a board of a shape. An answer is none exactly where the board has no such
/// item, or the word isn't written or isn't of its form.
pub struct Peek<'a, L: Look> {
    pub look: &'a mut L,
    pub shape: Shape,
}

impl<L: Look> Drop for Peek<'_, L> {
    fn drop(self)
        ensures { self.exit.0.now ≡ self.entry.look.now }
    {
        let Peek { look: _, shape: _ } = self;
    }
}

// The index of the word of an item; the board's end where the board has no such item.
fn index_asked(shape: &Shape, kind: Kind, item: u32) -> u32
    requires { IsShape shape.now }
    ensures { result ≡ index_asked shape.now kind item }
{
    let place = kind.place(item);
    if item < shape.items(place.region) {
        shape.index(place)
    } else {
        shape.words()
    }
}

impl<'a, L: Look> Peek<'a, L> {
    pub fn new(look: &'a mut L, shape: Shape) -> Peek<'a, L>
        ensures same_reference { result.look.ghost_name ≡ look.entry.ghost_name }
        ensures same { result.look.now ≡ look.old }
        ensures shape { result.shape ≡ shape }
    {
        Peek { look, shape }
    }

    // The word of an item; none where the board has no such item.
    fn word(&mut self, kind: Kind, item: u32) -> Option<u64>
        requires { IsShape self.old.shape }
        ensures peeked { Peeked L.image L.looked self.old.shape kind item any_word
            self.old.look.now self.new.look.now result }
        ensures same_reference { self.new.look.ghost_name ≡ self.old.look.ghost_name }
        ensures shape { self.new.shape ≡ self.old.shape }
    {
        let index = index_asked(&self.shape, kind, item);
        let word = self.look.look(index);
        if item < self.shape.items(kind.place(item).region) {
            Some(word)
        } else {
            None
        }
    }

    /// What opens a map.
    pub fn gate(&mut self, map: u32) -> Option<GateWord>
        requires { IsShape self.old.shape }
        ensures peeked { Peeked L.image L.looked self.old.shape GateOfMap map gate_of
            self.old.look.now self.new.look.now result }
        ensures same_reference { self.new.look.ghost_name ≡ self.old.look.ghost_name }
        ensures shape { self.new.shape ≡ self.old.shape }
    {
        GateWord::unpack(self.word(Kind::GateOfMap, map)?)
    }

    /// The prototype of a map, or that it is null.
    pub fn proto(&mut self, map: u32) -> Option<Option<u32>>
        requires { IsShape self.old.shape }
        ensures peeked { Peeked L.image L.looked self.old.shape PrototypeOfMap map settled_number
            self.old.look.now self.new.look.now result }
        ensures same_reference { self.new.look.ghost_name ≡ self.old.look.ghost_name }
        ensures shape { self.new.shape ≡ self.old.shape }
    {
        settled(self.word(Kind::PrototypeOfMap, map)?)
    }

    /// Whether a map is unstable, and whether it is deprecated.
    pub fn bits(&mut self, map: u32) -> Option<MapBits>
        requires { IsShape self.old.shape }
        ensures peeked { Peeked L.image L.looked self.old.shape BitsOfMap map map_bits_of
            self.old.look.now self.new.look.now result }
        ensures same_reference { self.new.look.ghost_name ≡ self.old.look.ghost_name }
        ensures shape { self.new.shape ≡ self.old.shape }
    {
        MapBits::unpack(self.word(Kind::BitsOfMap, map)?)
    }

    /// The first of a map's entries.
    pub fn base(&mut self, map: u32) -> Option<Option<u32>>
        requires { IsShape self.old.shape }
        ensures peeked { Peeked L.image L.looked self.old.shape BaseOfMap map optional_number
            self.old.look.now self.new.look.now result }
        ensures same_reference { self.new.look.ghost_name ≡ self.old.look.ghost_name }
        ensures shape { self.new.shape ≡ self.old.shape }
    {
        optional(self.word(Kind::BaseOfMap, map)?)
    }

    /// The link that a map put in last.
    pub fn head(&mut self, map: u32) -> Option<Option<u32>>
        requires { IsShape self.old.shape }
        ensures peeked { Peeked L.image L.looked self.old.shape HeadOfMap map optional_number
            self.old.look.now self.new.look.now result }
        ensures same_reference { self.new.look.ghost_name ≡ self.old.look.ghost_name }
        ensures shape { self.new.shape ≡ self.old.shape }
    {
        optional(self.word(Kind::HeadOfMap, map)?)
    }

    /// The key of an entry.
    pub fn entry_key(&mut self, entry: u32) -> Option<Key>
        requires { IsShape self.old.shape }
        ensures peeked { Peeked L.image L.looked self.old.shape KeyOfEntry entry key_read
            self.old.look.now self.new.look.now result }
        ensures same_reference { self.new.look.ghost_name ≡ self.old.look.ghost_name }
        ensures shape { self.new.shape ≡ self.old.shape }
    {
        key_of_word(self.word(Kind::KeyOfEntry, entry)?)
    }

    /// The field of an entry.
    pub fn reference(&mut self, entry: u32) -> Option<u32>
        requires { IsShape self.old.shape }
        ensures peeked { Peeked L.image L.looked self.old.shape ReferenceOfEntry entry number_read
            self.old.look.now self.new.look.now result }
        ensures same_reference { self.new.look.ghost_name ≡ self.old.look.ghost_name }
        ensures shape { self.new.shape ≡ self.old.shape }
    {
        number(self.word(Kind::ReferenceOfEntry, entry)?)
    }

    /// What a field admits.
    pub fn detail(&mut self, field: u32) -> Option<Detail>
        requires { IsShape self.old.shape }
        ensures peeked { Peeked L.image L.looked self.old.shape DetailOfField field detail_of
            self.old.look.now self.new.look.now result }
        ensures same_reference { self.new.look.ghost_name ≡ self.old.look.ghost_name }
        ensures shape { self.new.shape ≡ self.old.shape }
    {
        Detail::unpack(self.word(Kind::DetailOfField, field)?)
    }

    /// The key of a link.
    pub fn link_key(&mut self, link: u32) -> Option<Key>
        requires { IsShape self.old.shape }
        ensures peeked { Peeked L.image L.looked self.old.shape KeyOfLink link key_read
            self.old.look.now self.new.look.now result }
        ensures same_reference { self.new.look.ghost_name ≡ self.old.look.ghost_name }
        ensures shape { self.new.shape ≡ self.old.shape }
    {
        key_of_word(self.word(Kind::KeyOfLink, link)?)
    }

    /// The map to which a link leads.
    pub fn link_child(&mut self, link: u32) -> Option<u32>
        requires { IsShape self.old.shape }
        ensures peeked { Peeked L.image L.looked self.old.shape ChildOfLink link number_read
            self.old.look.now self.new.look.now result }
        ensures same_reference { self.new.look.ghost_name ≡ self.old.look.ghost_name }
        ensures shape { self.new.shape ≡ self.old.shape }
    {
        number(self.word(Kind::ChildOfLink, link)?)
    }

    /// The link after a link, or that it is the last.
    pub fn link_next(&mut self, link: u32) -> Option<Option<u32>>
        requires { IsShape self.old.shape }
        ensures peeked { Peeked L.image L.looked self.old.shape NextOfLink link settled_number
            self.old.look.now self.new.look.now result }
        ensures same_reference { self.new.look.ghost_name ≡ self.old.look.ghost_name }
        ensures shape { self.new.shape ≡ self.old.shape }
    {
        settled(self.word(Kind::NextOfLink, link)?)
    }

    /// The map of an object, or that it is none.
    pub fn object_map(&mut self, object: u32) -> Option<Option<u32>>
        requires { IsShape self.old.shape }
        ensures peeked { Peeked L.image L.looked self.old.shape MapOfObject object optional_number
            self.old.look.now self.new.look.now result }
        ensures same_reference { self.new.look.ghost_name ≡ self.old.look.ghost_name }
        ensures shape { self.new.shape ≡ self.old.shape }
    {
        optional(self.word(Kind::MapOfObject, object)?)
    }

    /// The slots of an object.
    pub fn store(&mut self, object: u32) -> Option<StoreWord>
        requires { IsShape self.old.shape }
        ensures peeked { Peeked L.image L.looked self.old.shape StoreOfObject object store_of
            self.old.look.now self.new.look.now result }
        ensures same_reference { self.new.look.ghost_name ≡ self.old.look.ghost_name }
        ensures shape { self.new.shape ≡ self.old.shape }
    {
        StoreWord::unpack(self.word(Kind::StoreOfObject, object)?)
    }

    /// The word of a slot, as it stands.
    pub fn slot(&mut self, slot: u32) -> Option<u64>
        requires { IsShape self.old.shape }
        ensures peeked { Peeked L.image L.looked self.old.shape WordOfSlot slot any_word
            self.old.look.now self.new.look.now result }
        ensures same_reference { self.new.look.ghost_name ≡ self.old.look.ghost_name }
        ensures shape { self.new.shape ≡ self.old.shape }
    {
        self.word(Kind::WordOfSlot, slot)
    }
}
