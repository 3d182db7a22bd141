//! The kinds of words that items have.
ghost use Rattle.std.specs.Prelude.{◌≡◌};
ghost use Rattle.hc_heap.specs.Kinds.{place_at, region_of, word_of};

use hc_layout::{Place, Region};

/// A word of an item, by what it is for.
#[derive(Clone, Copy)]
pub enum Kind {
    GateOfMap,
    ParentOfMap,
    PrototypeOfMap,
    BitsOfMap,
    BaseOfMap,
    ArrayOfMap,
    HeadOfMap,
    KeyOfEntry,
    ReferenceOfEntry,
    OwnerOfField,
    DetailOfField,
    KeyOfLink,
    ChildOfLink,
    NextOfLink,
    MapOfObject,
    RootOfObject,
    StoreOfObject,
    CellOfObject,
    WordOfSlot,
    StateOfCell,
}

impl Kind {
    /// The region whose items have a word of this kind.
    #[inline]
    fn region(self) -> Region
        ensures { result ≡ region_of self }
    {
        match self {
            Kind::GateOfMap => Region::Maps,
            Kind::ParentOfMap => Region::Maps,
            Kind::PrototypeOfMap => Region::Maps,
            Kind::BitsOfMap => Region::Maps,
            Kind::BaseOfMap => Region::Maps,
            Kind::ArrayOfMap => Region::Maps,
            Kind::HeadOfMap => Region::Maps,
            Kind::KeyOfEntry => Region::Entries,
            Kind::ReferenceOfEntry => Region::Entries,
            Kind::OwnerOfField => Region::Fields,
            Kind::DetailOfField => Region::Fields,
            Kind::KeyOfLink => Region::Links,
            Kind::ChildOfLink => Region::Links,
            Kind::NextOfLink => Region::Links,
            Kind::MapOfObject => Region::Objects,
            Kind::RootOfObject => Region::Objects,
            Kind::StoreOfObject => Region::Objects,
            Kind::CellOfObject => Region::Objects,
            Kind::WordOfSlot => Region::Slots,
            Kind::StateOfCell => Region::Cells,
        }
    }

    /// Which word of an item it is.
    #[inline]
    fn word(self) -> u32
        ensures { result ≡ word_of self }
    {
        match self {
            Kind::GateOfMap => 0,
            Kind::ParentOfMap => 1,
            Kind::PrototypeOfMap => 2,
            Kind::BitsOfMap => 3,
            Kind::BaseOfMap => 4,
            Kind::ArrayOfMap => 5,
            Kind::HeadOfMap => 6,
            Kind::KeyOfEntry => 0,
            Kind::ReferenceOfEntry => 1,
            Kind::OwnerOfField => 0,
            Kind::DetailOfField => 1,
            Kind::KeyOfLink => 0,
            Kind::ChildOfLink => 1,
            Kind::NextOfLink => 2,
            Kind::MapOfObject => 0,
            Kind::RootOfObject => 1,
            Kind::StoreOfObject => 2,
            Kind::CellOfObject => 3,
            Kind::WordOfSlot => 0,
            Kind::StateOfCell => 0,
        }
    }

    /// The place of the word of an item.
    #[inline]
    pub fn place(self, item: u32) -> Place
        ensures { result ≡ place_at self item }
    {
        Place {
            region: self.region(),
            item,
            word: self.word(),
        }
    }
}
