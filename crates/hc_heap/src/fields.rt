//! The words of entries, fields and links.
ghost use Rattle.std.specs.Prelude.{◌≡◌, ◌<◌};
ghost use Rattle.hc_heap.specs.Writes.{EntryKey, Reference, Owner, FieldDetail, LinkKey, LinkChild, LinkNext};
ghost use Rattle.hc_heap.specs.Readings.{entry_key_in, reference_in, owner_in, detail_in, link_key_in, link_child_in, link_next_in};
ghost use Rattle.hc_heap.specs.Lawful.{LawfulEntryKey, LawfulReference, LawfulOwner, LawfulDetail, LawfulLinkKey, LawfulLinkChild, LawfulLinkNext};
ghost use Rattle.hc_heap.specs.States.{IsHeap, OneStore, Goes, one_load, with_write};

use crate::codes::{key_of_word, number, number_word, settled, settled_word, word_of_key};
use crate::heap::Heap;
use crate::kind::Kind;
use crate::pace::Pace;
use hc_value::{Detail, Key};

impl<P: Pace> Heap<P> {
    /// The key of an entry; none before it is written.
    pub fn entry_key(&mut self, entry: u32) -> Option<Key>
        ensures value { result ≡ entry_key_in self.old.view.trail entry }
        ensures new { self.new ≡ record self.old { desk = one_load self.old.desk } }
        ensures goes { Goes self.old.desk self.new.desk }
        ensures went { P.went self.old.pace self.old.desk.trail self.new.desk.trail self.new.pace }
    {
        key_of_word(self.word(Kind::KeyOfEntry, entry))
    }

    /// Writes the key of an entry, once.
    pub fn set_entry_key(&mut self, entry: u32, key: Key)
        requires handed { entry < self.old.view.used.entries }
        requires lawful { LawfulEntryKey self.old.view.shape self.old.view.trail entry key }
        ensures view { self.new.view ≡ with_write self.old.view (EntryKey entry key) }
        ensures heap { IsHeap self.new.view }
        ensures one { OneStore self.old.desk self.new.desk }
        ensures goes { Goes self.old.desk self.new.desk }
        ensures went { P.went self.old.pace self.old.desk.trail self.new.desk.trail self.new.pace }
    {
        self.put(Kind::KeyOfEntry, entry, word_of_key(key));
    }

    /// The field of an entry; none before it is written.
    pub fn reference(&mut self, entry: u32) -> Option<u32>
        ensures value { result ≡ reference_in self.old.view.trail entry }
        ensures new { self.new ≡ record self.old { desk = one_load self.old.desk } }
        ensures goes { Goes self.old.desk self.new.desk }
        ensures went { P.went self.old.pace self.old.desk.trail self.new.desk.trail self.new.pace }
    {
        number(self.word(Kind::ReferenceOfEntry, entry))
    }

    /// Writes the field of an entry, once.
    pub fn set_reference(&mut self, entry: u32, field: u32)
        requires handed { entry < self.old.view.used.entries }
        requires lawful { LawfulReference self.old.view.shape self.old.view.trail entry field }
        ensures view { self.new.view ≡ with_write self.old.view (Reference entry field) }
        ensures heap { IsHeap self.new.view }
        ensures one { OneStore self.old.desk self.new.desk }
        ensures goes { Goes self.old.desk self.new.desk }
        ensures went { P.went self.old.pace self.old.desk.trail self.new.desk.trail self.new.pace }
    {
        self.put(Kind::ReferenceOfEntry, entry, number_word(field));
    }

    /// The map for which a field was made; none before it is written.
    pub fn field_owner(&mut self, field: u32) -> Option<u32>
        ensures value { result ≡ owner_in self.old.view.trail field }
        ensures new { self.new ≡ record self.old { desk = one_load self.old.desk } }
        ensures goes { Goes self.old.desk self.new.desk }
        ensures went { P.went self.old.pace self.old.desk.trail self.new.desk.trail self.new.pace }
    {
        number(self.word(Kind::OwnerOfField, field))
    }

    /// Writes the owner of a field, once.
    pub fn set_field_owner(&mut self, field: u32, owner: u32)
        requires handed { field < self.old.view.used.fields }
        requires lawful { LawfulOwner self.old.view.shape self.old.view.trail field owner }
        ensures view { self.new.view ≡ with_write self.old.view (Owner field owner) }
        ensures heap { IsHeap self.new.view }
        ensures one { OneStore self.old.desk self.new.desk }
        ensures goes { Goes self.old.desk self.new.desk }
        ensures went { P.went self.old.pace self.old.desk.trail self.new.desk.trail self.new.pace }
    {
        self.put(Kind::OwnerOfField, field, number_word(owner));
    }

    /// What a field admits; none before it is written.
    pub fn detail(&mut self, field: u32) -> Option<Detail>
        ensures value { result ≡ detail_in self.old.view.trail field }
        ensures new { self.new ≡ record self.old { desk = one_load self.old.desk } }
        ensures goes { Goes self.old.desk self.new.desk }
        ensures went { P.went self.old.pace self.old.desk.trail self.new.desk.trail self.new.pace }
    {
        Detail::unpack(self.word(Kind::DetailOfField, field))
    }

    /// Writes what a field admits, or lets it admit more.
    pub fn set_detail(&mut self, field: u32, detail: Detail)
        requires handed { field < self.old.view.used.fields }
        requires lawful { LawfulDetail self.old.view.shape self.old.view.trail field detail }
        ensures view { self.new.view ≡ with_write self.old.view (FieldDetail field detail) }
        ensures heap { IsHeap self.new.view }
        ensures one { OneStore self.old.desk self.new.desk }
        ensures goes { Goes self.old.desk self.new.desk }
        ensures went { P.went self.old.pace self.old.desk.trail self.new.desk.trail self.new.pace }
    {
        self.put(Kind::DetailOfField, field, detail.pack());
    }

    /// The key of a link; none before it is written.
    pub fn link_key(&mut self, link: u32) -> Option<Key>
        ensures value { result ≡ link_key_in self.old.view.trail link }
        ensures new { self.new ≡ record self.old { desk = one_load self.old.desk } }
        ensures goes { Goes self.old.desk self.new.desk }
        ensures went { P.went self.old.pace self.old.desk.trail self.new.desk.trail self.new.pace }
    {
        key_of_word(self.word(Kind::KeyOfLink, link))
    }

    /// Writes the key of a link, once.
    pub fn set_link_key(&mut self, link: u32, key: Key)
        requires handed { link < self.old.view.used.links }
        requires lawful { LawfulLinkKey self.old.view.shape self.old.view.trail link key }
        ensures view { self.new.view ≡ with_write self.old.view (LinkKey link key) }
        ensures heap { IsHeap self.new.view }
        ensures one { OneStore self.old.desk self.new.desk }
        ensures goes { Goes self.old.desk self.new.desk }
        ensures went { P.went self.old.pace self.old.desk.trail self.new.desk.trail self.new.pace }
    {
        self.put(Kind::KeyOfLink, link, word_of_key(key));
    }

    /// The map to which a link leads; none before it is written.
    pub fn link_child(&mut self, link: u32) -> Option<u32>
        ensures value { result ≡ link_child_in self.old.view.trail link }
        ensures new { self.new ≡ record self.old { desk = one_load self.old.desk } }
        ensures goes { Goes self.old.desk self.new.desk }
        ensures went { P.went self.old.pace self.old.desk.trail self.new.desk.trail self.new.pace }
    {
        number(self.word(Kind::ChildOfLink, link))
    }

    /// Writes the map to which a link leads, once.
    pub fn set_link_child(&mut self, link: u32, child: u32)
        requires handed { link < self.old.view.used.links }
        requires lawful { LawfulLinkChild self.old.view.shape self.old.view.trail link child }
        ensures view { self.new.view ≡ with_write self.old.view (LinkChild link child) }
        ensures heap { IsHeap self.new.view }
        ensures one { OneStore self.old.desk self.new.desk }
        ensures goes { Goes self.old.desk self.new.desk }
        ensures went { P.went self.old.pace self.old.desk.trail self.new.desk.trail self.new.pace }
    {
        self.put(Kind::ChildOfLink, link, number_word(child));
    }

    /// The link after a link, or that it is the last; none before it is written.
    pub fn link_next(&mut self, link: u32) -> Option<Option<u32>>
        ensures value { result ≡ link_next_in self.old.view.trail link }
        ensures new { self.new ≡ record self.old { desk = one_load self.old.desk } }
        ensures goes { Goes self.old.desk self.new.desk }
        ensures went { P.went self.old.pace self.old.desk.trail self.new.desk.trail self.new.pace }
    {
        settled(self.word(Kind::NextOfLink, link))
    }

    /// Writes the link after a link, once.
    pub fn set_link_next(&mut self, link: u32, next: Option<u32>)
        requires handed { link < self.old.view.used.links }
        requires lawful { LawfulLinkNext self.old.view.shape self.old.view.trail link next }
        ensures view { self.new.view ≡ with_write self.old.view (LinkNext link next) }
        ensures heap { IsHeap self.new.view }
        ensures one { OneStore self.old.desk self.new.desk }
        ensures goes { Goes self.old.desk self.new.desk }
        ensures went { P.went self.old.pace self.old.desk.trail self.new.desk.trail self.new.pace }
    {
        self.put(Kind::NextOfLink, link, settled_word(next));
    }
}
