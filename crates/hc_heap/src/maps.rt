//! The words of maps.
ghost use Rattle.std.specs.Prelude.{◌≡◌, ◌+◌, ◌<◌, ◌≤◌, IfSome};
ghost use Rattle.hc_heap.specs.Writes.{Gate, Parent, Prototype, Bits, Base, Array, Head};
ghost use Rattle.hc_heap.specs.Readings.{gate_in, parent_in, prototype_in, bits_in, base_in, array_in, head_in};
ghost use Rattle.hc_heap.specs.Lawful.{LawfulGate, LawfulParent, LawfulPrototype, LawfulBits, LawfulBase, LawfulArray, LawfulHead};
ghost use Rattle.hc_heap.specs.States.{IsHeap, OneStore, Goes, one_load, with_write};

use crate::codes::{optional, optional_word, settled, settled_word};
use crate::heap::Heap;
use crate::kind::Kind;
use crate::pace::Pace;
use hc_layout::{ArrayWord, GateWord, MapBits};

impl<P: Pace> Heap<P> {
    /// The gate of a map; none before it is written.
    pub fn gate(&mut self, map: u32) -> Option<GateWord>
        ensures value { result ≡ gate_in self.old.view.trail map }
        ensures new { self.new ≡ record self.old { desk = one_load self.old.desk } }
        ensures goes { Goes self.old.desk self.new.desk }
        ensures went { P.went self.old.pace self.old.desk.trail self.new.desk.trail self.new.pace }
    {
        GateWord::unpack(self.word(Kind::GateOfMap, map))
    }

    /// Opens a map: its parent, its prototype and its entries are written.
    pub fn set_gate(&mut self, map: u32, gate: GateWord)
        requires handed { map < self.old.view.used.maps }
        requires lawful { LawfulGate self.old.view.shape self.old.view.trail map gate }
        ensures view { self.new.view ≡ with_write self.old.view (Gate map gate) }
        ensures heap { IsHeap self.new.view }
        ensures one { OneStore self.old.desk self.new.desk }
        ensures goes { Goes self.old.desk self.new.desk }
        ensures went { P.went self.old.pace self.old.desk.trail self.new.desk.trail self.new.pace }
    {
        self.put(Kind::GateOfMap, map, gate.pack());
    }

    /// The parent of a map, or that it has none; none before it is written.
    pub fn parent(&mut self, map: u32) -> Option<Option<u32>>
        ensures value { result ≡ parent_in self.old.view.trail map }
        ensures new { self.new ≡ record self.old { desk = one_load self.old.desk } }
        ensures goes { Goes self.old.desk self.new.desk }
        ensures went { P.went self.old.pace self.old.desk.trail self.new.desk.trail self.new.pace }
    {
        settled(self.word(Kind::ParentOfMap, map))
    }

    /// Writes the parent of a map, once.
    pub fn set_parent(&mut self, map: u32, parent: Option<u32>)
        requires handed { map < self.old.view.used.maps }
        requires lawful { LawfulParent self.old.view.shape self.old.view.trail map parent }
        ensures view { self.new.view ≡ with_write self.old.view (Parent map parent) }
        ensures heap { IsHeap self.new.view }
        ensures one { OneStore self.old.desk self.new.desk }
        ensures goes { Goes self.old.desk self.new.desk }
        ensures went { P.went self.old.pace self.old.desk.trail self.new.desk.trail self.new.pace }
    {
        self.put(Kind::ParentOfMap, map, settled_word(parent));
    }

    /// The prototype of a map, or that it is null; none before it is written.
    pub fn proto(&mut self, map: u32) -> Option<Option<u32>>
        ensures value { result ≡ prototype_in self.old.view.trail map }
        ensures new { self.new ≡ record self.old { desk = one_load self.old.desk } }
        ensures goes { Goes self.old.desk self.new.desk }
        ensures went { P.went self.old.pace self.old.desk.trail self.new.desk.trail self.new.pace }
    {
        settled(self.word(Kind::PrototypeOfMap, map))
    }

    /// Writes the prototype of a map, once.
    pub fn set_proto(&mut self, map: u32, proto: Option<u32>)
        requires handed { map < self.old.view.used.maps }
        requires lawful { LawfulPrototype self.old.view.shape self.old.view.trail map proto }
        ensures view { self.new.view ≡ with_write self.old.view (Prototype map proto) }
        ensures heap { IsHeap self.new.view }
        ensures one { OneStore self.old.desk self.new.desk }
        ensures goes { Goes self.old.desk self.new.desk }
        ensures went { P.went self.old.pace self.old.desk.trail self.new.desk.trail self.new.pace }
    {
        self.put(Kind::PrototypeOfMap, map, settled_word(proto));
    }

    /// Whether a map is unstable, and whether it is deprecated.
    pub fn bits(&mut self, map: u32) -> MapBits
        ensures value { result ≡ bits_in self.old.view.trail map }
        ensures new { self.new ≡ record self.old { desk = one_load self.old.desk } }
        ensures goes { Goes self.old.desk self.new.desk }
        ensures went { P.went self.old.pace self.old.desk.trail self.new.desk.trail self.new.pace }
    {
        match MapBits::unpack(self.word(Kind::BitsOfMap, map)) {
            Some(bits) => bits,
            None => MapBits {
                unstable: false,
                deprecated: false,
            },
        }
    }

    /// Sets bits of a map.
    pub fn set_bits(&mut self, map: u32, bits: MapBits)
        requires handed { map < self.old.view.used.maps }
        requires lawful { LawfulBits self.old.view.shape self.old.view.trail map bits }
        ensures view { self.new.view ≡ with_write self.old.view (Bits map bits) }
        ensures heap { IsHeap self.new.view }
        ensures one { OneStore self.old.desk self.new.desk }
        ensures goes { Goes self.old.desk self.new.desk }
        ensures went { P.went self.old.pace self.old.desk.trail self.new.desk.trail self.new.pace }
    {
        self.put(Kind::BitsOfMap, map, bits.pack());
    }

    /// The first of a map's entries.
    pub fn base(&mut self, map: u32) -> Option<u32>
        ensures value { result ≡ base_in self.old.view.trail map }
        ensures new { self.new ≡ record self.old { desk = one_load self.old.desk } }
        ensures goes { Goes self.old.desk self.new.desk }
        ensures went { P.went self.old.pace self.old.desk.trail self.new.desk.trail self.new.pace }
    {
        match optional(self.word(Kind::BaseOfMap, map)) {
            Some(base) => base,
            None => None,
        }
    }

    /// Moves a map to other entries; an open one to entries that are the same. Its array was handed out.
    pub fn set_base(&mut self, map: u32, base: Option<u32>)
        requires handed { map < self.old.view.used.maps }
        requires lawful { LawfulBase self.old.view.shape self.old.view.trail map base }
        requires array { IfSome base (λ b. b + (array_in self.old.view.trail map).capacity ≤ self.old.view.used.entries) }
        ensures view { self.new.view ≡ with_write self.old.view (Base map base) }
        ensures heap { IsHeap self.new.view }
        ensures one { OneStore self.old.desk self.new.desk }
        ensures goes { Goes self.old.desk self.new.desk }
        ensures went { P.went self.old.pace self.old.desk.trail self.new.desk.trail self.new.pace }
    {
        self.put(Kind::BaseOfMap, map, optional_word(base));
    }

    /// The array of a map.
    pub fn array(&mut self, map: u32) -> ArrayWord
        ensures value { result ≡ array_in self.old.view.trail map }
        ensures new { self.new ≡ record self.old { desk = one_load self.old.desk } }
        ensures goes { Goes self.old.desk self.new.desk }
        ensures went { P.went self.old.pace self.old.desk.trail self.new.desk.trail self.new.pace }
    {
        match ArrayWord::unpack(self.word(Kind::ArrayOfMap, map)) {
            Some(array) => array,
            None => ArrayWord {
                owner: false,
                capacity: 0,
            },
        }
    }

    /// Writes the array of a map, which was handed out.
    pub fn set_array(&mut self, map: u32, array: ArrayWord)
        requires handed { map < self.old.view.used.maps }
        requires lawful { LawfulArray self.old.view.shape self.old.view.trail map array }
        requires there { IfSome (base_in self.old.view.trail map) (λ b. b + array.capacity ≤ self.old.view.used.entries) }
        ensures view { self.new.view ≡ with_write self.old.view (Array map array) }
        ensures heap { IsHeap self.new.view }
        ensures one { OneStore self.old.desk self.new.desk }
        ensures goes { Goes self.old.desk self.new.desk }
        ensures went { P.went self.old.pace self.old.desk.trail self.new.desk.trail self.new.pace }
    {
        self.put(Kind::ArrayOfMap, map, array.pack());
    }

    /// The link that a map put in last.
    pub fn head(&mut self, map: u32) -> Option<u32>
        ensures value { result ≡ head_in self.old.view.trail map }
        ensures new { self.new ≡ record self.old { desk = one_load self.old.desk } }
        ensures goes { Goes self.old.desk self.new.desk }
        ensures went { P.went self.old.pace self.old.desk.trail self.new.desk.trail self.new.pace }
    {
        match optional(self.word(Kind::HeadOfMap, map)) {
            Some(head) => head,
            None => None,
        }
    }

    /// Puts a whole link before the links of a map.
    pub fn set_head(&mut self, map: u32, head: Option<u32>)
        requires handed { map < self.old.view.used.maps }
        requires lawful { LawfulHead self.old.view.shape self.old.view.trail map head }
        ensures view { self.new.view ≡ with_write self.old.view (Head map head) }
        ensures heap { IsHeap self.new.view }
        ensures one { OneStore self.old.desk self.new.desk }
        ensures goes { Goes self.old.desk self.new.desk }
        ensures went { P.went self.old.pace self.old.desk.trail self.new.desk.trail self.new.pace }
    {
        self.put(Kind::HeadOfMap, map, optional_word(head));
    }
}
