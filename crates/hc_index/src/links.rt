//! The index of links, from a map and a key to the map's child.
ghost use Rattle.std.specs.Prelude.{◌≡◌, ◌+◌, ◌≤◌, ◌<◌, ℕ, None, Some, IfSome, IsTrue, OnOk, true};
ghost use Rattle.hc_value.specs.declared.key.Key.{Key as KeyOf};
ghost use Rattle.hc_index.specs.Links.{child_known, edge_of};

use bitflags::Flags;
use hc_value::{Key, Kind};
use indexmap::IndexMap;
use std::alloc::{AllocError, Global};
use std::marker::Model;

// A map, and what tells one of its links from the others.
#[derive(Clone, Copy, PartialEq, Eq, Hash)]
struct Edge {
    map: u32,
    name: u32,
    is_accessor: bool,
    attributes: u8,
}

/// The children that were told, each for a map and a key. While the index is whole it was told of each child.
#[derive(Drop)]
pub struct LinkIndex {
    children: IndexMap<Edge, u32>,
    whole: bool,
}

impl Model for LinkIndex {
    ghost use Rattle.std.specs.Prelude.{◌&&◌};
    ghost use Rattle.indexmap.specs.IndexMap.{spare};
    ghost use Rattle.hc_index.specs.Links.{LinksKnown};

    ghost Value = { LinksKnown };

    ghost view = { λ i. record { children = i.children.entries; room = spare i.children; whole = i.whole } };

    ghost invariant = { λ i. Unit {0} };
}

impl LinkIndex {
    /// Whole, and without a child. It takes no memory.
    pub fn new(alloc: Global) -> Self
        ensures none { (m : ℕ) (k : KeyOf) → child_known result m k ≡ None }
        ensures whole { result.whole ≡ true }
    {
        LinkIndex {
            children: IndexMap::new(alloc),
            whole: true,
        }
    }

    /// Takes room for so many more children.
    pub fn reserve(&mut self, children: usize) -> Result<(), AllocError>
        ensures room { OnOk result (children ≤ self.new.room) }
        ensures same { (m : ℕ) (k : KeyOf) → child_known self.new m k ≡ child_known self.old m k }
        ensures whole { self.new.whole ≡ self.old.whole }
        ensures kept { self.old.room ≤ self.new.room }
    {
        self.children.reserve(children)
    }

    /// Whether it was told of each child.
    pub fn is_whole(&self) -> bool
        ensures { result ≡ self.now.whole }
    {
        self.whole
    }

    /// The child that was told last for a map and a key.
    pub fn find(&self, map: u32, key: Key) -> Option<u32>
        ensures { result ≡ child_known self.now map key }
    {
        self.children.get(&told_by(map, key)).copied()
    }

    /// Tells of a new child for a map and a key. It takes no memory: where there is no room the index isn't whole from then on,
    /// and knows none for the key.
    pub fn tell(&mut self, map: u32, key: Key, child: u32)
        ensures told { 0 < self.old.room → child_known self.new map key ≡ Some child }
        ensures true_to_it { IfSome (child_known self.new map key) (λ c. c ≡ child) }
        ensures others { (m : ℕ) (k : KeyOf) → ((m ≡ map) × (k ≡ key) → ⊥) → child_known self.new m k ≡ child_known self.old m k }
        ensures whole { IsTrue self.new.whole → IsTrue self.old.whole × (child_known self.new map key ≡ Some child) }
        ensures still_whole { 0 < self.old.room → self.new.whole ≡ self.old.whole }
        ensures room { self.old.room ≤ self.new.room + 1 }
    {
        let edge = told_by(map, key);
        let has_room = self.children.len() < self.children.capacity();
        if !has_room && self.children.get(&edge).is_none() {
            self.whole = false;
            return;
        }
        if self.children.insert(edge, child).is_err() {
            self.whole = false;
        }
    }
}

// What a link of a map is told by.
fn told_by(map: u32, key: Key) -> Edge
    ensures { result ≡ edge_of map key }
{
    Edge {
        map,
        name: key.name,
        is_accessor: key.kind == Kind::AccessorProp,
        attributes: key.attrs.bits(),
    }
}
