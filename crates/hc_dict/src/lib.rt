//! The table of a slow object: its properties in order, each found by its name.
#![tactic(auto)]

ghost use Rattle.std.specs.Prelude.{◌≡◌, ◌↔◌, ◌+◌, ◌<◌, ◌≤◌, None, Some, [], ◌∷◌, ◌++◌, length, slice_get, slice_set, IsTrue, IfSome, IfErr, OnOk, OnErr};
ghost use Rattle.indexmap.specs.IndexMap.{index_map_len, spare};
ghost use Rattle.hc_table.specs.Changes.{name_at, removed_at};
ghost use Rattle.hc_table.specs.Numbers.{IsNameNumber};
ghost use Rattle.hc_table.specs.World.{place_of, HaveDistinctNames};
ghost use Rattle.hc_dict.specs.Dict.{seated, LeadToSeats};

mod dictionary;
mod seats;

pub use dictionary::{Change, Dictionary};
use hc_value::Prop;
use indexmap::IndexMap;
use seats::Seats;
use std::alloc::Global;
use std::marker::Model;

/// The properties of an object in order. No two have one name.
///
/// A property that is taken away leaves a gap behind, so that the others need not move. Where there are more gaps than
/// properties, they are closed; `close` is for a walk over all places.
#[derive(Drop)]
pub struct Dict {
    seats: Seats,
    names: IndexMap<u32, usize>,
}

impl Model for Dict {
    ghost use Rattle.std.specs.Prelude.{List};
    ghost use Rattle.hc_value.specs.declared.prop.Prop.{Prop};
    ghost use Rattle.hc_dict.specs.Dict.{seated, AreFound};

    ghost Value = { List Prop };

    ghost view = { λ d. seated d.seats };

    ghost invariant = { λ d. AreFound d.seats d.names.entries };
}

impl Dict {
    /// No properties. It takes no memory before the first.
    pub fn new(alloc: Global) -> Self
        ensures { result ≡ [] }
    {
        Dict {
            seats: Seats::new(alloc),
            names: IndexMap::new(alloc),
        }
    }

    /// How many properties there are.
    pub fn len(&self) -> u32
        ensures len { result ≡ length self.now }
        ensures within { length self.now ≤ 1048576 }
        ensures distinct { HaveDistinctNames self.now }
    {
        self.seats.count() as u32
    }

    /// Whether there are no properties.
    pub fn is_empty(&self) -> bool
        ensures { IsTrue result ↔ (self.now ≡ []) }
    {
        self.seats.count() == 0
    }

    /// The place of the property of a name, by the index of names.
    pub fn find(&self, name: u32) -> Option<u32>
        ensures place { result ≡ place_of self.now name }
        ensures within { IfSome result (λ i. i < length self.now) }
        ensures named { IfSome result (λ i. name_at self.now i ≡ Some name) }
        ensures distinct { HaveDistinctNames self.now }
    {
        let seat = *self.names.get(&name)?;
        Some(self.seats.before(seat) as u32)
    }

    /// The property at a place.
    pub fn prop(&self, i: u32) -> Prop
        requires { i < length self.now }
        ensures prop { slice_get self.now i ≡ Some result }
        ensures number { IsNameNumber result.name }
        ensures distinct { HaveDistinctNames self.now }
    {
        let (_seat, prop) = self.seats.find(i as usize);
        prop
    }

    /// Puts a property of a new name last. For want of memory alone it hands the property back.
    pub fn insert(&mut self, p: Prop) -> Result<(), Prop>
        requires absent { place_of self.old p.name ≡ None }
        requires number { IsNameNumber p.name }
        ensures added { OnOk result (self.new ≡ self.old ++ p ∷ []) }
        ensures err { OnErr result (self.new ≡ self.old) }
        ensures handed_back { IfErr result (λ back. back ≡ p) }
        ensures distinct { HaveDistinctNames self.new }
    {
        let Ok(_replaced) = self.names.insert(p.name, self.seats.len()) else {
            return Err(p);
        };
        let Ok(()) = self.seats.push(p) else {
            let _seat = self.names.swap_remove(&p.name);
            return Err(p);
        };
        Ok(())
    }

    /// Puts another property of the same name at a place. It takes no memory.
    pub fn set(&mut self, i: u32, p: Prop)
        requires { name_at self.old i ≡ Some p.name }
        ensures put { self.new ≡ slice_set self.old i p }
        ensures distinct { HaveDistinctNames self.new }
    {
        let (seat, _old) = self.seats.find(i as usize);
        self.seats.set(seat, p);
    }

    /// Takes the property at a place away. The others keep their order. It takes no memory.
    pub fn remove(&mut self, i: u32)
        requires { i < length self.old }
        ensures removed { self.new ≡ removed_at self.old i }
        ensures distinct { HaveDistinctNames self.new }
    {
        let (seat, prop) = self.seats.find(i as usize);
        self.seats.clear(seat);
        let _seat = self.names.swap_remove(&prop.name);
        if self.seats.is_sparse() {
            self.close();
        }
    }

    /// Closes the gaps, so that each place is found at once. It takes no memory.
    pub fn close(&mut self)
        ensures { self.new ≡ self.old }
    {
        if self.seats.has_gaps() {
            self.seats.close();
            number(&mut self.names, &self.seats);
        }
    }
}

// Has each name lead to its seat, where no seat is empty. It takes no memory.
fn number(names: &mut IndexMap<u32, usize>, seats: &Seats)
    requires full { length (seated seats.now) ≡ length seats.now }
    requires distinct { HaveDistinctNames (seated seats.now) }
    requires room { length seats.now ≤ index_map_len names.old + spare names.old }
    ensures found { LeadToSeats names.new.entries seats.now }
    ensures as_many { index_map_len names.new ≡ length seats.now }
{
    names.clear();
    for seat in 0..seats.len() {
        let Some(prop) = seats.prop(seat) else {
            unreachable!();
        };
        let Ok(_replaced) = names.insert(prop.name, seat) else {
            unreachable!();
        };
    }
}
