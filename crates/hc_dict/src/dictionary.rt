//! What is kept of slow objects, and its changes, one by one.
ghost use Rattle.std.specs.Prelude.{◌≡◌, ◌<◌, false, None, Some, [], ◌∷◌, ◌++◌, length, map, OnOk, OnErr, slice_set};
ghost use Rattle.hc_dict.specs.Changes.{MayChange, changed};
ghost use Rattle.hc_table.specs.Attributes.{restricted};
ghost use Rattle.hc_table.specs.Changes.{name_at, removed_at};
ghost use Rattle.hc_table.specs.Numbers.{IsNameNumber};
ghost use Rattle.hc_table.specs.World.{place_of, held_at};

use crate::Dict;
use hc_table::restrict;
use hc_value::{Cause, Held, Memory, Prop};

/// What is kept of a slow object, beside the words: why it is slow, and the object itself.
#[derive(Drop)]
pub struct Dictionary {
    pub cause: Cause,
    pub proto: Option<u32>,
    pub extensible: bool,
    pub props: Dict,
}

/// A change of a slow object that takes no memory.
#[derive(Clone, Copy)]
pub enum Change {
    /// The property at a place holds something else.
    Write(u32, Held),
    /// Another property of the same name stands at a place.
    Put(u32, Prop),
    /// The property at a place is taken away.
    Remove(u32),
    /// The object has another prototype.
    Link(Option<u32>),
    /// The object gets no further property.
    Lock,
    /// The object is sealed, or frozen.
    Restrict(bool),
}

impl Dictionary {
    /// Changes the object.
    pub fn change(&mut self, change: Change)
        requires may { MayChange self.old.props change }
        ensures changed { self.new ≡ changed self.old change }
    {
        match change {
            Change::Write(i, held) => self.write(i, held),
            Change::Put(i, prop) => self.put(i, prop),
            Change::Remove(i) => self.remove(i),
            Change::Link(proto) => self.link(proto),
            Change::Lock => self.lock(),
            Change::Restrict(frozen) => self.restrict(frozen),
        }
    }

    // Has the property at a place hold something else.
    fn write(&mut self, i: u32, held: Held)
        requires place { i < length self.old.props }
        ensures written { self.new ≡ record self.old { props = held_at self.old.props i held } }
    {
        let prop = self.props.prop(i);
        self.props.set(
            i,
            Prop {
                name: prop.name,
                attrs: prop.attrs,
                held,
            },
        );
    }

    /// Puts a property of a new name last.
    pub fn add(&mut self, p: Prop) -> Result<(), Memory>
        requires absent { place_of self.old.props p.name ≡ None }
        requires number { IsNameNumber p.name }
        ensures added { OnOk result (self.new ≡ record self.old { props = self.old.props ++ p ∷ [] }) }
        ensures err { OnErr result (self.new ≡ self.old) }
    {
        let Ok(()) = self.props.insert(p) else {
            return Err(Memory);
        };
        Ok(())
    }

    // Puts another property of the same name at a place.
    fn put(&mut self, i: u32, p: Prop)
        requires name { name_at self.old.props i ≡ Some p.name }
        ensures put { self.new ≡ record self.old { props = slice_set self.old.props i p } }
    {
        self.props.set(i, p);
    }

    // Takes the property at a place away.
    fn remove(&mut self, i: u32)
        requires place { i < length self.old.props }
        ensures removed { self.new ≡ record self.old { props = removed_at self.old.props i } }
    {
        self.props.remove(i);
    }

    // Gives another prototype.
    fn link(&mut self, proto: Option<u32>)
        ensures linked { self.new ≡ record self.old { proto = proto } }
    {
        self.proto = proto;
    }

    // Has the object get no further property.
    fn lock(&mut self)
        ensures locked { self.new ≡ record self.old { extensible = false } }
    {
        self.extensible = false;
    }

    // Seals the object, or freezes it.
    fn restrict(&mut self, frozen: bool)
        ensures restricted { self.new ≡ record self.old { extensible = false; props = map (restricted frozen) self.old.props } }
    {
        self.lock();
        restrict_all(&mut self.props, frozen);
    }
}

// Makes each property not configurable, and where it is frozen and holds a value, not writable either.
fn restrict_all(props: &mut Dict, frozen: bool)
    ensures restricted { props.new ≡ map (restricted frozen) props.old }
{
    props.close();
    for i in 0..props.len() {
        let prop = props.prop(i);
        props.set(i, restrict(prop, frozen));
    }
}
