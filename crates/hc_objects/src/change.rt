//! The changes of one object, one by one.
ghost use Rattle.std.specs.Prelude.{◌≡◌};
ghost use Rattle.hc_objects.specs.Changes.{named_by};

use hc_value::{Held, Prop, Value};

/// A change of one object.
#[derive(Clone, Copy)]
pub(crate) enum Change {
    /// The object gets a new last property.
    Add(Prop),
    /// The object gets a new last property of a name and a value, by this child of its map.
    AddBy(u32, u32, Value),
    /// The property at a place holds something else.
    Write(u32, Held),
    /// Another property of the same name stands at a place.
    Put(u32, Prop),
    /// The property at a place is taken away.
    Remove(u32),
    /// The object gets another prototype.
    Link(Option<u32>),
    /// The object gets no further property.
    Lock,
    /// The object is sealed, or frozen.
    Restrict(bool),
}

/// What an object is made ready for.
#[derive(Clone, Copy)]
pub(crate) enum Ready {
    /// It is to be live.
    Live,
    /// The field of a place is to hold this.
    Fit(u32, Held),
    /// The field of a place is to hold what another property does.
    FitFor(u32, Prop),
}

impl Change {
    /// The object that it names as prototype.
    pub(crate) fn named(&self) -> Option<u32>
        ensures { result ≡ named_by self.now }
    {
        match self {
            Change::Link(proto) => *proto,
            _ => None,
        }
    }
}
