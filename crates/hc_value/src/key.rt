use crate::{Attrs, Kind};

/// What tells one property from another in the shape of an object: its name, its kind and its attributes.
#[derive(Clone, Copy, PartialEq, Eq)]
pub struct Key {
    pub name: u32,
    pub kind: Kind,
    pub attrs: Attrs,
}
