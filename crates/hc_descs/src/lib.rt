//! Descriptor arrays: the entries of maps, read, found by name, and copied into arrays of new maps.
#![tactic(auto)]

mod copies;
mod entry;
mod lookup;
mod reading;

pub use copies::{copy, copy_all, copy_but, copy_keys};
pub use lookup::find;
pub use reading::{field_at, key_at};
