//! Field cells: for each field the map that it was made for, and what its values are, which only rises.
#![tactic(auto)]

mod cells;

pub use cells::{new_field, owner, raise};
