//! The board's places, and the form of each word that it holds.
//!
//! The numbers of regions, fields of words and capacities stand here alone.
#![tactic(auto)]

mod bits;
mod capacity;
mod laws;
mod layout;
mod place;
mod shape;
mod words;

pub use bits::Bits;
pub use capacity::{CAPACITIES, MAX_FAST, cap};
pub use laws::{places_are_found, places_lie};
pub use layout::Layout;
pub use place::Place;
pub use shape::{Region, SMALL, Shape, USUAL};
pub use words::{
    ATTRIBUTE_BITS, ArrayWord, COUNT_BITS, CellWord, GateWord, KeyWord, MapBits, NAME_BITS,
    NUMBER_BITS, NumberWord, RootWord, SLOT_BITS, SettledWord, StoreWord,
};
