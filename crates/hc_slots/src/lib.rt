//! The slots of objects, and reads of objects that have a map: what works on the heap alone, beside the tree of maps.
#![tactic(auto)]

mod anew;
mod dictionary;
mod entries;
pub mod fast;
mod held;
mod slots;
mod stores;

pub use anew::move_slots;
pub use dictionary::dictionary_of;
pub use entries::constness_for;
pub use held::held_word;
pub use slots::put_slot;
pub use stores::{fill_next, slots_needed};
