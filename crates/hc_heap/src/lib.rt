//! The heap: the words of the board with their types, and a trail that is lawful at every moment.
#![tactic(auto)]

mod codes;
mod fields;
mod heap;
mod kind;
mod laws;
mod maps;
mod objects;
mod pace;
mod space;
mod words;

pub use codes::{key_of_word, number, optional, settled};
pub use heap::Heap;
pub use kind::Kind;
pub use laws::{
    deprecated_are_unstable, details_rise, entries_are_kept, forms_are_kept, gates_are_open,
    lawful_at_each, positions_are_stores, positions_go_on, set_is_kept, stable_is_kept,
    stores_are_writes, stores_grow, unused_says_nothing, words_say, writes_are_within,
    written_is_kept,
};
pub use pace::{Free, Pace};
pub use space::Space;
