//! Indexes beside the words: of the children of maps by their keys, and of the places of names among the entries of maps. Each
//! answers what it was told, and knows nothing of the words.
#![tactic(auto)]

mod entries;
mod links;

pub use entries::EntryIndex;
pub use links::LinkIndex;
