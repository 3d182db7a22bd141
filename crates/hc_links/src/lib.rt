//! Transitions: the links of a map, each to the child of a key.
#![tactic(auto)]

mod chain;
mod laws;

pub use chain::{child, link};
pub use laws::{
    children_are_open, heads_are_there, linked_are_unstable, linked_is_newest, links_are_chained,
    links_are_kept, links_lead, same_keys_are_equal,
};
