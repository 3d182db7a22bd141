//! The map updater: maps in place of others that a field has outgrown.
#![tactic(auto)]

mod cutting;
mod outgrown;
mod update;

pub use outgrown::generalise;
pub use update::{map_for, updated};
