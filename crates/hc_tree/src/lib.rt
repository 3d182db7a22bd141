//! The tree of maps: a root for each prototype, a child for each key, and private copies for prototypes.
#![tactic(auto)]

mod children;
mod copies;
mod dying;
mod exchange;
mod fields;
mod laws;
mod mark;
mod need;
mod retarget;
mod roots;

pub use children::child_or_make;
pub use copies::private_copy;
pub use dying::deprecate;
pub use exchange::exchange_field;
pub use fields::{admit, detail_at};
pub use laws::{
    live_is_child, live_stand_high, maps_are_kept, one_is_live, owner_is_freed, owners_stand,
    parent_is_spared, roots_stand, trees_stay,
};
pub use mark::mark_unstable;
pub use need::{
    NONE, Need, array_size, has_space, of_build, of_child, of_copy, of_longer_copy, of_own,
    of_retarget, of_root, of_walk, plus, with_slots,
};
pub use retarget::{Wanted, admit_all, build, live_end};
pub use roots::{known_root, root};
