//! The ordinary operations of ECMA-262, 10.1, with the object itself as the receiver, over any property tables.
#![tactic(auto)]

mod change;
mod descriptor;
mod read;
mod walk;
mod write;

pub use change::{delete, freeze, lock, seal, set_proto};
pub use descriptor::define;
pub use read::{get, has, keys, own, read_held};
pub use walk::{Found, Spot, comes_to, nearest, own_property};
pub use write::set;
