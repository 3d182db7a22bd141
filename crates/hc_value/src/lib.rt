//! The values of the language, properties and their attributes, and the replies to commands.
#![tactic(auto)]

mod attrs;
mod field;
mod key;
mod memory;
mod names32;
mod num;
mod prop;
mod reply;
mod value;
mod word;

pub use attrs::Attrs;
pub use field::{Class, Constness, Detail, Rep, in_place, join, rep_of};
pub use key::Key;
pub use memory::Memory;
pub use names32::Names32;
pub use num::Num;
pub use prop::{Held, Kind, Prop, PropDesc};
pub use reply::{Cause, Mode, Reply};
pub use value::Value;
pub use word::{NUMBER_LIMIT, TEXT_LIMIT, pair, tagged, unpair, untagged, unwide, wide};
