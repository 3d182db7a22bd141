//! What the details of fields say of the values of objects: the definitions, and what keeps them true.
#![tactic(auto)]

mod laws;
mod values;

pub use laws::{
    constants_after, constants_stay_on, honest_after, kept_is_carried, leaving_keeps_constants,
    moved_is_carried, stored_is_given, storing_keeps_constants,
};
pub use values::{class_of_object, detail_for};
