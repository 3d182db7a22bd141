//! Fast and slow objects over the tree of maps.
#![tactic(auto)]

mod admitting;
mod becoming;
mod cells;
mod changing;
mod coming;
mod creates;
mod fits;
mod growing;
mod inheriting;
mod laws;
mod leaving;
mod looks;
mod migrating;
mod moving;
mod objects;
mod planned;
mod privates;
mod properties;
mod readers;
mod reads;
mod relinks;
mod removing;
mod shapes;
mod slow;
mod writes;

pub use laws::{
    alike_objects_stay_live, chains_are_told, comers_may_get, fields_stay_honest,
    operations_leave_cells, operations_spend_little, prototypes_stay_calm, writes_go_on,
};
pub use objects::Objects;
