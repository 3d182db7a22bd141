//! Objects as property tables, fast and slow, with validity cells: a prototype's cell is valid as long as nothing changes on its
//! chain.
#![tactic(auto)]

mod altering;
mod applying;
mod cells;
mod change;
mod creating;
mod following;
mod laws;
mod looks;
mod objects;
mod performing;
mod planned;
mod readers;
mod reads;
mod readying;
mod tables;

pub use laws::{
    cells_stand_alone, fields_stay_honest, loads_come_first, operations_go_on,
    operations_hand_out_no_cell, operations_spend_little, operations_stand, prototypes_stay_calm,
    valid_cells_say,
};
pub use objects::Objects;
