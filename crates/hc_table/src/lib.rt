//! Property tables with prototype links, as ECMA-262 has them in 10.1: what an object store keeps, however it
//! keeps it, and the plain implementation by lists.
#![tactic(auto)]

mod attribute;
mod fault;
mod laws;
mod plain;
mod tables;

pub use attribute::{attributes, dont_delete, dont_enum, read_only, restrict};
pub use fault::TableFault;
pub use laws::changes_keep;
pub use plain::Plain;
pub use tables::Tables;
