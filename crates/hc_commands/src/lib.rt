//! The commands of the script: the words of a line, the forms that they may have, and the command of each form.
#![tactic(auto)]

mod command;
mod definition;
mod grammar;
pub mod laws;
mod limits;
mod name;
mod numbering;
mod numeral;
mod parts;
mod token;
mod verb;
mod words;
mod written;

pub use command::{Command, Reads};
pub use grammar::{Request, request_of};
pub use hc_plan::Op;
pub use numbering::command_for;
pub use verb::{ObjectVerb, PropertyVerb, Verb};
pub use words::is_passed_over;
