//! The script: what each of its lines means where it stands, and the commands that it asks for, one after another.
#![tactic(auto)]

mod fault;
mod generator;
pub mod laws;
mod line;
mod reader;
mod script;

pub use fault::{ScriptFault, Status, What};
pub use generator::{GenRequest, Generator, gen_request};
pub use hc_commands::{Command, Op, Reads};
pub use hc_lines::{Bytes, Calls, Cuts, Failed, MemSink, MemSource, Sink, Source};
pub use reader::{Phase, ScriptReader};
pub use script::Script;
