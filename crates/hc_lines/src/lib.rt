//! The outside as bytes, and its lines: where bytes come from and where they go, and the lines of what is read.
#![tactic(auto)]

mod buffer;
mod bytes;
mod fetch;
mod limits;
mod memory;
mod outside;

pub use buffer::LineBuffer;
pub use bytes::{Bytes, Calls, Cuts};
pub use fetch::{Fetched, Lack, fetch_line};
pub use limits::{MAX_BYTES, MAX_LINE, PIECE};
pub use memory::{MemSink, MemSource};
pub use outside::{Failed, Sink, Source};
