//! Compile jobs that are open, each with a reader of its own, and their reads.
//!
//! A batch of reads lies between two renewals of the reader at one position: it is a part of the reader's reads that
//! begins and ends there.
#![tactic(auto)]

mod gate;
mod laws;
mod reads;
mod table;

pub use gate::{Gate, NoGate};
pub use laws::{a_batch_is_a_part, others_stay_open};
pub use reads::{Reads, make_reads, work};
pub use table::{JobTable, MOST_JOBS, OpenJob};
