//! The broker: a word of the board by one look, with what it says.
//!
//! A job may run while the board's words change, so it trusts no word: what isn't of its form is none.
#![tactic(auto)]

mod peek;

pub use peek::Peek;
