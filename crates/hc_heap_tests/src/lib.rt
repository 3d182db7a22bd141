//! Tests of the board, its words, values and the heap: numbers as they stand on the board, and what allocates.
#![tactic(auto)]

#[cfg(test)]
mod items;
#[cfg(test)]
mod readers;
#[cfg(test)]
mod words;
