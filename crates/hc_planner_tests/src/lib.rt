//! Tests of the planner over a board that is written by hand: every way, every skip, and words
//! that aren't of their form; and of the jobs of a table.
#![tactic(auto)]

#[cfg(test)]
mod board;
#[cfg(test)]
mod jobs;
#[cfg(test)]
mod opened;
