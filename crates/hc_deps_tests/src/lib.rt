//! Tests of dependencies and of the use of plans, over a board that is written by hand, and of what becomes of outcomes and plans.
#![tactic(auto)]

#[cfg(test)]
mod answers;
#[cfg(test)]
mod board;
#[cfg(test)]
mod deps;
#[cfg(test)]
mod installed;
#[cfg(test)]
mod verdicts;
