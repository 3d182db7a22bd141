//! Tests of the map updater: how many maps die and how many are made where a field of a branch of three is to admit more.
#![tactic(auto)]

#[cfg(test)]
mod branches;
