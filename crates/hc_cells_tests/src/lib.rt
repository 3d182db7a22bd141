//! Tests of validity cells: which are valid after a change of each object of a chain, and the end of their region.
#![tactic(auto)]

#[cfg(test)]
mod chains;
