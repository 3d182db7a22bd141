//! Tests of the tree of maps: chains of children to the end of each region, private copies, and looks along links.
#![tactic(auto)]

#[cfg(test)]
mod trees;
