//! Tests of names and of the script: sources that are cut or fail, sinks that fail, and scripts that are made from a number.
#![tactic(auto)]

#[cfg(test)]
mod generated;
#[cfg(test)]
mod names;
#[cfg(test)]
mod outside;
