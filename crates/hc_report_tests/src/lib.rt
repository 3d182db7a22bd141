//! Tests of sites, of the texts of replies and log lines, and of the summary of a run.
#![tactic(auto)]

#[cfg(test)]
mod lines;
#[cfg(test)]
mod logs;
#[cfg(test)]
mod sites;
#[cfg(test)]
mod summary;
