//! Tests of the session that no script reaches: small shapes, sources that are cut or fail, sinks that fail, drawn commands
//! on objects beside plain tables, the marks of commands, and how many jobs were started.
#![tactic(auto)]

#[cfg(test)]
mod beside;
#[cfg(test)]
mod jobs;
#[cfg(test)]
mod outside;
#[cfg(test)]
mod sites;
