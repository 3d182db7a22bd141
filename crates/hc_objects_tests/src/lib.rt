//! Tests of objects where no script reaches: boards of few items, what was handed out, what fields say, and which
//! cells are valid.
#![tactic(auto)]

#[cfg(test)]
mod details;
#[cfg(test)]
mod growth;
#[cfg(test)]
mod small;
#[cfg(test)]
mod steps;
#[cfg(test)]
mod validity;
