//! Tests of property tables and of dictionaries by themselves. What the operations answer is shown by scripts.
#![tactic(auto)]

#[cfg(test)]
mod dictionaries;
#[cfg(test)]
mod indexes;
#[cfg(test)]
mod tables;
