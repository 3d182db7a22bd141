//! The search for the answer of one map.
use crate::at::At;
use hc_layout::GateWord;
use hc_plan::{Chain, Site};

/// What a search knows of its map so far.
#[derive(Drop)]
pub struct Search {
    pub what: Site,
    /// How many links a map has at most.
    pub most: u32,
    pub map: u32,
    /// The map's gate, once it was read.
    pub gate: GateWord,
    pub chain: Chain,
}

/// The search for the answer of one map of a site's feedback, and where it stands.
#[derive(Drop)]
pub struct Seeker {
    pub search: Search,
    pub at: At,
}
