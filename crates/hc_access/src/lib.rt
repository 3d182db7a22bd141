//! One access of a site: by its inline cache, or by full lookup, which fills the inline cache.
#![tactic(auto)]

mod caches;
mod fills;
mod laws;
mod loads;
mod notes;
mod stores;

use hc_value::Reply;
pub use laws::{asking_is_little, entries_stay_good};
pub use loads::load;
pub use stores::store;

/// The answer of an access, and whether the inline cache gave it.
#[derive(Debug, Drop)]
pub struct Accessed {
    pub by_cache: bool,
    pub reply: Reply,
}
