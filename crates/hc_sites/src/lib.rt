//! Sites: what each has seen of maps, its inline cache and its plan.
//!
//! Contracts see the sites as the list of their states. Each call that changes a site is one event at it, and the
//! state of a site is the fold of its own events.
#![tactic(auto)]

mod cached;
mod feedback;
mod laws;
mod sites;
mod state;

pub use cached::{CacheWay, Cached};
pub use feedback::{Feedback, MAX_MAPS, Maps};
pub use laws::{a_site_is_the_fold_of_its_events, megamorphic_for_good};
pub use sites::Sites;
pub use state::SiteState;
