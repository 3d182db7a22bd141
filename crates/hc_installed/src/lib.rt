//! The plans of sites over the objects: an outcome is settled, broken plans are discarded, and a site's plan answers.
//!
//! Between two commands each site's plan is borne by the words of the board, and so answers as full lookup. What is stored may break
//! plans; these are discarded before the next is used. The laws say what stays true meanwhile.
#![tactic(auto)]

mod answers;
mod discards;
mod laws;
mod settles;

pub use answers::answer;
pub use discards::discard_broken;
pub use hc_deps::Verdict;
pub use laws::{
    breaks_are_first, hits_are_live, installed_are_right, loads_keep_answers,
    new_sites_have_no_plan, other_events_add_no_plan, other_events_keep_plans,
    outcomes_stay_installed, plans_are_few, plans_stay_installed, prompt_outcomes_are_not_refused,
    quiet_breaks_no_plan, refused_had_held, rest_is_now, resting_stays, tests_are_meant,
    unbroken_are_left,
};
pub use settles::settle;
