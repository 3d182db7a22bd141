//! Why an installed plan is right.
//!
//! A case of a plan is *told* by the words of one moment, or *seen* by words of several moments up to now; a plan is *borne* where
//! each of its cases is told by the words of one moment, and each of its dependencies holds. These laws say that a borne plan is
//! right, that is answers as full lookup, and that it stays borne for as long as its dependencies hold.
#![tactic(auto)]

mod laws;

pub use laws::{
    applied_is_right, borne_can_apply, borne_is_kept, borne_is_right, borne_names_live,
    installed_is_borne, objects_rest, others_are_unbroken, own_is_borne, quiet_breaks_none,
    reads_are_seen, reads_are_told, same_subjects_hold, seen_is_borne, seen_is_kept,
    told_at_once_holds, told_is_borne, told_is_of_site, told_is_readable, told_is_seen,
    unbroken_is_borne,
};
