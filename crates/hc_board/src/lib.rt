//! A board: a fixed number of words that one writer stores and any number of readers load, in any threads, and nobody waits.
//! The writer's stores make the trail. What a reader read is known to fit the trail once the writer has met it.
#![tactic(auto)]

mod laws;
mod looking;
mod making;
mod reading;
mod rule;
mod steps;
mod writing;

pub use laws::{
    earliest_serves, entry_fits_as_one, fits_go_onward, fits_meet, image_is_wide,
    longer_keeps_entries, longer_keeps_fits, longer_keeps_words, look_adds_reads, now_is_image,
    one_position, past_is_zero, renew_keeps_reads, store_sets_image, wider_keeps_fits,
};
pub use looking::Look;
pub use making::{Board, Memory};
pub use reading::Reader;
pub use writing::Writer;
