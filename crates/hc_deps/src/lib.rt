//! Dependencies of plans: whether each holds on the words of the board, which plans are installed, and which are broken.
#![tactic(auto)]

mod broken;
mod held;
mod laws;
mod verdict;
mod words;

pub use broken::next_broken;
pub use held::holds;
pub use laws::holds_as_the_trail_says;
pub use verdict::{Verdict, commit};
pub use words::{map_of, slot_word};
