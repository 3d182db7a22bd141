//! The texts of replies and of log lines, as a script's user reads them; the log of a session and its marks.
#![tactic(auto)]

mod line;
mod log;
mod marks;
mod reply;
mod summary;
mod text;

pub use line::{Line, render_log};
pub use log::Log;
pub use marks::{Mark, Marks};
pub use reply::render_reply;
pub use summary::{is_true, render_summary};
