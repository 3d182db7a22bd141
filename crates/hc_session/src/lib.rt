//! The session: commands performed one after another, and the replay of a script.
#![tactic(auto)]

mod answer;
mod asking;
mod begun;
mod exec;
mod jobs;
mod pace;
mod perform;
mod plans;
mod refusal;
mod render;
mod replaying;
mod serve;
mod session;
mod using;
mod write;

pub use begun::Begun;
pub use pace::Scripted;
pub use perform::perform_on_tables;
pub use replaying::replay;
pub use session::Session;
