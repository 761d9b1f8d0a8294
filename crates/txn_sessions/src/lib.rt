//! Sessions: each says which steps its statements ask for, whoever does them, and goes on by what they are answered.
#![tactic(auto)]

mod answers;
mod asked;
mod calls;
mod ending;
mod line;
mod moves;
mod opening;
mod progress;
mod session;
mod standing;
mod starting;
mod working;

pub use line::Replies;
pub use session::Session;
