//! Scripts: the lines of a source are run by many sessions, and their replies go to a sink.
#![tactic(auto)]

mod line;
mod lines;
mod made;
mod status;
mod told;

pub use line::one_line;
pub use lines::run_lines;
pub use made::run_made;
pub use status::Status;
