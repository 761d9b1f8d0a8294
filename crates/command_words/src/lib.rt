//! The words of the command line: which lists of words are commands, and what they ask for.
#![tactic(auto)]

mod asked;
mod file;
mod forms;
mod init;
mod limits;
mod numbers;
mod parts;
mod reading;

pub use asked::{Asked, NewDatabase};
pub use forms::is_command;
pub use limits::{
    DEFAULT_LOG_KIB, DEFAULT_PAGES, LEAST_LOG_KIB, LEAST_PAGES, MOST_LOG_KIB, MOST_PAGES,
};
pub use reading::read_words;
