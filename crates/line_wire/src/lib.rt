//! Where bytes come from and where they go: sources, sinks, and the lines of a source.
#![tactic(auto)]

mod line;
mod memory;
mod sink;
mod source;
mod standard;

pub use line::{LONGEST_LINE, Line, LineBuffer, LineFault, MOST_BYTES, read_line};
pub use memory::{ListSink, ListSource};
pub use sink::{Sink, WriteFault, write_all};
pub use source::Source;
pub use standard::{StdSink, StdSource};
