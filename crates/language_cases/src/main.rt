//! Asks for the tokens, the statements and the texts of a language and for the bytes of rows and keys, and prints how many
//! rows each table has and of which of them something else comes.
//!
//! The word before the colon of a table's name says what its rows ask; `asking` lists these words, and the files named
//! there say how rows are written.
#![tactic(auto)]

mod asking;
mod codec;
mod intervals;
mod parsing;
mod parts;
mod printing;
mod replies;
mod tokens;

use asking::Questions;
use case_text::print_cases;

fn main(rt: HostRuntime) -> anyhow::Result<()> {
    let mut questions = Questions::new(rt.alloc());
    print_cases(&rt, &mut questions)
}
