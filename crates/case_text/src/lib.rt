//! What the case programs share: tables of cases as texts, short forms of long texts, and the texts of bytes, numbers,
//! values, rows and operators, and the words of calls.
#![tactic(auto)]

mod escapes;
mod expansion;
mod expressions;
mod hexadecimal;
mod intervals;
mod numbers;
mod operators;
mod tables;
mod values;
mod words;

pub use escapes::{unescaped, write_escaped};
pub use expansion::expanded;
pub use expressions::{read_column, read_expression};
pub use hexadecimal::{from_hexadecimal, write_hexadecimal};
pub use intervals::write_interval;
pub use numbers::{number_of, write_number, write_numbers};
pub use operators::{operator, sign};
pub use tables::{Cases, print_cases};
pub use values::{read_row, read_rows, read_value, write_row, write_value};
pub use words::{all_words, byte_at, first_word, number_at, short_number_at, word_at};
