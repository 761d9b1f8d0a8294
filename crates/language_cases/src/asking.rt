//! What the tables ask, by the word before the colon of their names.
//!
//! - `tokens`, `keywords`, `piece`: see `tokens`
//! - `parse`, `cuts`: see `parsing`
//! - `parts`: see `parts`
//! - `print`, `statement`: see `printing`
//! - `reply`: see `replies`
//! - `key`, `row` (the bytes of values), `key of`, `row of` (the values of bytes): see `codec`
//! - `point`, `prefix`, `common`: see `intervals`
//!
//! In the tables of tokens and statements a row's text stands behind the text that its table is given, and has escapes.
use crate::codec::{key_of_bytes, key_of_values, row_of_bytes, row_of_values};
use crate::intervals::{meeting, point_of, prefix_of};
use crate::parsing::{cuts, judged};
use crate::parts::parts_of;
use crate::printing::{one_text, stated};
use crate::replies::reply;
use crate::tokens::{keywords, part_of_quoted, tokens};
use anyhow::bail;
use case_text::{Cases, unescaped};
use std::alloc::Global;

/// What the rows of a table ask of a text.
#[derive(Clone, Copy)]
enum OfText {
    Tokens,
    Keywords,
    Outcome,
    Cuts,
    Parts,
    OneText,
    Stated,
}

/// What the rows of a table ask of values, bytes or places.
#[derive(Clone, Copy)]
enum OfValues {
    Piece,
    Reply,
    KeyOfValues,
    KeyOfBytes,
    RowOfValues,
    RowOfBytes,
    Point,
    Prefix,
    Common,
}

/// What the rows of a table ask.
#[derive(Clone, Copy)]
enum Question {
    Nothing,
    Text(OfText),
    Values(OfValues),
}

fn of_text(word: &str) -> Option<OfText> {
    match word {
        "tokens" => Some(OfText::Tokens),
        "keywords" => Some(OfText::Keywords),
        "parse" => Some(OfText::Outcome),
        "cuts" => Some(OfText::Cuts),
        "parts" => Some(OfText::Parts),
        "print" => Some(OfText::OneText),
        "statement" => Some(OfText::Stated),
        _ => None,
    }
}

fn of_values(word: &str) -> Option<OfValues> {
    match word {
        "piece" => Some(OfValues::Piece),
        "reply" => Some(OfValues::Reply),
        "key" => Some(OfValues::KeyOfValues),
        "key of" => Some(OfValues::KeyOfBytes),
        "row" => Some(OfValues::RowOfValues),
        "row of" => Some(OfValues::RowOfBytes),
        "point" => Some(OfValues::Point),
        "prefix" => Some(OfValues::Prefix),
        "common" => Some(OfValues::Common),
        _ => None,
    }
}

fn question_of(word: &str) -> Question {
    if let Some(question) = of_text(word) {
        return Question::Text(question);
    }
    if let Some(question) = of_values(word) {
        return Question::Values(question);
    }
    Question::Nothing
}

fn without_escapes(alloc: Global, text: &str) -> anyhow::Result<String> {
    match String::from_utf8(unescaped(alloc, text)?) {
        Ok(text) => Ok(text),
        Err(_) => bail!("no text"),
    }
}

fn answer_of_text(alloc: Global, question: OfText, text: &str) -> anyhow::Result<String> {
    match question {
        OfText::Tokens => tokens(alloc, text),
        OfText::Keywords => keywords(alloc, text),
        OfText::Outcome => judged(alloc, text),
        OfText::Cuts => cuts(alloc, text),
        OfText::Parts => parts_of(alloc, text),
        OfText::OneText => one_text(alloc, text),
        OfText::Stated => stated(alloc, text),
    }
}

fn answer_of_values(alloc: Global, question: OfValues, asked: &str) -> anyhow::Result<String> {
    match question {
        OfValues::Piece => part_of_quoted(alloc, asked),
        OfValues::Reply => reply(alloc, asked),
        OfValues::KeyOfValues => key_of_values(alloc, asked),
        OfValues::KeyOfBytes => key_of_bytes(alloc, asked),
        OfValues::RowOfValues => row_of_values(alloc, asked),
        OfValues::RowOfBytes => row_of_bytes(alloc, asked),
        OfValues::Point => point_of(alloc, asked),
        OfValues::Prefix => prefix_of(alloc, asked),
        OfValues::Common => meeting(alloc, asked),
    }
}

/// What a table asks, and the text that it is given.
#[derive(Drop)]
pub struct Questions {
    question: Question,
    given: String,
}

impl Questions {
    pub fn new(alloc: Global) -> Questions {
        Questions {
            question: Question::Nothing,
            given: String::new(alloc),
        }
    }
}

impl Cases for Questions {
    fn begin(&mut self, alloc: Global, name: &str) -> anyhow::Result<()> {
        let Some((word, _)) = name.split_once(':') else {
            bail!("a table of no kind")
        };
        self.question = question_of(word);
        self.given = String::new(alloc);
        Ok(())
    }

    fn give(&mut self, alloc: Global, text: &str) -> anyhow::Result<()> {
        self.given = without_escapes(alloc, text)?;
        Ok(())
    }

    fn answer(&mut self, alloc: Global, asked: &str) -> anyhow::Result<String> {
        match self.question {
            Question::Nothing => bail!("a table of no kind"),
            Question::Text(question) => {
                let asked = without_escapes(alloc, asked)?;
                let given = self.given.as_str();
                let text = format!(in alloc; "{given}{asked}")?;
                answer_of_text(alloc, question, text.as_str())
            }
            Question::Values(question) => answer_of_values(alloc, question, asked),
        }
    }
}
