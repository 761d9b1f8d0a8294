//! The one text of a statement.
ghost use Rattle.std.specs.Prelude.{◌≡◌, ◌++◌, IfOk, OnOk};
ghost use Rattle.iv_types.specs.Trees.{statement_tree};
ghost use Rattle.iv_types.specs.Printing.{statement_text as text_of};
ghost use Rattle.sql_print.specs.Texts.{gap_text};
ghost use Rattle.sql_print.specs.Law.{PrintedAgain};

use crate::bytes::{push_bytes, push_quoted, push_signed};
use iv_types::{Bytes, NoMemory, Statement, Terminal};
use sql_pieces::{PieceSink, leaves_tight, stands_close, write_statement};
use std::alloc::Global;

// A text that is being written.
#[derive(Drop)]
struct Text {
    bytes: Vec<u8>,
    // Whether what comes next stands without a space.
    tight: bool,
}

impl Text {
    // The space before a piece, where there is one.
    fn gap(&mut self, close: bool) -> Result<(), NoMemory>
        ensures bytes { OnOk result (self.new.bytes.items ≡ self.old.bytes.items ++ gap_text self.old.tight close) }
    {
        if !self.tight && !close {
            self.bytes.push(b' ')?;
        }
        Ok(())
    }
}

impl PieceSink for Text {
    ghost use Rattle.std.specs.Prelude.{true};
    ghost use Rattle.sql_print.specs.Texts.{Holds};

    ghost holds = { λ t w. Holds t.bytes.items t.tight w };

    ghost takes_memory = { true };

    fn fixed(&mut self, terminal: Terminal) -> Result<(), NoMemory> {
        self.gap(stands_close(terminal))?;
        push_bytes(&mut self.bytes, terminal.spelling().as_bytes())?;
        self.tight = leaves_tight(terminal);
        Ok(())
    }

    fn name(&mut self, name: &[u8]) -> Result<(), NoMemory> {
        self.gap(false)?;
        push_bytes(&mut self.bytes, name)?;
        self.tight = false;
        Ok(())
    }

    fn number(&mut self, number: i128) -> Result<(), NoMemory> {
        self.gap(false)?;
        push_signed(&mut self.bytes, number)?;
        self.tight = false;
        Ok(())
    }

    fn text(&mut self, content: &[u8]) -> Result<(), NoMemory> {
        self.gap(false)?;
        push_quoted(&mut self.bytes, content)?;
        self.tight = false;
        Ok(())
    }
}

/// The statement's text: keywords in capitals, names in lower case, one space between tokens except none after `(` and
/// before `)`, `,` and around `.`, and parentheses exactly where the grammar needs them.
pub fn statement_text(alloc: Global, statement: &Statement) -> Result<Bytes, NoMemory>
    ensures { IfOk result (λ bytes. bytes ≡ text_of (statement_tree statement.now)) }
{
    let mut text = Text {
        bytes: Vec::new(alloc),
        tight: true,
    };
    write_statement(&mut text, statement)?;
    Ok(Bytes::from_vec(text.bytes))
}

/// What is printed of a statement of a text is a text of that same statement. It does nothing; its contract is the law.
pub fn printed_law()
    ensures { PrintedAgain }
{}
