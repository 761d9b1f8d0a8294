//! Scripts as a person reads them.
//!
//! A line `> TEXT` is typed, with an LF behind it, and `>> TEXT` without one; any other line is printed. What is typed is
//! expanded, and its escapes stand for their bytes (`case_text`). In a table whose name begins with `each: ` the lines
//! before the first blank line begin every script, and each line that is typed behind it makes a script of its own with
//! them. A line with ` => ` is a row (`rows`).
use crate::rows;
use crate::running::{Ended, ROOM, run_script};
use case_text::{expanded, unescaped, write_escaped};
use std::alloc::Global;
use std::fmt::Write;
use std::str;
use view_server::Status;

/// What is typed, and what is to be printed of it.
#[derive(Drop)]
pub struct Script {
    typed: Vec<u8>,
    // How many lines were typed.
    lines: u32,
    printed: String,
    // Behind how many of them each line is printed.
    behind: Vec<u32>,
}

// Which line of a text is the first that is not that of another text, and how it reads there and here.
fn first_other<'a>(found: &'a str, wanted: &'a str) -> (usize, &'a str, &'a str) {
    let mut rest = wanted.lines();
    let mut place = 0usize;
    for line in found.lines() {
        match rest.next() {
            Some(other) if other == line => place = place.saturating_add(1),
            Some(other) => return (place, line, other),
            None => return (place, line, "nothing"),
        }
    }
    (place, "nothing", rest.next().unwrap_or("nothing"))
}

impl Script {
    pub fn new(alloc: Global) -> Script {
        Script {
            typed: Vec::new(alloc),
            lines: 0,
            printed: String::new(alloc),
            behind: Vec::new(alloc),
        }
    }

    // The same again.
    fn copied(&self, alloc: Global) -> anyhow::Result<Script> {
        Ok(Script {
            typed: self.typed.to_vec(alloc)?,
            lines: self.lines,
            printed: String::from_str(alloc, self.printed.as_str())?,
            behind: self.behind.to_vec(alloc)?,
        })
    }

    /// Types these bytes.
    ///
    /// # Errors
    ///
    /// Where memory is wanting.
    pub fn type_bytes(&mut self, bytes: &[u8]) -> anyhow::Result<()> {
        self.lines = self.lines.saturating_add(1);
        self.typed.extend_from_slice(bytes)?;
        Ok(())
    }

    fn type_line(&mut self, alloc: Global, text: &str, end: &[u8]) -> anyhow::Result<()> {
        let text = expanded(alloc, text)?;
        let bytes = unescaped(alloc, text.as_str())?;
        self.type_bytes(&bytes)?;
        self.typed.extend_from_slice(end)?;
        Ok(())
    }

    /// Is to print this line next.
    ///
    /// # Errors
    ///
    /// Where memory is wanting.
    pub fn print_line(&mut self, line: &str) -> anyhow::Result<()> {
        self.printed.push_str(line)?;
        self.printed.push('\n')?;
        self.behind.push(self.lines)?;
        Ok(())
    }

    // How the script ended, and the first line that it prints otherwise.
    fn otherwise(&self, alloc: Global, ended: &Ended) -> anyhow::Result<String> {
        let status = ended.status;
        let mut told = format!(in alloc; "NOT {status:?} ")?;
        match str::from_utf8(&ended.written) {
            Ok(found) => {
                let (place, found, wanted) = first_other(found, self.printed.as_str());
                let behind = self.behind.get(place).copied().unwrap_or(self.lines);
                write!(told, "behind line {behind}: {found}, and not {wanted}")?;
            }
            Err(_) => write_escaped(&mut told, &ended.written)?,
        }
        told.push('\n')?;
        Ok(told)
    }

    /// What is told of the script, of which so many bytes may come: nothing, where it prints what it is to print.
    ///
    /// # Errors
    ///
    /// Where memory is wanting.
    pub fn told(&self, alloc: Global, room: u64) -> anyhow::Result<String> {
        let ended = run_script(alloc, &self.typed, room)?;
        if ended.status == Status::Done && ended.written.as_slice() == self.printed.as_bytes() {
            return Ok(String::new(alloc));
        }
        self.otherwise(alloc, &ended)
    }
}

/// The table that is being read.
#[derive(Drop)]
pub struct Scripts {
    name: String,
    // How many lines were typed, or how many rows there were.
    lines: u32,
    // What begins each script of the table, once it is whole.
    before: Option<Script>,
    script: Script,
}

// What a line of a table is.
enum Kind<'a> {
    Name(&'a str),
    Typed(&'a str),
    TypedLast(&'a str),
    Row(&'a str, &'a str),
    Blank,
    Printed(&'a str),
}

fn behind_blank(text: &str) -> &str {
    match text.strip_prefix(' ') {
        Some(rest) => rest,
        None => text,
    }
}

fn kind_of(line: &str) -> Kind<'_> {
    if line.is_empty() {
        return Kind::Blank;
    }
    if let Some(name) = line.strip_prefix("== ") {
        return Kind::Name(name);
    }
    if let Some(text) = line.strip_prefix(">>") {
        return Kind::TypedLast(behind_blank(text));
    }
    if let Some(text) = line.strip_prefix('>') {
        return Kind::Typed(behind_blank(text));
    }
    match line.split_once(" => ") {
        Some((asked, wanted)) => Kind::Row(asked, wanted),
        None => Kind::Printed(line),
    }
}

impl Scripts {
    pub fn new(alloc: Global) -> Scripts {
        Scripts {
            name: String::new(alloc),
            lines: 0,
            before: None,
            script: Script::new(alloc),
        }
    }

    // Ends the script that was read, and begins the next one.
    fn end_script(&mut self, alloc: Global) -> anyhow::Result<String> {
        let told = self.script.told(alloc, ROOM)?;
        self.script = match &self.before {
            Some(before) => before.copied(alloc)?,
            None => Script::new(alloc),
        };
        Ok(told)
    }

    /// What is told at the end of a table, which is nothing before the first.
    ///
    /// # Errors
    ///
    /// Where memory is wanting.
    pub fn end(&mut self, alloc: Global) -> anyhow::Result<String> {
        self.end_table(alloc, "")
    }

    // What is told at the end of a table, and behind which the next one begins.
    fn end_table(&mut self, alloc: Global, next: &str) -> anyhow::Result<String> {
        let mut told = self.end_script(alloc)?;
        if !self.name.is_empty() {
            let name = self.name.as_str();
            let lines = self.lines;
            told = format!(in alloc; "{told}{name}: {lines}\n")?;
        }
        self.name = String::from_str(alloc, next)?;
        self.lines = 0;
        self.before = None;
        self.script = Script::new(alloc);
        Ok(told)
    }

    fn row(&mut self, alloc: Global, asked: &str, wanted: &str) -> anyhow::Result<String> {
        self.lines = self.lines.saturating_add(1);
        let found = rows::answer(alloc, self.name.as_str(), asked)?;
        if found.as_str() == wanted {
            return Ok(String::new(alloc));
        }
        Ok(format!(in alloc; "NOT {asked} => {found}\n")?)
    }

    fn typed(&mut self, alloc: Global, text: &str, end: &[u8]) -> anyhow::Result<String> {
        self.lines = self.lines.saturating_add(1);
        let told = match self.before.is_some() {
            true => self.end_script(alloc)?,
            false => String::new(alloc),
        };
        self.script.type_line(alloc, text, end)?;
        Ok(told)
    }

    // A blank line ends what begins each script of the table.
    fn blank(&mut self, alloc: Global) -> anyhow::Result<()> {
        if self.before.is_none() && self.name.as_str().starts_with("each: ") {
            self.before = Some(self.script.copied(alloc)?);
        }
        Ok(())
    }

    /// What is told of a line.
    ///
    /// # Errors
    ///
    /// Where it is no line of a table, or memory is wanting.
    pub fn take(&mut self, alloc: Global, line: &str) -> anyhow::Result<String> {
        match kind_of(line) {
            Kind::Name(name) => return self.end_table(alloc, name),
            Kind::Typed(text) => return self.typed(alloc, text, b"\n"),
            Kind::TypedLast(text) => return self.typed(alloc, text, b""),
            Kind::Row(asked, wanted) => return self.row(alloc, asked, wanted),
            Kind::Blank => self.blank(alloc)?,
            Kind::Printed(line) => self.script.print_line(line)?,
        }
        Ok(String::new(alloc))
    }

    /// What is told of the script of a file.
    ///
    /// # Errors
    ///
    /// Where it has a line that is no line of a table, or memory is wanting.
    pub fn take_file(&mut self, alloc: Global, name: &str, text: &str) -> anyhow::Result<String> {
        let before = self.end_script(alloc)?;
        for line in text.lines() {
            self.take(alloc, line)?;
        }
        let told = self.end_script(alloc)?;
        if told.is_empty() {
            return Ok(before);
        }
        Ok(format!(in alloc; "{before}{name}: {told}")?)
    }
}
