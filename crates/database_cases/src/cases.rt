//! Tables as they are read, line by line.
use crate::crashes;
use crate::outcomes::Outcomes;
use crate::parts::Parts;
use crate::running::new_outside;
use anyhow::bail;
use outside::ListOutside;
use std::alloc::Global;

// What a table is.
#[derive(Clone, Copy, PartialEq, Eq)]
enum Sort {
    // Its parts are run once.
    Once,
    // They are run for each row.
    Each,
    // They are run for each call of a disk.
    Calls,
    // They are run for each call of a disk, at which a crash comes.
    Crashes,
    // The same, and the last part is run for each call of its own, at which a second crash comes.
    CrashesTwice,
}

fn sort_of(name: &str) -> Sort {
    if name.starts_with("each: ") {
        return Sort::Each;
    }
    if name.starts_with("disk calls: ") {
        return Sort::Calls;
    }
    if name.starts_with("crashes: ") {
        return Sort::Crashes;
    }
    if name.starts_with("crashes twice: ") {
        return Sort::CrashesTwice;
    }
    Sort::Once
}

// The number behind a word that stands in a table's name; 0 where it does not.
fn number_in(name: &str, word: &str) -> anyhow::Result<u64> {
    match name.split_once(word) {
        Some((_, number)) => Ok(number.parse::<u64>()?),
        None => Ok(0),
    }
}

// What a line is.
enum Kind<'a> {
    Name(&'a str),
    Run(&'a str),
    Typed(&'a str),
    Outcome,
    Change(&'a str),
    Row(&'a str, &'a str),
    Remark,
    Told(&'a str),
}

fn kind_of(line: &str) -> Kind<'_> {
    if line.is_empty() || line.starts_with('#') {
        return Kind::Remark;
    }
    if let Some(name) = line.strip_prefix("== ") {
        return Kind::Name(name);
    }
    if let Some(words) = line.strip_prefix("$ ") {
        return Kind::Run(words);
    }
    if let Some(text) = line.strip_prefix("> ") {
        return Kind::Typed(text);
    }
    if line.starts_with("% outcome") {
        return Kind::Outcome;
    }
    if let Some(text) = line.strip_prefix("% ") {
        return Kind::Change(text);
    }
    match line.split_once(" => ") {
        Some((asked, wanted)) => Kind::Row(asked, wanted),
        None => Kind::Told(line),
    }
}

/// The table that is being read.
#[derive(Drop)]
pub struct Cases {
    name: String,
    rows: u32,
    parts: Parts,
    outcomes: Outcomes,
    // The outside of the next row, where it stands as before the last one.
    outside: Option<ListOutside>,
}

// Lines with `; ` between them, or `nothing`.
fn joined(alloc: Global, lines: &str) -> anyhow::Result<String> {
    let mut told = String::new(alloc);
    for line in lines.lines() {
        if !told.is_empty() {
            told.push_str("; ")?;
        }
        told.push_str(line)?;
    }
    if told.is_empty() {
        told.push_str("nothing")?;
    }
    Ok(told)
}

impl Cases {
    pub fn new(alloc: Global) -> Cases {
        Cases {
            name: String::new(alloc),
            rows: 0,
            parts: Parts::new(alloc),
            outcomes: Outcomes::new(alloc),
            outside: None,
        }
    }

    // What comes otherwise of a table of parts.
    fn otherwise(&self, alloc: Global) -> anyhow::Result<String> {
        let name = self.name.as_str();
        match sort_of(name) {
            Sort::Each => Ok(String::new(alloc)),
            Sort::Calls => self.outcomes.otherwise(alloc, &self.parts),
            Sort::Crashes => crashes::otherwise(alloc, &self.outcomes, &self.parts, false),
            Sort::CrashesTwice => crashes::otherwise(alloc, &self.outcomes, &self.parts, true),
            Sort::Once => {
                let disk = number_in(name, ", disk ")?;
                let mut outside = new_outside(alloc, disk, number_in(name, ", outside ")?)?;
                self.parts.otherwise(alloc, &mut outside)
            }
        }
    }

    // What is told of the table at its end.
    fn told(&self, alloc: Global) -> anyhow::Result<String> {
        let name = self.name.as_str();
        if name.is_empty() {
            return Ok(String::new(alloc));
        }
        let otherwise = self.otherwise(alloc)?;
        let rows = self.rows;
        Ok(format!(in alloc; "{otherwise}{name}: {rows}\n")?)
    }

    // Begins a table, and tells what the one before it gives.
    fn begin(&mut self, alloc: Global, name: &str) -> anyhow::Result<String> {
        let told = self.told(alloc)?;
        self.name = String::from_str(alloc, name)?;
        self.rows = 0;
        self.parts = Parts::new(alloc);
        self.outcomes = Outcomes::new(alloc);
        self.outside = None;
        Ok(told)
    }

    /// What is told at the end of all tables.
    ///
    /// # Errors
    ///
    /// Where a change can't be made, or memory is wanting.
    pub fn end(&mut self, alloc: Global) -> anyhow::Result<String> {
        self.begin(alloc, "")
    }

    fn count(&mut self) {
        self.rows = self.rows.saturating_add(1);
    }

    // An outside as it stands before each row, and what is told of what begins them.
    fn prepared(&mut self, alloc: Global) -> anyhow::Result<(ListOutside, String)> {
        if let Some(outside) = self.outside.take() {
            return Ok((outside, String::new(alloc)));
        }
        let mut outside = new_outside(alloc, 0, 0)?;
        let told = self.parts.prepare(alloc, &mut outside)?;
        Ok((outside, told))
    }

    // What comes of a row.
    fn found(&mut self, alloc: Global, changes: &str) -> anyhow::Result<String> {
        let (mut outside, mut found) = self.prepared(alloc)?;
        let (told, stands) = self.parts.told_behind(alloc, &mut outside, changes)?;
        found.push_str(told.as_str())?;
        if stands {
            self.outside = Some(outside);
        }
        joined(alloc, found.as_str())
    }

    fn row(&mut self, alloc: Global, changes: &str, wanted: &str) -> anyhow::Result<String> {
        self.count();
        let found = self.found(alloc, changes)?;
        if found.as_str() == wanted {
            return Ok(String::new(alloc));
        }
        Ok(format!(in alloc; "NOT {changes} => {found}\n")?)
    }

    fn run(&mut self, alloc: Global, words: &str) -> anyhow::Result<()> {
        if sort_of(self.name.as_str()) == Sort::Once {
            self.count();
        }
        self.parts.add_run(alloc, words)
    }

    fn outcome(&mut self, alloc: Global) -> anyhow::Result<()> {
        self.count();
        self.outcomes.begin(alloc)
    }

    fn tell_line(&mut self, line: &str) -> anyhow::Result<()> {
        if self.outcomes.add_line(line)? {
            return Ok(());
        }
        self.parts.tell_line(line)
    }

    /// What is told of a line.
    ///
    /// # Errors
    ///
    /// Where it is no line of a table, a change can't be made, or memory is wanting.
    pub fn take(&mut self, alloc: Global, line: &str) -> anyhow::Result<String> {
        match kind_of(line) {
            Kind::Name(name) => return self.begin(alloc, name),
            Kind::Row(changes, wanted) => {
                if sort_of(self.name.as_str()) != Sort::Each {
                    bail!("a row in a table of parts");
                }
                return self.row(alloc, changes, wanted);
            }
            Kind::Run(words) => self.run(alloc, words)?,
            Kind::Typed(text) => self.parts.type_line(alloc, text)?,
            Kind::Outcome => self.outcome(alloc)?,
            Kind::Change(text) => self.parts.add_change(alloc, text)?,
            Kind::Remark => {}
            Kind::Told(line) => self.tell_line(line)?,
        }
        Ok(String::new(alloc))
    }
}
