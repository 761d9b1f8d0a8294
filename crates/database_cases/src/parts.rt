//! The parts of a table: runs of the program, and changes of disks.
use crate::changes::{change, change_all, take_back};
use crate::running::run_words;
use anyhow::bail;
use case_text::{expanded, unescaped};
use outside::ListOutside;
use std::alloc::Global;

/// A run of the program: its words, its input, and what is to be told of it.
#[derive(Drop)]
pub struct Asked {
    words: String,
    input: Vec<u8>,
    wanted: String,
}

#[derive(Drop)]
enum Part {
    Run(Asked),
    Change(String),
}

/// Parts, in order.
#[derive(Drop)]
pub struct Parts {
    list: Vec<Part>,
}

// Which line of a text is the first that is not that of another text, and how it reads there and here.
fn first_other<'a>(found: &'a str, wanted: &'a str) -> (u32, &'a str, &'a str) {
    let mut rest = wanted.lines();
    let mut place = 1u32;
    for line in found.lines() {
        match rest.next() {
            Some(other) if other == line => place = place.saturating_add(1),
            Some(other) => return (place, line, other),
            None => return (place, line, "nothing"),
        }
    }
    (place, "nothing", rest.next().unwrap_or("nothing"))
}

/// How two texts differ.
///
/// # Errors
///
/// Where memory is wanting.
pub fn difference(alloc: Global, what: &str, found: &str, wanted: &str) -> anyhow::Result<String> {
    let (place, line, other) = first_other(found, wanted);
    Ok(format!(in alloc; "NOT {what}, line {place}: {line}, and not {other}\n")?)
}

impl Asked {
    fn run(&self, alloc: Global, outside: &mut ListOutside) -> anyhow::Result<String> {
        run_words(alloc, outside, self.words.as_str(), &self.input)
    }

    // What is told where it runs otherwise.
    fn otherwise(&self, alloc: Global, outside: &mut ListOutside) -> anyhow::Result<String> {
        let found = self.run(alloc, outside)?;
        if found.as_str() == self.wanted.as_str() {
            return Ok(String::new(alloc));
        }
        difference(
            alloc,
            self.words.as_str(),
            found.as_str(),
            self.wanted.as_str(),
        )
    }
}

impl Part {
    fn otherwise(&self, alloc: Global, outside: &mut ListOutside) -> anyhow::Result<String> {
        match self {
            Part::Run(asked) => asked.otherwise(alloc, outside),
            Part::Change(text) => {
                change(alloc, outside, text.as_str())?;
                Ok(String::new(alloc))
            }
        }
    }

    // What a run tells, behind a line `$`.
    fn tell(
        &self,
        alloc: Global,
        outside: &mut ListOutside,
        told: &mut String,
    ) -> anyhow::Result<()> {
        match self {
            Part::Run(asked) => {
                told.push_str("$\n")?;
                told.push_str(asked.run(alloc, outside)?.as_str())?;
                Ok(())
            }
            Part::Change(text) => {
                change(alloc, outside, text.as_str())?;
                Ok(())
            }
        }
    }
}

impl Parts {
    pub fn new(alloc: Global) -> Parts {
        Parts {
            list: Vec::new(alloc),
        }
    }

    /// Adds a run with these words.
    ///
    /// # Errors
    ///
    /// Where memory is wanting.
    pub fn add_run(&mut self, alloc: Global, words: &str) -> anyhow::Result<()> {
        let asked = Asked {
            words: String::from_str(alloc, words)?,
            input: Vec::new(alloc),
            wanted: String::new(alloc),
        };
        self.list.push(Part::Run(asked))?;
        Ok(())
    }

    /// Adds a change.
    ///
    /// # Errors
    ///
    /// Where memory is wanting.
    pub fn add_change(&mut self, alloc: Global, text: &str) -> anyhow::Result<()> {
        self.list
            .push(Part::Change(String::from_str(alloc, text)?))?;
        Ok(())
    }

    fn last_run(&mut self) -> anyhow::Result<&mut Asked> {
        match self.list.last_mut() {
            Some(Part::Run(asked)) => Ok(asked),
            _ => bail!("a line that belongs to no run"),
        }
    }

    /// Types a line into the last part.
    ///
    /// # Errors
    ///
    /// Where that is no run, the line has a wrong escape, or memory is wanting.
    pub fn type_line(&mut self, alloc: Global, text: &str) -> anyhow::Result<()> {
        let text = expanded(alloc, text)?;
        let bytes = unescaped(alloc, text.as_str())?;
        let asked = self.last_run()?;
        asked.input.extend_from_slice(&bytes)?;
        asked.input.push(b'\n')?;
        Ok(())
    }

    /// The last part is to tell this line next.
    ///
    /// # Errors
    ///
    /// Where that is no run, or memory is wanting.
    pub fn tell_line(&mut self, line: &str) -> anyhow::Result<()> {
        let asked = self.last_run()?;
        asked.wanted.push_str(line)?;
        asked.wanted.push('\n')?;
        Ok(())
    }

    /// What is told of the runs that tell otherwise.
    ///
    /// # Errors
    ///
    /// Where a change can't be made, or memory is wanting.
    pub fn otherwise(&self, alloc: Global, outside: &mut ListOutside) -> anyhow::Result<String> {
        let mut told = String::new(alloc);
        for part in &self.list {
            told.push_str(part.otherwise(alloc, outside)?.as_str())?;
        }
        Ok(told)
    }

    /// What all runs tell, each behind a line `$`.
    ///
    /// # Errors
    ///
    /// Where a change can't be made, or memory is wanting.
    pub fn told(&self, alloc: Global, outside: &mut ListOutside) -> anyhow::Result<String> {
        let mut told = String::new(alloc);
        for part in &self.list {
            part.tell(alloc, outside, &mut told)?;
        }
        Ok(told)
    }

    /// What the runs before the last part tell, each behind a line `$`, up to the first in which the outside or a disk fails.
    ///
    /// # Errors
    ///
    /// Where a change can't be made, or memory is wanting.
    pub fn told_until_fault(
        &self,
        alloc: Global,
        outside: &mut ListOutside,
    ) -> anyhow::Result<String> {
        let mut told = String::new(alloc);
        if let Some((_, before)) = self.list.split_last() {
            for part in before {
                if outside.faults() == 0 {
                    part.tell(alloc, outside, &mut told)?;
                }
            }
        }
        Ok(told)
    }

    /// What the last part tells, behind a line `$`.
    ///
    /// # Errors
    ///
    /// Where a change can't be made, or memory is wanting.
    pub fn told_last(&self, alloc: Global, outside: &mut ListOutside) -> anyhow::Result<String> {
        let mut told = String::new(alloc);
        if let Some(last) = self.list.last() {
            last.tell(alloc, outside, &mut told)?;
        }
        Ok(told)
    }

    /// What is told of the runs before the last part.
    ///
    /// # Errors
    ///
    /// Where a change can't be made, or memory is wanting.
    pub fn prepare(&self, alloc: Global, outside: &mut ListOutside) -> anyhow::Result<String> {
        let mut told = String::new(alloc);
        if let Some((_, before)) = self.list.split_last() {
            for part in before {
                told.push_str(part.otherwise(alloc, outside)?.as_str())?;
            }
        }
        Ok(told)
    }

    /// What the last part tells, which is a run, behind these changes. Of an image that is refused they are taken back, and then
    /// the outside stands as before; it says whether it does.
    ///
    /// # Errors
    ///
    /// Where it is no run, a change can't be made, or memory is wanting.
    pub fn told_behind(
        &self,
        alloc: Global,
        outside: &mut ListOutside,
        changes: &str,
    ) -> anyhow::Result<(String, bool)> {
        let Some(Part::Run(last)) = self.list.last() else {
            bail!("no last run")
        };
        let mut formers = Vec::new(alloc);
        let are_kept = change_all(alloc, outside, changes, &mut formers)?;
        let told = last.run(alloc, outside)?;
        let stands = are_kept && told.as_str().ends_with("! BadImage\n");
        if stands {
            take_back(alloc, outside, &formers)?;
        }
        Ok((told, stands))
    }
}
