//! What comes of a table where one call of a disk after another fails.
use crate::parts::{Parts, difference};
use crate::running::new_outside;
use std::alloc::Global;

/// No table makes so many calls of a disk.
pub const MOST_CALLS: u64 = 1000;

/// What may come of a table's parts, in the order in which it comes.
#[derive(Drop)]
pub struct Outcomes {
    list: Vec<String>,
}

// What comes where this call fails, and whether one has failed.
fn outcome(alloc: Global, parts: &Parts, call: u64) -> anyhow::Result<(String, bool)> {
    let mut outside = new_outside(alloc, call, 0)?;
    let told = parts.told(alloc, &mut outside)?;
    Ok((told, outside.faults() > 0))
}

impl Outcomes {
    pub fn new(alloc: Global) -> Outcomes {
        Outcomes {
            list: Vec::new(alloc),
        }
    }

    pub fn count(&self) -> usize {
        self.list.len()
    }

    /// Begins a further outcome.
    ///
    /// # Errors
    ///
    /// Where memory is wanting.
    pub fn begin(&mut self, alloc: Global) -> anyhow::Result<()> {
        self.list.push(String::new(alloc))?;
        Ok(())
    }

    /// Adds a line to the last outcome, and says whether there is one.
    ///
    /// # Errors
    ///
    /// Where memory is wanting.
    pub fn add_line(&mut self, line: &str) -> anyhow::Result<bool> {
        match self.list.last_mut() {
            Some(last) => {
                last.push_str(line)?;
                last.push('\n')?;
                Ok(true)
            }
            None => Ok(false),
        }
    }

    /// The outcome at a place, or a text that none has.
    pub fn at(&self, place: usize) -> &str {
        match self.list.get(place) {
            Some(text) => text.as_str(),
            None => "no further outcome",
        }
    }

    // The place of an outcome that is the one at this place or the next.
    fn place_of(&self, found: &str, place: usize) -> Option<usize> {
        if self.at(place) == found {
            return Some(place);
        }
        let next = place.saturating_add(1);
        if self.at(next) == found {
            return Some(next);
        }
        None
    }

    /// The first place from this one on at which this outcome stands.
    pub fn place_from(&self, found: &str, place: usize) -> Option<usize> {
        for (at, text) in self.list.iter().enumerate().skip(place) {
            if text.as_str() == found {
                return Some(at);
            }
        }
        None
    }

    // What is told behind the first run in which no call failed.
    fn end(&self, alloc: Global, place: usize) -> anyhow::Result<String> {
        if place.saturating_add(1) == self.list.len() {
            return Ok(String::new(alloc));
        }
        Ok(format!(in alloc; "NOT the last outcome where no call fails\n")?)
    }

    /// What is told of parts of which something else comes.
    ///
    /// # Errors
    ///
    /// Where a change can't be made, or memory is wanting.
    pub fn otherwise(&self, alloc: Global, parts: &Parts) -> anyhow::Result<String> {
        let mut place = 0;
        for call in 1..=MOST_CALLS {
            let (found, has_failed) = outcome(alloc, parts, call)?;
            let Some(next) = self.place_of(found.as_str(), place) else {
                let what = format!(in alloc; "where call {call} fails")?;
                return difference(alloc, what.as_str(), found.as_str(), self.at(place));
            };
            place = next;
            if !has_failed {
                return self.end(alloc, place);
            }
        }
        Ok(format!(in alloc; "NOT so few calls\n")?)
    }
}
