//! What comes of a table where a crash comes at one call of its disk after another.
use crate::changes::copy_disk;
use crate::outcomes::{MOST_CALLS, Outcomes};
use crate::parts::{Parts, difference};
use crate::running::new_outside;
use anyhow::bail;
use disk_io::Torn;
use outside::ListOutside;
use std::alloc::Global;

/// The name under which the disk of such a table lies.
const NAME: &str = "x.iv";

// An outside with what a crash now leaves of a disk, of which this call fails; 0 for none.
fn left(
    alloc: Global,
    outside: &ListOutside,
    torn: Torn,
    call: u64,
) -> anyhow::Result<ListOutside> {
    let Some(disk) = outside.disk(NAME) else {
        bail!("no such disk")
    };
    let Ok(mut image) = disk.image(disk.recorded(), torn, 0) else {
        bail!("no memory for an image")
    };
    let mut new = new_outside(alloc, call, 0)?;
    copy_disk(alloc, &mut new, NAME, &mut image)?;
    Ok(new)
}

// What the last part tells behind a crash.
fn told_behind(
    alloc: Global,
    parts: &Parts,
    outside: &ListOutside,
    torn: Torn,
) -> anyhow::Result<String> {
    let mut new = left(alloc, outside, torn, 0)?;
    parts.told_last(alloc, &mut new)
}

// What the last part tells behind a crash, and behind another one at this call of its disk; nothing where no call fails.
fn told_twice(
    alloc: Global,
    parts: &Parts,
    outside: &ListOutside,
    torn: Torn,
    call: u64,
) -> anyhow::Result<Option<String>> {
    let mut new = left(alloc, outside, torn, call)?;
    parts.told_last(alloc, &mut new)?;
    if new.faults() == 0 {
        return Ok(None);
    }
    Ok(Some(told_behind(alloc, parts, &new, torn)?))
}

// What is told where a crash of the last part at some call makes it tell something else afterwards.
fn otherwise_twice(
    alloc: Global,
    parts: &Parts,
    outside: &ListOutside,
    torn: Torn,
    wanted: &str,
) -> anyhow::Result<String> {
    // the copy of a disk writes and syncs once
    for call in 3..=MOST_CALLS {
        match told_twice(alloc, parts, outside, torn, call)? {
            None => return Ok(String::new(alloc)),
            Some(found) if found.as_str() == wanted => {}
            Some(found) => {
                let what = format!(in alloc; "behind crashes, the second at call {call}")?;
                return difference(alloc, what.as_str(), found.as_str(), wanted);
            }
        }
    }
    Ok(format!(in alloc; "NOT so few calls\n")?)
}

/// How far the outcomes of one form have come.
#[derive(Clone, Copy)]
struct Course {
    torn: Torn,
    place: usize,
}

impl Course {
    fn new(torn: Torn) -> Course {
        Course { torn, place: 0 }
    }
}

/// A table, and whether a second crash comes behind the first.
#[derive(Clone, Copy)]
struct Table<'a> {
    outcomes: &'a Outcomes,
    parts: &'a Parts,
    is_twice: bool,
}

impl Table<'_> {
    // Holds what comes of a crash at one call, where the runs have told this, against the outcomes, and tells what comes otherwise.
    fn held(
        &self,
        alloc: Global,
        outside: &ListOutside,
        told: &str,
        course: &mut Course,
    ) -> anyhow::Result<String> {
        let last = told_behind(alloc, self.parts, outside, course.torn)?;
        let found = format!(in alloc; "{told}{last}")?;
        let Some(place) = self.outcomes.place_from(found.as_str(), course.place) else {
            return difference(
                alloc,
                "behind a crash",
                found.as_str(),
                self.outcomes.at(course.place),
            );
        };
        let is_new = place != course.place;
        course.place = place;
        if self.is_twice && is_new && course.torn == Torn::After {
            return otherwise_twice(alloc, self.parts, outside, course.torn, last.as_str());
        }
        Ok(String::new(alloc))
    }

    // The same for each form.
    fn all_held(
        &self,
        alloc: Global,
        outside: &ListOutside,
        told: &str,
        courses: &mut [Course],
    ) -> anyhow::Result<String> {
        for course in courses {
            let otherwise = self.held(alloc, outside, told, course)?;
            if !otherwise.is_empty() {
                let torn = course.torn;
                return Ok(format!(in alloc; "{torn:?}\n{otherwise}")?);
            }
        }
        Ok(String::new(alloc))
    }

    // What is told at the end of all calls.
    fn end(&self, alloc: Global, courses: &[Course]) -> anyhow::Result<String> {
        for course in courses {
            if course.place.saturating_add(1) != self.outcomes.count() {
                return Ok(format!(in alloc; "NOT the last outcome behind the last call\n")?);
            }
        }
        Ok(String::new(alloc))
    }

    // What is told where something else comes of a crash at some call of the disk.
    fn otherwise(&self, alloc: Global, courses: &mut [Course]) -> anyhow::Result<String> {
        for call in 1..=MOST_CALLS {
            let mut outside = new_outside(alloc, call, 0)?;
            let told = self.parts.told_until_fault(alloc, &mut outside)?;
            let otherwise = self.all_held(alloc, &outside, told.as_str(), courses)?;
            if !otherwise.is_empty() {
                return Ok(format!(in alloc; "NOT call {call}, {otherwise}")?);
            }
            if outside.faults() == 0 {
                return self.end(alloc, courses);
            }
        }
        Ok(format!(in alloc; "NOT so few calls\n")?)
    }
}

/// What is told of a table in which something else comes of a crash.
///
/// # Errors
///
/// Where a change can't be made, or memory is wanting.
pub fn otherwise(
    alloc: Global,
    outcomes: &Outcomes,
    parts: &Parts,
    is_twice: bool,
) -> anyhow::Result<String> {
    let mut courses = [
        Course::new(Torn::Before),
        Course::new(Torn::After),
        Course::new(Torn::Zeros),
    ];
    let table = Table {
        outcomes,
        parts,
        is_twice,
    };
    table.otherwise(alloc, &mut courses)
}
