//! Rows that are grouped.
//!
//! A row is rows, ` | `, the columns by which they are grouped, ` | ` and those that are summed, and then the rows of the
//! groups.
use crate::writing::{found_text, read_places};
use anyhow::bail;
use case_text::read_rows;
use row_eval::group;
use std::alloc::Global;

/// The groups of what a row asks.
pub fn groups_of(alloc: Global, asked: &str) -> anyhow::Result<String> {
    let Some((rows, columns)) = asked.split_once(" | ") else {
        bail!("no keys")
    };
    let Some((keys, sums)) = columns.split_once(" | ") else {
        bail!("no sums")
    };
    let rows = read_rows(alloc, rows)?;
    let keys = read_places(alloc, keys)?;
    let sums = read_places(alloc, sums)?;
    let found = group(alloc, &rows, keys.as_slice(), sums.as_slice());
    found_text(alloc, found)
}
