//! The rows of a change.
use anyhow::bail;
use case_text::read_row;
use iv_types::Row;
use std::alloc::Global;

fn row_or_none(alloc: Global, text: &str) -> anyhow::Result<Option<Row>> {
    if text == "nothing" {
        return Ok(None);
    }
    Ok(Some(read_row(alloc, text)?))
}

/// The row before and the row after, of their texts with ` > ` between, each `nothing` where there is none.
pub fn changed_rows(alloc: Global, text: &str) -> anyhow::Result<(Option<Row>, Option<Row>)> {
    let Some((before, after)) = text.split_once(" > ") else {
        bail!("no rows")
    };
    let before = row_or_none(alloc, before)?;
    Ok((before, row_or_none(alloc, after)?))
}
