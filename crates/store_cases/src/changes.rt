//! Changes as texts: the table's number, `: `, and the rows. The key is `key`.
use crate::changed_rows::changed_rows;
use anyhow::bail;
use iv_types::{Bytes, Change};
use std::alloc::Global;

/// The change of a text.
pub fn change(alloc: Global, text: &str) -> anyhow::Result<Change> {
    let Some((table, rows)) = text.split_once(": ") else {
        bail!("no table")
    };
    let table = table.parse::<u32>()?;
    let key = Bytes::from_vec(Vec::from_slice(alloc, b"key")?);
    let (before, after) = changed_rows(alloc, rows)?;
    Ok(Change {
        table,
        key,
        before,
        after,
    })
}
