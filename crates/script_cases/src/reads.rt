//! A view of many rows that is read many times: what it takes to read it does not rise with the rows that it sums.
use crate::scripts::Script;
use anyhow::bail;
use std::alloc::Global;
use std::fmt::Write;

// The greatest output, in bytes.
const ROOM: u64 = 1 << 22;

const TABLE: &str = "1: CREATE TABLE sale (id INT, shop INT, amount HUGE, PRIMARY KEY (id))\n";

const VIEW: &str =
    "1: CREATE INDEXED VIEW by_shop AS SELECT shop, COUNT(*) AS n, SUM(amount) AS total FROM sale GROUP BY shop\n";

// The three numbers of `500 inserts of 100 rows, 60000 reads`.
fn numbers(text: &str) -> Option<(u32, u32, u32)> {
    let (inserts, rest) = text.split_once(" inserts of ")?;
    let (rows, rest) = rest.split_once(" rows, ")?;
    let reads = rest.strip_suffix(" reads")?;
    Some((
        inserts.parse::<u32>().ok()?,
        rows.parse::<u32>().ok()?,
        reads.parse::<u32>().ok()?,
    ))
}

// The tables and their commits.
fn begin(alloc: Global) -> anyhow::Result<Script> {
    let mut script = Script::new(alloc);
    script.type_bytes(TABLE.as_bytes())?;
    script.print_line("1 OK 0")?;
    script.print_line("1 COMMIT 1")?;
    script.type_bytes(VIEW.as_bytes())?;
    script.print_line("1 OK 0")?;
    script.print_line("1 COMMIT 2")?;
    Ok(script)
}

// An INSERT of so many rows of shop 7, behind so many earlier ones.
fn insert(alloc: Global, script: &mut Script, place: u32, rows: u32) -> anyhow::Result<()> {
    let before = place.saturating_mul(rows);
    let mut line = format!(in alloc; "1: INSERT INTO sale VALUES ")?;
    for row in 1..=rows {
        let id = before.saturating_add(row);
        let comma = if row == 1 { "" } else { ", " };
        write!(line, "{comma}({id}, 7, 1)")?;
    }
    line.push('\n')?;
    let number = place.saturating_add(3);
    script.type_bytes(line.as_bytes())?;
    script.print_line(format!(in alloc; "1 OK {rows}")?.as_str())?;
    script.print_line(format!(in alloc; "1 COMMIT {number}")?.as_str())
}

// A SELECT of the view's one row.
fn read(script: &mut Script, row: &str, number: &str) -> anyhow::Result<()> {
    script.type_bytes(b"1: SELECT * FROM by_shop WHERE shop = 7\n")?;
    script.print_line(row)?;
    script.print_line("1 OK 1")?;
    script.print_line(number)
}

/// What comes of so many INSERT lines of so many rows each, and then of so many lines that read the view.
///
/// # Errors
///
/// Where the text has another form, or memory is wanting.
pub fn of_reads(alloc: Global, asked: &str) -> anyhow::Result<String> {
    let Some((inserts, rows, reads)) = numbers(asked) else {
        bail!("no numbers")
    };
    let mut script = begin(alloc)?;
    for place in 0..inserts {
        insert(alloc, &mut script, place, rows)?;
    }
    let all = inserts.saturating_mul(rows);
    let row = format!(in alloc; "1 ROW 7 {all} {all}")?;
    let last = inserts.saturating_add(2);
    let number = format!(in alloc; "1 COMMIT {last}")?;
    for _ in 0..reads {
        read(&mut script, row.as_str(), number.as_str())?;
    }
    let told = script.told(alloc, ROOM)?;
    if told.is_empty() {
        return Ok(format!(in alloc; "each of them {row}")?);
    }
    Ok(told)
}
