//! Tables of cases: what a case program reads and prints.
//!
//! A line `== NAME` begins a table. A line `+ TEXT` gives the table's rows what they stand on. Any other line that is not
//! empty is a row: what is asked, ` => `, and what comes of it. A line that begins with `#` is a remark. What is asked
//! and what is given are expanded (`expansion`), and so is what comes of it.
//!
//! Of each table the name and the number of rows are printed, behind the rows of which something else comes.
use crate::expansion::expanded;
use anyhow::bail;
use std::alloc::Global;

/// What comes of the rows of tables.
pub trait Cases {
    /// Begins the table of this name.
    fn begin(&mut self, alloc: Global, name: &str) -> anyhow::Result<()>;

    /// Takes what the rows below stand on.
    fn give(&mut self, alloc: Global, text: &str) -> anyhow::Result<()>;

    /// What comes of what a row asks.
    fn answer(&mut self, alloc: Global, asked: &str) -> anyhow::Result<String>;
}

// The table that is being read.
#[derive(Drop)]
struct Table {
    name: String,
    rows: u32,
}

impl Table {
    fn new(alloc: Global) -> Table {
        Table {
            name: String::new(alloc),
            rows: 0,
        }
    }

    // What is printed at the table's end.
    fn end(&self, alloc: Global) -> anyhow::Result<String> {
        let name = self.name.as_str();
        let rows = self.rows;
        if rows == 0 && name.is_empty() {
            return Ok(String::new(alloc));
        }
        Ok(format!(in alloc; "{name}: {rows} rows\n")?)
    }

    // What is printed before the table of this name, which it becomes.
    fn next(&mut self, alloc: Global, name: &str) -> anyhow::Result<String> {
        let told = self.end(alloc)?;
        self.name = String::from_str(alloc, name)?;
        self.rows = 0;
        Ok(told)
    }
}

// What is printed of a row: nothing, where what it says comes of it.
fn row<C: Cases>(alloc: Global, cases: &mut C, line: &str) -> anyhow::Result<String> {
    let Some((asked, wanted)) = line.split_once(" => ") else {
        bail!("a row without an answer")
    };
    let asked = expanded(alloc, asked)?;
    let wanted = expanded(alloc, wanted)?;
    let found = cases.answer(alloc, asked.as_str())?;
    if found.as_str() == wanted.as_str() {
        return Ok(String::new(alloc));
    }
    Ok(format!(in alloc; "NOT {asked} => {found}\n")?)
}

// What is printed of a line.
fn line<C: Cases>(
    alloc: Global,
    table: &mut Table,
    cases: &mut C,
    line: &str,
) -> anyhow::Result<String> {
    if line.is_empty() || line.starts_with('#') {
        return Ok(String::new(alloc));
    }
    if let Some(name) = line.strip_prefix("== ") {
        cases.begin(alloc, name)?;
        return table.next(alloc, name);
    }
    if let Some(text) = line.strip_prefix("+ ") {
        let text = expanded(alloc, text)?;
        cases.give(alloc, text.as_str())?;
        return Ok(String::new(alloc));
    }
    table.rows = table.rows.saturating_add(1);
    row(alloc, cases, line)
}

/// Reads tables from the standard input, and prints what came of them.
///
/// # Errors
///
/// Where a row has no answer, or one can't be found.
pub fn print_cases<C: Cases>(rt: &HostRuntime, cases: &mut C) -> anyhow::Result<()> {
    let mut table = Table::new(rt.alloc());
    for text in rt.lines(rt.alloc()) {
        let told = line(rt.alloc(), &mut table, cases, text?.as_str())?;
        print!(rt; "{told}")?;
    }
    let told = table.end(rt.alloc())?;
    print!(rt; "{told}")?;
    Ok(())
}
