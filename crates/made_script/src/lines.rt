//! The lines, a round at a time.
ghost use Rattle.std.specs.Prelude.{◌≡◌, ◌<◌, ◌≤◌, ◌^◌, ◌++◌, ◌-ℤ◌, map, IfOk, OnOk, codes, string_bytes};
ghost use Rattle.made_script.specs.Made as made;
ghost use Rattle.made_script.specs.Made.{sale_of, shop_of, amount_of, begin_line, insert_line, end_line, upkeep_lines};

use iv_types::NoMemory;
use std::alloc::Global;

/// The most rounds of a made script.
pub const MOST_ROUNDS: u32 = 10_000;

const DEFINING: [&str; 2] = [
    "1: CREATE TABLE sale (id INT, shop INT, amount HUGE, PRIMARY KEY (id))",
    "1: CREATE INDEXED VIEW by_shop AS SELECT shop, COUNT(*) AS n, SUM(amount) AS total FROM sale GROUP BY shop",
];

// The sessions that take part, in number order.
const SESSIONS: [u32; 8] = [1, 2, 3, 4, 5, 6, 7, 8];

// And from the last to the first.
const LAST_FIRST: [u32; 8] = [8, 7, 6, 5, 4, 3, 2, 1];

/// The last line: a look at the view.
pub const LAST_LINE: &[u8] = b"1: SELECT * FROM by_shop";

// The sale of a session in a round, which is counted from 1.
fn sale(round: u32, session: u32) -> u64
    requires { 1 ≤ round }
    ensures { result ≡ sale_of round session }
{
    8 * (u64::from(round) - 1) + u64::from(session)
}

// The amount of a sale.
fn amount(sale: u64) -> i64
    requires { sale < 2 ^ 48 }
    ensures { result ≡ amount_of sale }
{
    (37 * sale % 1000) as i64 - 500
}

fn begin(alloc: Global, session: u32) -> Result<String, NoMemory>
    ensures { IfOk result (λ line. string_bytes line ≡ begin_line session) }
{
    let line = format!(in alloc; "{session}: BEGIN")?;
    Ok(line)
}

fn push_begins(alloc: Global, lines: &mut Vec<String>, sessions: &[u32]) -> Result<(), NoMemory>
    ensures { OnOk result (map string_bytes lines.new.items ≡ map string_bytes lines.old.items ++ map begin_line sessions.now) }
{
    for session in sessions {
        let line = begin(alloc, *session)?;
        lines.push(line)?;
    }
    Ok(())
}

// The line with which a session inserts its sale.
fn insert(alloc: Global, round: u32, session: u32) -> Result<String, NoMemory>
    requires { 1 ≤ round }
    ensures { IfOk result (λ line. string_bytes line ≡ insert_line round session) }
{
    let sale = sale(round, session);
    let shop = 5 * sale % 16;
    let amount = amount(sale);
    let line = format!(in alloc; "{session}: INSERT INTO sale VALUES ({sale}, {shop}, {amount})")?;
    Ok(line)
}

fn push_inserts(
    alloc: Global,
    lines: &mut Vec<String>,
    round: u32,
    sessions: &[u32],
) -> Result<(), NoMemory>
    requires { 1 ≤ round }
    ensures { OnOk result (map string_bytes lines.new.items ≡ map string_bytes lines.old.items ++ map (insert_line round) sessions.now) }
{
    for session in sessions {
        let line = insert(alloc, round, *session)?;
        lines.push(line)?;
    }
    Ok(())
}

// The line with which a session ends its transaction.
fn end(alloc: Global, round: u32, session: u32) -> Result<String, NoMemory>
    requires { 1 ≤ round }
    ensures { IfOk result (λ line. string_bytes line ≡ end_line round session) }
{
    let line = if sale(round, session) % 4 == 3 {
        format!(in alloc; "{session}: ROLLBACK")?
    } else {
        format!(in alloc; "{session}: COMMIT")?
    };
    Ok(line)
}

fn push_ends(
    alloc: Global,
    lines: &mut Vec<String>,
    round: u32,
    sessions: &[u32],
) -> Result<(), NoMemory>
    requires { 1 ≤ round }
    ensures { OnOk result (map string_bytes lines.new.items ≡ map string_bytes lines.old.items ++ map (end_line round) sessions.now) }
{
    for session in sessions {
        let line = end(alloc, round, *session)?;
        lines.push(line)?;
    }
    Ok(())
}

fn push_upkeep(alloc: Global, lines: &mut Vec<String>, round: u32) -> Result<(), NoMemory>
    ensures { OnOk result (map string_bytes lines.new.items ≡ map string_bytes lines.old.items ++ upkeep_lines round) }
{
    if round % 500 == 0 {
        lines.push(String::from_str(alloc, "clean")?)?;
        lines.push(String::from_str(alloc, "checkpoint")?)?;
    }
    Ok(())
}

/// The lines before the rounds.
///
/// # Errors
///
/// Where memory is wanting.
pub fn defining_lines(alloc: Global) -> Result<Vec<String>, NoMemory>
    ensures { IfOk result (λ lines. map string_bytes lines.items ≡ made.defining_lines) }
{
    let mut lines = Vec::new(alloc);
    for text in DEFINING.iter() {
        lines.push(String::from_str(alloc, *text)?)?;
    }
    Ok(lines)
}

/// The lines of a round, which is counted from 1.
///
/// # Errors
///
/// Where memory is wanting.
pub fn round_lines(alloc: Global, round: u32) -> Result<Vec<String>, NoMemory>
    requires { 1 ≤ round }
    ensures { IfOk result (λ lines. map string_bytes lines.items ≡ made.round_lines round) }
{
    let mut lines = Vec::new(alloc);
    push_begins(alloc, &mut lines, &SESSIONS)?;
    push_inserts(alloc, &mut lines, round, &SESSIONS)?;
    push_ends(alloc, &mut lines, round, &LAST_FIRST)?;
    push_upkeep(alloc, &mut lines, round)?;
    Ok(lines)
}
