//! Sessions, from 1 to 64, as their numbers.
ghost use Rattle.std.specs.Prelude.{◌≤◌, IfOk};

use anyhow::bail;
use iv_types::{NOBODY, Sessions};
use std::fmt::Write;

/// The session of a number.
pub fn session_of(word: &str) -> anyhow::Result<u32>
    ensures from_1 { IfOk result (λ session. 1 ≤ session) }
    ensures to_64 { IfOk result (λ session. session ≤ 64) }
{
    let session = word.parse::<u32>()?;
    if session < 1 || session > 64 {
        bail!("no session");
    }
    Ok(session)
}

/// The sessions of numbers with blanks between them.
pub fn sessions_of(text: &str) -> anyhow::Result<Sessions> {
    let mut sessions = NOBODY;
    if !text.is_empty() {
        for word in text.split(' ') {
            sessions = sessions.with(session_of(word)?);
        }
    }
    Ok(sessions)
}

/// Writes the sessions of a set in their order, with blanks between them, or `nobody`.
pub fn write_sessions(out: &mut String, sessions: Sessions) -> anyhow::Result<()> {
    if !sessions.is_somebody() {
        out.push_str("nobody")?;
    }
    let mut is_first = true;
    for session in 1..65 {
        if sessions.has(session) {
            out.push_str(if is_first { "" } else { " " })?;
            is_first = false;
            write!(out, "{session}")?;
        }
    }
    Ok(())
}
