//! The lines of replies.
ghost use Rattle.std.specs.Prelude.{◌≡◌, ◌∷◌, ◌++◌, [], OnOk};
ghost use Rattle.script_law.specs.RunLines.{counted_line};
ghost use Rattle.iv_meaning.specs.Reply.{reply_line, reply_lines};
ghost use Rattle.txn_sessions.specs.Standings.{replies_of};

use itoa::Buffer;
use iv_types::{NoMemory, Reply};
use sql_print::reply_text;
use std::alloc::Global;
use txn_sessions::Replies;

fn push_reply(
    alloc: Global,
    text: &mut Vec<u8>,
    session: u32,
    reply: &Reply,
) -> Result<(), NoMemory>
    ensures { OnOk result (text.new.items ≡ text.old.items ++ reply_line session reply.now) }
{
    let line = reply_text(alloc, Some(session), reply)?;
    text.extend_from_slice(line.as_slice())?;
    text.push(b'\n')?;
    Ok(())
}

// Writes the lines of a session's replies behind a text.
fn push_all(
    alloc: Global,
    text: &mut Vec<u8>,
    session: u32,
    replies: &[Reply],
) -> Result<(), NoMemory>
    ensures { OnOk result (text.new.items ≡ text.old.items ++ reply_lines session replies.now) }
{
    for reply in replies {
        push_reply(alloc, text, session, reply)?;
    }
    Ok(())
}

/// Writes the line of one reply behind a text. Where memory is wanting, some of it may stand there.
pub fn push_one(
    alloc: Global,
    text: &mut Vec<u8>,
    session: u32,
    reply: Reply,
) -> Result<(), NoMemory>
    ensures { OnOk result (text.new.items ≡ text.old.items ++ reply_lines session (reply ∷ [])) }
{
    push_reply(alloc, text, session, &reply)
}

// Writes the lines of the replies to a statement behind a text.
fn push_replies(
    alloc: Global,
    text: &mut Vec<u8>,
    session: u32,
    replies: &Replies,
) -> Result<(), NoMemory>
    ensures { OnOk result (text.new.items ≡ text.old.items ++ reply_lines session (replies_of replies.now)) }
{
    push_all(alloc, text, session, replies.told.as_slice())?;
    match &replies.last {
        Some(reply) => push_reply(alloc, text, session, reply),
        None => Ok(()),
    }
}

/// Writes the lines of the replies to a statement behind a text, and lets them go. Where memory is wanting, some of them may
/// stand there.
pub fn tell_replies(
    alloc: Global,
    text: &mut Vec<u8>,
    session: u32,
    replies: Replies,
) -> Result<(), NoMemory>
    ensures { OnOk result (text.new.items ≡ text.old.items ++ reply_lines session (replies_of replies)) }
{
    let told = push_replies(alloc, text, session, &replies);
    replies.let_go();
    told
}

/// Writes a name and a number behind a text, as a line of the engine's own is answered.
pub fn push_counted(text: &mut Vec<u8>, word: &[u8], count: u64) -> Result<(), NoMemory>
    ensures { OnOk result (text.new.items ≡ text.old.items ++ counted_line word.now count) }
{
    let mut buffer = Buffer::new();
    text.extend_from_slice(word)?;
    text.push(b' ')?;
    text.extend_from_slice(buffer.format(count).as_bytes())?;
    text.push(b'\n')?;
    Ok(())
}
