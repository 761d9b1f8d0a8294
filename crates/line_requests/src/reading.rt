//! What a line asks for.
ghost use Rattle.std.specs.Prelude.{◌≡◌, ℕ, List, IsTrue, ◌↔◌};
ghost use Rattle.iv_meaning.specs.Said.{Said, IsRemark, SaysRead};
ghost use Rattle.iv_meaning.specs.Escrow.{IsSession};
ghost use Rattle.line_requests.specs.Parts.{IsNumbered};
ghost use Rattle.line_requests.specs.Requests.{SaysSo, IsRequest, IsAsk, RunsText, LoadsText};

use crate::asked::{Ask, Request};
use crate::numbers::numbered;
use crate::texts::{marked, read};
use iv_types::NoMemory;
use std::alloc::Global;

// Whether a line is empty or begins with `#`.
fn is_remark(line: &[u8]) -> bool
    ensures { IsTrue result ↔ IsRemark line.now }
{
    line.is_empty() || line[0] == b'#'
}

fn is_text(line: &[u8], text: &[u8]) -> bool
    ensures { IsTrue result ↔ (line.now ≡ text.now) }
{
    line == text
}

// What `N: text` asks of its session.
fn runs(alloc: Global, text: &str) -> Ask
    ensures is { IsAsk result }
    ensures asks { RunsText text.now result }
{
    match read(alloc, text) {
        Ok(read) => Ask::Runs(read),
        Err(NoMemory) => Ask::Unread,
    }
}

// What `N/ text` asks of its session.
fn loads(alloc: Global, text: &str) -> Ask
    ensures is { IsAsk result }
    ensures asks { LoadsText text.now result }
{
    match read(alloc, text) {
        Ok(read) => Ask::Loads(read),
        Err(NoMemory) => Ask::Unread,
    }
}

// What a line asks for by what stands behind the number of its session.
fn of_session(alloc: Global, session: u32, rest: &[u8]) -> Request
    requires { IsSession session }
    ensures is { IsRequest result }
    ensures says { (line : List ℕ) → IsNumbered session rest.now line → (said : Said) → SaysSo result said → SaysRead line said }
{
    if is_text(rest, b"+") {
        return Request::OfSession(session, Ask::Steps);
    }
    match marked(rest, b":") {
        Some(text) => Request::OfSession(session, runs(alloc, text)),
        None => match marked(rest, b"/") {
            Some(text) => Request::OfSession(session, loads(alloc, text)),
            None => Request::Bad,
        },
    }
}

/// What a line asks for that is not too long. A text for which there is no memory is unread.
pub fn request(alloc: Global, line: &[u8]) -> Request
    ensures says { (said : Said) → SaysSo result said → SaysRead line.now said }
    ensures is { IsRequest result }
{
    if is_remark(line) {
        return Request::Nothing;
    }
    if is_text(line, b"clean") {
        return Request::Clean;
    }
    if is_text(line, b"checkpoint") {
        return Request::Checkpoint;
    }
    match numbered(line) {
        Some((session, rest)) => of_session(alloc, session, rest),
        None => Request::Bad,
    }
}
