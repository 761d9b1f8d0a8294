//! Which step of open transactions comes next, in the order of their records' numbers.
ghost use Rattle.std.specs.Prelude.{◌≡◌, ◌<◌, ◌^◌, None, Some, length, slice_get, IfSome, IfNone};
ghost use Rattle.iv_types.specs.declared.limit.TheConstants.{SEATS};
ghost use Rattle.txn_book.specs.Opens.{open_at};
ghost use Rattle.core_recording.specs.Carrying.{steps_at, id_of, done_at};
ghost use Rattle.core_recording.specs.Earliest.{LeastUpTo, IsEarliest, AreDone};

use iv_types::{KeptStep, MOST_SESSIONS, SEATS};
use record_lending::number_of;
use txn_book::Book;

/// The step behind so many of a session's transaction, with the transaction's number in the log, if it keeps more.
pub(crate) fn step_behind(book: &Book, session: u32, done: usize) -> Option<(u64, &KeptStep)>
    ensures some { IfSome result (λ found. slice_get (steps_at book.now.opens session) done ≡ Some found.1.now) }
    ensures id { IfSome result (λ found. found.0 ≡ id_of (open_at book.now.opens session)) }
    ensures few { IfSome result (λ found. done < 2 ^ 63) }
    ensures none { IfNone result (slice_get (steps_at book.now.opens session) done ≡ None) }
{
    match book.get(session) {
        Some(txn) => match txn.kept.get(done) {
            Some(step) => Some((txn.id, step)),
            None => None,
        },
        None => None,
    }
}

/// The lesser of a session's number and the least one so far, with its session.
fn lesser(number: u64, session: u32, least: Option<(u64, u32)>) -> Option<(u64, u32)>
    ensures { result ≡ Rattle.core_recording.specs.Earliest.lesser number session least }
{
    match least {
        Some((other, before)) => {
            if other <= number {
                Some((other, before))
            } else {
                Some((number, session))
            }
        }
        None => Some((number, session)),
    }
}

/// The least number so far, with that of the session's next step, if it keeps more.
fn with_session(
    book: &Book,
    session: u32,
    done: usize,
    least: Option<(u64, u32)>,
) -> Option<(u64, u32)>
    ensures { result ≡ Rattle.core_recording.specs.Earliest.with_step (slice_get (steps_at book.now.opens session) done) session least }
{
    match step_behind(book, session, done) {
        Some((_, step)) => lesser(number_of(step), session, least),
        None => least,
    }
}

/// The session whose next step, behind so many of each session's, has the record of the least number, if one is left.
pub(crate) fn earliest(book: &Book, done: &[usize]) -> Option<u32>
    requires { length done.now ≡ SEATS }
    ensures some { IfSome result (IsEarliest book.now.opens (done_at done.now)) }
    ensures none { IfNone result (AreDone book.now.opens (done_at done.now)) }
{
    let mut least = None;
    for before in 0..MOST_SESSIONS {
        let session = before + 1;
        least = with_session(book, session, done[session as usize], least);
    }
    match least {
        Some((_, session)) => Some(session),
        None => None,
    }
}
