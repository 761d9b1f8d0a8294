//! How a step begins and ends.
ghost use Rattle.std.specs.Prelude.{◌≡◌, ◌<◌, ◌≤◌, ◌^◌, [], Some, None};
ghost use Rattle.iv_types.specs.declared.limit.TheConstants.{MOST_SESSIONS};
ghost use Rattle.txn_machine.specs.State.{State, Stop};
ghost use Rattle.txn_machine.specs.Answers as answer;
ghost use Rattle.iv_types.specs.declared.refusal.EngineRefusal.TheVariants as refusal;
ghost use Rattle.txn_machine.specs.Acts.{Act};
ghost use Rattle.txn_machine.specs.May.{May};
ghost use Rattle.txn_book.specs.Acts.{answer_of};
ghost use Rattle.core_state.specs.Seats.{seat_at, cleaned};
ghost use Rattle.core_state.specs.Stands.{Stands, Began, Told, Failed, Moved, waiting_after};

use crate::seat::Cleaner;
use crate::state::CoreState;
use iv_types::SortedMaps;
use txn_book::Answer;

/// The number of the step that stops a core.
const LAST_STEP: u64 = 1 << 62;

// What the cleaner did, after a step of this number with so many entries in the history.
fn cleaner_after(cleaner: Cleaner, number: u64, entries: u64, said: &Answer) -> Cleaner
    requires { cleaner.removed < 2 ^ 63 }
    ensures { result ≡ cleaned cleaner number entries said.now }
{
    let mut after = cleaner;
    match said {
        Answer::Pruned => after.pruned = number,
        Answer::Cleaned(0) => after.found_none = number,
        Answer::Cleaned(removed) => after.removed += u64::from(*removed),
        Answer::Saved(_) => after.saved = entries,
        _ => {}
    }
    after
}

impl<M: SortedMaps> CoreState<M> {
    /// Begins a step of a session, of a core that is not stopped: the session waits for nothing any more.
    pub fn open_step(&mut self, session: u32)
        requires { session ≤ MOST_SESSIONS }
        ensures { (s : State) → Stands M.maps M.spare M.limit self.old s → s.stop ≡ None → Began M.maps M.spare M.limit self.new s session }
    {
        if session > 0 {
            let wants = self.locks.cancel(session);
            self.wants.put_back(session, wants);
        }
    }

    /// Counts a step of a session of a core that is not stopped, which was answered so.
    pub fn close_step(&mut self, session: u32, said: &Answer)
        requires session { session ≤ MOST_SESSIONS }
        requires steps { self.old.steps < 2 ^ 62 }
        requires few { (seat_at self.old.seats session).steps < 2 ^ 62 }
        requires removed { self.old.cleaner.removed < 2 ^ 62 }
        ensures { (s : State) (a : Act) → May s session a → (told : Told M.maps M.spare M.limit s session a (answer_of said.now) self.old) → Moved M.maps M.spare M.limit s session a (answer_of said.now) told.effects self.new }
    {
        self.steps += 1;
        let number = self.steps;
        let entries = self.book.history().len() as u64;
        self.seats.count(session, number, said);
        self.cleaner = cleaner_after(self.cleaner, number, entries, said);
        if number == LAST_STEP {
            self.stop = Some(number);
        }
    }

    /// Counts a step of a session of a core that is not stopped, at which the disk failed: so many records of it wait, one or
    /// none, and the core is stopped.
    pub fn fail_step(&mut self, session: u32, waiting: u64)
        requires session { session ≤ MOST_SESSIONS }
        requires steps { self.old.steps < 2 ^ 62 }
        requires next { self.old.next ≤ 2 ^ 63 }
        requires one { waiting ≤ 1 }
        requires few { (seat_at self.old.seats session).steps < 2 ^ 62 }
        ensures { (s : State) (a : Act) → May s session a → waiting ≡ waiting_after a → Failed M.maps M.spare M.limit s session a self.old → Moved M.maps M.spare M.limit s session a (answer.Refused refusal.DiskFault) [] self.new }
    {
        let number = self.steps + 1;
        self.steps = number;
        self.next += waiting;
        self.seats.fail(session, number);
        self.stop = Some(number);
    }

    /// Answers a step of a core that is stopped: the session is told of it.
    pub fn tell_of_stop(&mut self, session: u32)
        requires { session ≤ MOST_SESSIONS }
        ensures { (s : State) (stop : Stop) (a : Act) → May s session a → Stands M.maps M.spare M.limit self.old s → s.stop ≡ Some stop → Moved M.maps M.spare M.limit s session a (answer.Refused (refusal.Stopped stop.step)) [] self.new }
    {
        self.seats.tell_of_stop(session);
    }
}
