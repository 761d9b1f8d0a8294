//! What a step does: its act.
ghost use Rattle.std.specs.Prelude.{◌≡◌, ◌+◌, ◌≤◌, None, IfOk, OnErr};
ghost use Rattle.txn_machine.specs.State.{State, is_fault};
ghost use Rattle.txn_book.specs.Acts.{act_of, answer_of};
ghost use Rattle.txn_book.specs.Moves.{CountsFault, IsAsked};
ghost use Rattle.core_journal.specs.Records.{Records};
ghost use Rattle.core_recording.specs.Giving.{CanGive, IsBehind, MayGiveUp};
ghost use Rattle.core_state.specs.Stands.{Stands, waiting_after};
ghost use Rattle.engine_core.specs.Acting.{LacksMemory, Recorded};

use core_checkpoints::save;
use core_ends::{begin, cancel};
use core_journal::Checkpoints;
use core_reads::{defs, fetch, peek};
use core_recording::{commit, end, make_ghost, pay, put, undo_one};
use core_schema::define;
use core_state::CoreState;
use core_upkeep::{clean, prune};
use iv_types::{EngineRefusal, NoMemory, SortedMaps};
use txn_book::{Act, Answer, Step};

// Does an act, and gives its records to the journal. It fails only where it takes memory and there is none, and nothing is changed then but room.
fn act<M: SortedMaps, J: Checkpoints<M>>(
    core: &mut CoreState<M>,
    journal: &mut J,
    session: u32,
    act: &Act,
) -> Result<Answer, NoMemory>
    requires { CanGive M.maps M.spare M.limit J.has J.limit core.old journal.old session (act_of act.now) }
    ensures gives { IfOk result (λ said. MayGiveUp M.maps M.spare M.limit J.has J.limit J.medium J.leaves core.old journal.old session (act_of act.now) (answer_of said) core.new journal.new) }
    ensures faults { IfOk result (λ said. CountsFault said (J.faults (J.medium journal.old)) (J.faults (J.medium journal.new))) }
    ensures err { OnErr result (LacksMemory M.maps M.spare M.limit core.old session (act_of act.now) core.new) }
    ensures ungiven { OnErr result (journal.new ≡ journal.old) }
{
    match act {
        Act::Begin(mode) => begin(core, session, *mode),
        Act::Defs => defs(core, session),
        Act::Fetch {
            index,
            interval,
            mode,
        } => fetch(core, session, *index, interval, *mode),
        Act::Peek { index, interval } => peek(core, session, *index, interval),
        Act::Put { table, key, new } => put(core, journal, session, *table, key, new),
        Act::Pay => Ok(pay(core, journal, session)),
        Act::Ghost => make_ghost(core, journal, session),
        Act::UndoOne => Ok(undo_one(core, journal, session)),
        Act::End => Ok(end(core, journal, session)),
        Act::Commit => Ok(commit(core, journal, session)),
        Act::Schema(statement) => define(core, journal, session, statement),
        Act::Clean => Ok(clean(core, journal)),
        Act::Prune => Ok(prune(core)),
        Act::Checkpoint => Ok(save(core, journal)),
        Act::Cancel => Ok(cancel(core, session)),
    }
}

// Does an act, and answers it; a want of memory is an answer too.
fn answer<M: SortedMaps, J: Checkpoints<M>>(
    core: &mut CoreState<M>,
    journal: &mut J,
    session: u32,
    asked: &Act,
) -> Answer
    requires { CanGive M.maps M.spare M.limit J.has J.limit core.old journal.old session (act_of asked.now) }
    ensures gives { MayGiveUp M.maps M.spare M.limit J.has J.limit J.medium J.leaves core.old journal.old session (act_of asked.now) (answer_of result) core.new journal.new }
    ensures faults { CountsFault result (J.faults (J.medium journal.old)) (J.faults (J.medium journal.new)) }
{
    match act(core, journal, session, asked) {
        Ok(said) => said,
        Err(NoMemory) => Answer::Refused(EngineRefusal::NoMemory),
    }
}

// Whether an answer tells that the disk failed.
fn tells_fault(said: &Answer) -> bool
    ensures { result ≡ is_fault (answer_of said.now) }
{
    matches!(said, Answer::Refused(EngineRefusal::DiskFault))
}

// How many records wait where the disk fails an act: a checkpoint has none of its own.
fn waiting_of(act: &Act) -> u64
    ensures counts { result ≡ waiting_after (act_of act.now) }
    ensures one { result ≤ 1 }
{
    match act {
        Act::Checkpoint => 0,
        _ => 1,
    }
}

// Does a step of a core that is not stopped: the session waits for nothing any more, the act is answered, and the step counted. A
// step at which the disk failed stops the core.
fn run<M: SortedMaps, J: Checkpoints<M>>(
    core: &mut CoreState<M>,
    journal: &mut J,
    step: &Step,
) -> Answer
    requires { (s : State) × (rs : Records) × Stands M.maps M.spare M.limit core.old s × IsBehind M.maps M.spare M.limit J.has J.limit core.old journal.old s.log rs × (s.stop ≡ None) × IsAsked s step.now × (rs.saves ≤ s.steps + 1) }
    ensures recorded { (s : State) (rs : Records) → Stands M.maps M.spare M.limit core.old s → IsBehind M.maps M.spare M.limit J.has J.limit core.old journal.old s.log rs → s.stop ≡ None → IsAsked s step.now
        → Recorded M.maps M.spare M.limit J.has J.limit J.medium J.leaves s step.now.session (act_of step.now.act) (answer_of result) rs journal.old core.new journal.new }
    ensures faults { CountsFault result (J.faults (J.medium journal.old)) (J.faults (J.medium journal.new)) }
{
    core.open_step(step.session);
    let said = answer(core, journal, step.session, &step.act);
    if tells_fault(&said) {
        core.fail_step(step.session, waiting_of(&step.act));
    } else {
        core.close_step(step.session, &said);
    }
    said
}

/// Does a step, and gives its records to the journal: of a core that is stopped the session is told so.
pub fn do_one<M: SortedMaps, J: Checkpoints<M>>(
    core: &mut CoreState<M>,
    journal: &mut J,
    step: &Step,
) -> Answer
    requires { (s : State) × (rs : Records) × Stands M.maps M.spare M.limit core.old s × (s.stop ≡ None → IsBehind M.maps M.spare M.limit J.has J.limit core.old journal.old s.log rs) × IsAsked s step.now × (rs.saves ≤ s.steps + 1) }
    ensures recorded { (s : State) (rs : Records) → Stands M.maps M.spare M.limit core.old s → (s.stop ≡ None → IsBehind M.maps M.spare M.limit J.has J.limit core.old journal.old s.log rs) → IsAsked s step.now
        → Recorded M.maps M.spare M.limit J.has J.limit J.medium J.leaves s step.now.session (act_of step.now.act) (answer_of result) rs journal.old core.new journal.new }
    ensures faults { CountsFault result (J.faults (J.medium journal.old)) (J.faults (J.medium journal.new)) }
{
    match core.stop {
        Some(number) => {
            core.tell_of_stop(step.session);
            Answer::Refused(EngineRefusal::Stopped(number))
        }
        None => run(core, journal, step),
    }
}
