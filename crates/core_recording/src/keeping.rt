//! Acts that keep a step which can be taken back: Put and Pay.
ghost use Rattle.std.specs.Prelude.{◌≡◌, IfOk, OnErr};
ghost use Rattle.txn_machine.specs.Acts as act;
ghost use Rattle.txn_machine.specs.Acts.{Act};
ghost use Rattle.txn_machine.specs.May.{MayAct};
ghost use Rattle.txn_machine.specs.State.{State};
ghost use Rattle.txn_book.specs.Acts.{answer_of};
ghost use Rattle.core_journal.specs.Records.{Records, records_after};
ghost use Rattle.core_state.specs.Stands.{Began, Told};
ghost use Rattle.core_recording.specs.Giving.{CanGive, Gives, IsUngiven};
ghost use Rattle.core_recording.specs.Kept.{MayKeep, is_kept};

use crate::latest::give_latest;
use core_changes as changes;
use core_journal::Journal;
use core_pays as pays;
use core_state::CoreState;
use iv_types::{Bytes, NoMemory, Row, SortedMaps};
use record_lending::short_law;
use txn_book::Answer;

// Whether an answer says that a step is kept.
fn has_kept(said: &Answer) -> bool
    ensures { result ≡ is_kept (answer_of said.now) }
{
    matches!(said, Answer::Changed { .. } | Answer::Paid { .. })
}

// Gives the record of the step that an act kept, where its answer says so.
#[tactic(none)]
fn give_kept<M: SortedMaps, J: Journal>(
    core: &CoreState<M>,
    journal: &mut J,
    session: u32,
    said: &Answer,
)
    requires { (a : Act) × MayKeep a × IsUngiven M.maps M.spare M.limit J.has J.limit core.now journal.old session a (answer_of said.now) }
    ensures gave { (s : State) (a : Act) → MayKeep a → MayAct s.store session a → (told : Told M.maps M.spare M.limit s session a (answer_of said.now) core.now) → (rs : Records) → J.has journal.old rs
        → J.has journal.new (records_after s session a (answer_of said.now) told.effects rs) }
    ensures limit { J.limit journal.new ≡ J.limit journal.old }
    ensures medium { J.medium journal.new ≡ J.medium journal.old }
{
    short_law();
    let kept = has_kept(said);
    if !kept {
        return;
    }
    give_latest(core, journal, session);
}

/// Makes a row of a table the new one under its key, or takes it away, and gives the record of that to the journal.
///
/// # Errors
///
/// Where there is no memory for it. Nothing is changed then but room.
#[tactic(none)]
pub fn put<M: SortedMaps, J: Journal>(
    core: &mut CoreState<M>,
    journal: &mut J,
    session: u32,
    table: u32,
    key: &Bytes,
    new: &Option<Row>,
) -> Result<Answer, NoMemory>
    requires { CanGive M.maps M.spare M.limit J.has J.limit core.old journal.old session (act.Put table key.now new.now) }
    ensures gives { IfOk result (λ said. Gives M.maps M.spare M.limit J.has J.limit J.medium J.leaves core.old journal.old session (act.Put table key.now new.now) (answer_of said) core.new journal.new) }
    ensures err { OnErr result ((s : State) → Began M.maps M.spare M.limit core.old s session → MayAct s.store session (act.Put table key.now new.now) → Began M.maps M.spare M.limit core.new s session) }
    ensures ungiven { OnErr result (journal.new ≡ journal.old) }
    ensures medium { J.medium journal.new ≡ J.medium journal.old }
{
    let said = changes::put(core, session, table, key, new)?;
    give_kept(core, journal, session, &said);
    Ok(said)
}

/// Adds the first delta that a session owes to its view row, under its lock, and gives the record of that to the journal. Takes no
/// memory.
#[tactic(none)]
pub fn pay<M: SortedMaps, J: Journal>(
    core: &mut CoreState<M>,
    journal: &mut J,
    session: u32,
) -> Answer
    requires { CanGive M.maps M.spare M.limit J.has J.limit core.old journal.old session act.Pay }
    ensures gives { Gives M.maps M.spare M.limit J.has J.limit J.medium J.leaves core.old journal.old session act.Pay (answer_of result) core.new journal.new }
    ensures medium { J.medium journal.new ≡ J.medium journal.old }
{
    let said = pays::pay(core, session);
    give_kept(core, journal, session, &said);
    said
}
