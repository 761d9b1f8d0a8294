//! CREATE statements.
ghost use Rattle.std.specs.Prelude.{◌≡◌, ◌≢◌, true, false, IfOk, OnErr};
ghost use Rattle.iv_types.specs.Faults.{Rose};
ghost use Rattle.iv_types.specs.Syntax.{StatementTree};
ghost use Rattle.iv_types.specs.Trees.{statement_tree};
ghost use Rattle.iv_types.specs.declared.refusal.Refusal.TheVariants as refused;
ghost use Rattle.iv_meaning.specs.Bound.{bound_tree};
ghost use Rattle.iv_meaning.specs.Objects.{object_of};
ghost use Rattle.iv_meaning.specs.Schema.{Object};
ghost use Rattle.iv_meaning.specs.Statement as meaning;
ghost use Rattle.txn_machine.specs.Acts as act;
ghost use Rattle.txn_machine.specs.State.{State, is_fault};
ghost use Rattle.txn_book.specs.Acts.{answer_of};
ghost use Rattle.txn_book.specs.declared.step.Answer.TheVariants as answer;
ghost use Rattle.core_journal.specs.Records.{Records};
ghost use Rattle.core_state.specs.Stands.{Began};
ghost use Rattle.core_recording.specs.Giving.{CanGive, IsBehind, Did, MayGiveUp};
ghost use Rattle.core_schema.specs.Making.{IsMade, MayMake, MayBegin, MayFit, MayLog, MayKeep};

use crate::entering::{data_need, enter, entry_need};
use core_journal::Journal;
use core_state::{CoreState, MOST_OF_HISTORY, fits};
use data_defining::first_entries;
use data_store::definition_need;
use iv_types::{
    Bound, Bytes, Definition, EngineRefusal, IndexEntryList, NoMemory, Refusal, SortedMaps,
    Statement,
};
use sql_bind::bind;
use sql_print::statement_text;
use txn_book::Answer;

// What a CREATE statement was bound to.
fn definition_of(bound: Bound) -> Definition
    requires { (o : Object) × (bound_tree bound ≡ meaning.create o) }
    ensures { bound_tree bound ≡ meaning.create (object_of result) }
{
    match bound {
        Bound::Table(table) => Definition::Table(table),
        Bound::Index(index) => Definition::Index(index),
        Bound::View(view) => Definition::View(view),
        _ => unreachable!(),
    }
}

// The answer of a statement that is refused for what it means.
fn denied(refusal: Refusal) -> Result<Answer, NoMemory>
    ensures { IfOk result (λ said. (said ≡ answer.Denied refusal) × (refusal ≢ refused.NoMemory)) }
{
    match refusal {
        Refusal::NoMemory => Err(NoMemory),
        why => Ok(Answer::Denied(why)),
    }
}

// Enters a definition of this text, for which the data have room, where the history has room for it.
fn enter_kept<M: SortedMaps, J: Journal>(
    core: &mut CoreState<M>,
    journal: &mut J,
    session: u32,
    definition: Definition,
    first: IndexEntryList,
    text: Bytes,
) -> Result<Answer, NoMemory>
    requires { (s : State) × (statement : StatementTree) × (rs : Records) × MayKeep M.maps M.spare M.limit s core.old session statement definition first text × IsBehind M.maps M.spare M.limit J.has J.limit core.old journal.old s.log rs }
    ensures did { IfOk result (λ said. (s : State) (statement : StatementTree) → MayKeep M.maps M.spare M.limit s core.old session statement definition first text
        → Did M.maps M.spare M.limit J.has J.limit J.medium J.leaves s session (act.Schema statement) (answer_of said) core.old journal.old core.new journal.new) }
    ensures faults { IfOk result (λ said. is_fault (answer_of said) ≡ false → J.faults (J.medium journal.new) ≡ J.faults (J.medium journal.old)) }
    ensures rose { IfOk result (λ said. is_fault (answer_of said) ≡ true → Rose (J.faults (J.medium journal.old)) (J.faults (J.medium journal.new))) }
    ensures err { OnErr result ((s : State) → Began M.maps M.spare M.limit core.old s session → Began M.maps M.spare M.limit core.new s session) }
    ensures ungiven { OnErr result (journal.new ≡ journal.old) }
{
    core.book.book_law();
    let need = entry_need(text.as_slice());
    let kept = core.book.history_bytes();
    if fits(kept, need, MOST_OF_HISTORY) {
        return enter(core, journal, session, definition, first, text, need);
    }
    definition.let_go();
    Ok(Answer::Refused(EngineRefusal::HistoryFull { kept, need }))
}

// Enters a definition of this text, where the data and the history have room for it.
fn enter_logged<M: SortedMaps, J: Journal>(
    core: &mut CoreState<M>,
    journal: &mut J,
    session: u32,
    definition: Definition,
    first: IndexEntryList,
    text: Bytes,
) -> Result<Answer, NoMemory>
    requires { (s : State) × (statement : StatementTree) × (rs : Records) × MayLog M.maps M.spare M.limit s core.old session statement definition first text × IsBehind M.maps M.spare M.limit J.has J.limit core.old journal.old s.log rs }
    ensures did { IfOk result (λ said. (s : State) (statement : StatementTree) → MayLog M.maps M.spare M.limit s core.old session statement definition first text
        → Did M.maps M.spare M.limit J.has J.limit J.medium J.leaves s session (act.Schema statement) (answer_of said) core.old journal.old core.new journal.new) }
    ensures faults { IfOk result (λ said. is_fault (answer_of said) ≡ false → J.faults (J.medium journal.new) ≡ J.faults (J.medium journal.old)) }
    ensures rose { IfOk result (λ said. is_fault (answer_of said) ≡ true → Rose (J.faults (J.medium journal.old)) (J.faults (J.medium journal.new))) }
    ensures err { OnErr result ((s : State) → Began M.maps M.spare M.limit core.old s session → Began M.maps M.spare M.limit core.new s session) }
    ensures ungiven { OnErr result (journal.new ≡ journal.old) }
{
    let need = data_need(text.as_slice(), first.as_slice());
    match core.full_of_data(need) {
        Some(used) => {
            definition.let_go();
            Ok(Answer::Refused(EngineRefusal::DataFull { used, need }))
        }
        None => enter_kept(core, journal, session, definition, first, text),
    }
}

// Enters a definition of this text, where the log, the data and the history have room for it.
fn enter_fitting<M: SortedMaps, J: Journal>(
    core: &mut CoreState<M>,
    journal: &mut J,
    session: u32,
    definition: Definition,
    first: IndexEntryList,
    text: Bytes,
) -> Result<Answer, NoMemory>
    requires { (s : State) × (statement : StatementTree) × (rs : Records) × MayFit M.maps M.spare M.limit s core.old session statement definition first text × IsBehind M.maps M.spare M.limit J.has J.limit core.old journal.old s.log rs }
    ensures did { IfOk result (λ said. (s : State) (statement : StatementTree) → MayFit M.maps M.spare M.limit s core.old session statement definition first text
        → Did M.maps M.spare M.limit J.has J.limit J.medium J.leaves s session (act.Schema statement) (answer_of said) core.old journal.old core.new journal.new) }
    ensures faults { IfOk result (λ said. is_fault (answer_of said) ≡ false → J.faults (J.medium journal.new) ≡ J.faults (J.medium journal.old)) }
    ensures rose { IfOk result (λ said. is_fault (answer_of said) ≡ true → Rose (J.faults (J.medium journal.old)) (J.faults (J.medium journal.new))) }
    ensures err { OnErr result ((s : State) → Began M.maps M.spare M.limit core.old s session → Began M.maps M.spare M.limit core.new s session) }
    ensures ungiven { OnErr result (journal.new ≡ journal.old) }
{
    match core.log_room.refusal(definition_need(text.as_slice())) {
        Some(why) => {
            definition.let_go();
            Ok(Answer::Refused(why))
        }
        None => enter_logged(core, journal, session, definition, first, text),
    }
}

// Makes an object that begins with these entries.
fn make_with<M: SortedMaps, J: Journal>(
    core: &mut CoreState<M>,
    journal: &mut J,
    session: u32,
    statement: &Statement,
    definition: Definition,
    first: IndexEntryList,
) -> Result<Answer, NoMemory>
    requires { (s : State) × (rs : Records) × MayBegin M.maps M.spare M.limit s core.old session (statement_tree statement.now) definition first × IsBehind M.maps M.spare M.limit J.has J.limit core.old journal.old s.log rs }
    ensures did { IfOk result (λ said. (s : State) → MayBegin M.maps M.spare M.limit s core.old session (statement_tree statement.now) definition first
        → Did M.maps M.spare M.limit J.has J.limit J.medium J.leaves s session (act.Schema (statement_tree statement.now)) (answer_of said) core.old journal.old core.new journal.new) }
    ensures faults { IfOk result (λ said. is_fault (answer_of said) ≡ false → J.faults (J.medium journal.new) ≡ J.faults (J.medium journal.old)) }
    ensures rose { IfOk result (λ said. is_fault (answer_of said) ≡ true → Rose (J.faults (J.medium journal.old)) (J.faults (J.medium journal.new))) }
    ensures err { OnErr result ((s : State) → Began M.maps M.spare M.limit core.old s session → Began M.maps M.spare M.limit core.new s session) }
    ensures ungiven { OnErr result (journal.new ≡ journal.old) }
{
    let text = statement_text(core.alloc, statement)?;
    enter_fitting(core, journal, session, definition, first, text)
}

// Makes an object where no transaction is open.
fn make_alone<M: SortedMaps, J: Journal>(
    core: &mut CoreState<M>,
    journal: &mut J,
    session: u32,
    statement: &Statement,
    definition: Definition,
) -> Result<Answer, NoMemory>
    requires { (s : State) × (rs : Records) × MayMake M.maps M.spare M.limit s core.old session (statement_tree statement.now) definition × IsBehind M.maps M.spare M.limit J.has J.limit core.old journal.old s.log rs }
    ensures did { IfOk result (λ said. (s : State) → MayMake M.maps M.spare M.limit s core.old session (statement_tree statement.now) definition
        → Did M.maps M.spare M.limit J.has J.limit J.medium J.leaves s session (act.Schema (statement_tree statement.now)) (answer_of said) core.old journal.old core.new journal.new) }
    ensures faults { IfOk result (λ said. is_fault (answer_of said) ≡ false → J.faults (J.medium journal.new) ≡ J.faults (J.medium journal.old)) }
    ensures rose { IfOk result (λ said. is_fault (answer_of said) ≡ true → Rose (J.faults (J.medium journal.old)) (J.faults (J.medium journal.new))) }
    ensures err { OnErr result ((s : State) → Began M.maps M.spare M.limit core.old s session → Began M.maps M.spare M.limit core.new s session) }
    ensures ungiven { OnErr result (journal.new ≡ journal.old) }
{
    match first_entries(&core.store, &definition) {
        Ok(first) => make_with(core, journal, session, statement, definition, first),
        Err(refusal) => {
            definition.let_go();
            denied(refusal)
        }
    }
}

// Makes what a statement was bound to, where no transaction is open.
fn make<M: SortedMaps, J: Journal>(
    core: &mut CoreState<M>,
    journal: &mut J,
    session: u32,
    statement: &Statement,
    definition: Definition,
) -> Result<Answer, NoMemory>
    requires { (s : State) × (rs : Records) × IsMade M.maps M.spare M.limit s core.old session (statement_tree statement.now) definition × IsBehind M.maps M.spare M.limit J.has J.limit core.old journal.old s.log rs }
    ensures did { IfOk result (λ said. (s : State) → IsMade M.maps M.spare M.limit s core.old session (statement_tree statement.now) definition
        → Did M.maps M.spare M.limit J.has J.limit J.medium J.leaves s session (act.Schema (statement_tree statement.now)) (answer_of said) core.old journal.old core.new journal.new) }
    ensures faults { IfOk result (λ said. is_fault (answer_of said) ≡ false → J.faults (J.medium journal.new) ≡ J.faults (J.medium journal.old)) }
    ensures rose { IfOk result (λ said. is_fault (answer_of said) ≡ true → Rose (J.faults (J.medium journal.old)) (J.faults (J.medium journal.new))) }
    ensures err { OnErr result ((s : State) → Began M.maps M.spare M.limit core.old s session → Began M.maps M.spare M.limit core.new s session) }
    ensures ungiven { OnErr result (journal.new ≡ journal.old) }
{
    match core.book.least_open() {
        Some(least) => {
            definition.let_go();
            Ok(Answer::Refused(EngineRefusal::SchemaBusy(least)))
        }
        None => make_alone(core, journal, session, statement, definition),
    }
}

/// Runs a CREATE statement: it is refused for what it means where that can be told without rows, then where a transaction is
/// open, then where a view's rows can't be evaluated, and where the log, the data or the history have no room for it. Else the
/// object is defined, as an entry of the next number, with the entries of its index or the rows of its view. The record of that is
/// given to the journal and flushed before; where the disk fails, the answer is that fault, and nothing is defined.
///
/// # Errors
///
/// Where there is no memory for it. Nothing is changed then but room.
pub fn define<M: SortedMaps, J: Journal>(
    core: &mut CoreState<M>,
    journal: &mut J,
    session: u32,
    statement: &Statement,
) -> Result<Answer, NoMemory>
    requires { CanGive M.maps M.spare M.limit J.has J.limit core.old journal.old session (act.Schema (statement_tree statement.now)) }
    ensures gives { IfOk result (λ said. MayGiveUp M.maps M.spare M.limit J.has J.limit J.medium J.leaves core.old journal.old session (act.Schema (statement_tree statement.now)) (answer_of said) core.new journal.new) }
    ensures faults { IfOk result (λ said. is_fault (answer_of said) ≡ false → J.faults (J.medium journal.new) ≡ J.faults (J.medium journal.old)) }
    ensures rose { IfOk result (λ said. is_fault (answer_of said) ≡ true → Rose (J.faults (J.medium journal.old)) (J.faults (J.medium journal.new))) }
    ensures err { OnErr result ((s : State) → Began M.maps M.spare M.limit core.old s session → Began M.maps M.spare M.limit core.new s session) }
    ensures ungiven { OnErr result (journal.new ≡ journal.old) }
{
    match bind(core.alloc, &core.store.catalog, statement) {
        Ok(bound) => make(core, journal, session, statement, definition_of(bound)),
        Err(refusal) => denied(refusal),
    }
}
