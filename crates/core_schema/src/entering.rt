//! A definition is entered.
ghost use Rattle.std.specs.Prelude.{◌≡◌, ◌≢◌, ◌+◌, ◌-◌, ◌^◌, ◌≤◌, ◌<◌, ◌∷◌, ◌++◌, [], ℕ, List, length, min, true, false, IfOk, OnOk, OnErr};
ghost use Rattle.iv_types.specs.Definitions.{Definitions, number_of};
ghost use Rattle.iv_types.specs.Faults.{Rose};
ghost use Rattle.iv_types.specs.declared.catalog.Definition.{Definition as AnyDefinition};
ghost use Rattle.iv_types.specs.declared.value.Value.TheVariants.{Word};
ghost use Rattle.iv_types.specs.Syntax.{StatementTree};
ghost use Rattle.txn_machine.specs.Acts as act;
ghost use Rattle.txn_machine.specs.Answers as answer;
ghost use Rattle.table_store.specs.Changes.{sizes};
ghost use Rattle.txn_machine.specs.Counts.{entry_size, text_size};
ghost use Rattle.txn_machine.specs.Log.{definition_entries};
ghost use Rattle.txn_machine.specs.State.{State, is_fault};
ghost use Rattle.txn_book.specs.Acts.{answer_of};
ghost use Rattle.txn_book.specs.Books.{how_many_open};
ghost use Rattle.core_journal.specs.Records.{Records};
ghost use Rattle.core_state.specs.Stands.{Began, Told};
ghost use Rattle.core_recording.specs.Giving.{IsBehind, Did};
ghost use Rattle.definition_parts.specs.Parts.{part_entries};
ghost use Rattle.iv_types.specs.declared.lock.IndexEntry.{IndexEntry as AnyEntry};
ghost use Rattle.txn_log.specs.Stored.{in_parts};
ghost use Rattle.core_schema.specs.Making.{MayEnter, IsReady, IsTextOf, HaveText, with_catalog};

use core_journal::Journal;
use core_recording::{give_and_flush, next_commit};
use core_state::CoreState;
use data_defining::{enter_first, reserve_first};
use data_store::{definition_entries as text_entries, definition_need, definition_size};
use definition_parts::{parts_of, put_parts, reserve_parts};
use iv_types::{
    Bytes, Change, ChangeList, Definition, EngineRefusal, IndexEntry, IndexEntryList, NoMemory,
    Row, SortedMaps, Value,
};
use record_lending::definition_of;
use std::alloc::Global;
use txn_book::{Answer, ENTRY_BYTES};

/// What a definition of this text counts in the history, with its entry.
pub(crate) fn entry_need(text: &[u8]) -> u64
    ensures { result ≡ min (entry_size + text_size text.now) (2 ^ 64 - 1) }
{
    ENTRY_BYTES.saturating_add(definition_size(text))
}

// What these entries count in the data.
fn entries_size(entries: &[IndexEntry]) -> u64
    ensures { result ≡ min (sizes entries.now) (2 ^ 64 - 1) }
{
    let mut size: u64 = 0;
    for entry in entries {
        let key = entry.key.as_slice().len() as u64;
        let value = entry.value.as_slice().len() as u64;
        size = size.saturating_add(key.saturating_add(value).saturating_add(8));
    }
    size
}

/// What a definition of this text counts in the data, with the entries that its object begins with.
pub(crate) fn data_need(text: &[u8], first: &[IndexEntry]) -> u64
    ensures { result ≡ min (definition_entries text.now + sizes first.now) (2 ^ 64 - 1) }
{
    text_entries(text).saturating_add(entries_size(first))
}

// The change of an entry of a definition: table 0, as key the four bytes of the object number, and its text as the one Word of
// the row after it.
fn text_change(alloc: Global, number: u32, text: Bytes) -> Result<Change, NoMemory>
    ensures { IfOk result (IsTextOf text) }
{
    let key = Bytes::from_vec(Vec::from_slice(alloc, &number.to_be_bytes())?);
    let mut row = Row::new(alloc);
    row.push(Value::Word(text))?;
    Ok(Change {
        table: 0,
        key,
        before: None,
        after: Some(row),
    })
}

// The same as a list.
fn text_changes(alloc: Global, number: u32, text: Bytes) -> Result<ChangeList, NoMemory>
    ensures { IfOk result (HaveText text) }
{
    let change = text_change(alloc, number, text)?;
    let mut changes = ChangeList::new(alloc);
    changes.push(change)?;
    Ok(changes)
}

// Makes room for an entry in the history, for the entries that an object of this number begins with, and for the parts of its text.
fn reserve<M: SortedMaps>(
    core: &mut CoreState<M>,
    number: u32,
    first: &[IndexEntry],
    text: &[u8],
) -> Result<(), NoMemory>
    requires first { length first.now < 2 ^ 32 }
    requires text { length text.now < 2 ^ 32 }
    ensures entry { OnOk result (how_many_open core.new.book.opens + 1 ≤ core.new.book.room) }
    ensures first { OnOk result (length first.now ≤ M.spare core.new.store.tables number) }
    ensures parts { OnOk result (length (in_parts text.now) ≤ M.spare core.new.store.tables 0) }
    ensures maps { (i : ℕ) → M.maps core.new.store.tables i ≡ M.maps core.old.store.tables i }
    ensures limit { M.limit core.new.store.tables ≡ M.limit core.old.store.tables }
    ensures began { (s : State) (session : ℕ) → Began M.maps M.spare M.limit core.old s session → Began M.maps M.spare M.limit core.new s session }
    ensures rest { core.new ≡ record core.old { store = record core.old.store { tables = core.new.store.tables }; book = core.new.book } }
{
    core.book.reserve_entry()?;
    reserve_first(&mut core.store, number, first)?;
    reserve_parts(core.store.tables.maps_mut(), text)?;
    Ok(())
}

// The bytes of a row of one Word.
fn word_of(row: &Row) -> &[u8]
    requires { (text : List ℕ) × (row.now ≡ Word text ∷ []) }
    ensures { (text : List ℕ) → row.now ≡ Word text ∷ [] → result.now ≡ text }
{
    match row.as_slice().first() {
        Some(Value::Word(text)) => text.as_slice(),
        _ => unreachable!(),
    }
}

// The text of a definition, out of its one change.
fn text_of(changes: &ChangeList) -> &[u8]
    requires { (text : List ℕ) × HaveText text changes.now }
    ensures { (text : List ℕ) → HaveText text changes.now → result.now ≡ text }
{
    match changes.as_slice().first() {
        Some(
            Change {
                after: Some(row),
                ..
            },
        ) => word_of(row),
        _ => unreachable!(),
    }
}

// Takes the memory that a definition needs: for its change, its entry in the history and what it begins with; and adds it to the
// catalog. Nothing else is changed.
fn make_ready<M: SortedMaps>(
    core: &mut CoreState<M>,
    definition: Definition,
    first: &IndexEntryList,
    text: Bytes,
) -> Result<ChangeList, NoMemory>
    requires { (s : State) × (session : ℕ) × (statement : StatementTree) × (need : ℕ) × MayEnter M.maps M.spare M.limit s core.old session statement definition first.now text need }
    ensures ready { IfOk result (λ changes. (s : State) (session : ℕ) (statement : StatementTree) (need : ℕ) → MayEnter M.maps M.spare M.limit s core.old session statement definition first.now text need
        → (parts : List AnyEntry) → parts ≡ part_entries (number_of definition) text → IsReady M.maps M.spare M.limit s core.new session statement (number_of definition) first.now parts changes need) }
    ensures err { OnErr result ((s : State) (session : ℕ) → Began M.maps M.spare M.limit core.old s session → Began M.maps M.spare M.limit core.new s session) }
{
    let number = definition.number();
    let changes = text_changes(core.alloc, number, text)?;
    reserve(core, number, first.as_slice(), text_of(&changes))?;
    core.book.book_law();
    core.store.catalog.add(definition)?;
    Ok(changes)
}

// Enters the definition that stands last in the catalog, whose record is on the disk, with the entries that it begins with and the
// parts of its text, and gives its number in the history. Takes no memory.
fn enter_flushed<M: SortedMaps>(
    core: &mut CoreState<M>,
    session: u32,
    number: u32,
    first: IndexEntryList,
    parts: IndexEntryList,
    changes: ChangeList,
    need: u64,
) -> u64
    requires { (s : State) × (statement : StatementTree) × IsReady M.maps M.spare M.limit s core.old session statement number first parts changes need }
    ensures { (s : State) (statement : StatementTree) → IsReady M.maps M.spare M.limit s core.old session statement number first parts changes need
        → Told M.maps M.spare M.limit s session (act.Schema statement) (answer.Committed result) core.new }
{
    let log_bytes = definition_need(text_of(&changes));
    core.book.book_law();
    enter_first(&mut core.store, number, first);
    put_parts(core.store.tables.maps_mut(), parts);
    let commit = core.book.define(session, changes, need);
    core.next += 1;
    core.log_room.define(log_bytes);
    commit
}

// Takes the definition out of the catalog again that stands last in it.
fn take_back<M: SortedMaps>(core: &mut CoreState<M>)
    requires { (before : Definitions) × (definition : AnyDefinition) × (core.old.store.catalog ≡ before ++ definition ∷ []) }
    ensures { (before : Definitions) (definition : AnyDefinition) → core.old.store.catalog ≡ before ++ definition ∷ [] → core.new ≡ with_catalog before core.old }
{
    match core.store.catalog.remove_last() {
        Some(definition) => definition.let_go(),
        None => unreachable!(),
    }
}

/// Enters a definition, for which the log, the data and the history have room, with the entries that it begins with and the parts of
/// its text. No transaction is open. Its record is given to the journal and flushed once all memory is taken, before anything but the
/// catalog is changed; where the disk fails, the answer is that fault, and the definition is taken out of the catalog again.
///
/// # Errors
///
/// Where there is no memory for it. Nothing is changed then but room.
pub(crate) fn enter<M: SortedMaps, J: Journal>(
    core: &mut CoreState<M>,
    journal: &mut J,
    session: u32,
    definition: Definition,
    first: IndexEntryList,
    text: Bytes,
    need: u64,
) -> Result<Answer, NoMemory>
    requires { (s : State) × (statement : StatementTree) × (rs : Records) × MayEnter M.maps M.spare M.limit s core.old session statement definition first text need × IsBehind M.maps M.spare M.limit J.has J.limit core.old journal.old s.log rs }
    ensures did { IfOk result (λ said. (s : State) (statement : StatementTree) → MayEnter M.maps M.spare M.limit s core.old session statement definition first text need
        → Did M.maps M.spare M.limit J.has J.limit J.medium J.leaves s session (act.Schema statement) (answer_of said) core.old journal.old core.new journal.new) }
    ensures faults { IfOk result (λ said. is_fault (answer_of said) ≡ false → J.faults (J.medium journal.new) ≡ J.faults (J.medium journal.old)) }
    ensures rose { IfOk result (λ said. is_fault (answer_of said) ≡ true → Rose (J.faults (J.medium journal.old)) (J.faults (J.medium journal.new))) }
    ensures err { OnErr result ((s : State) → Began M.maps M.spare M.limit core.old s session → Began M.maps M.spare M.limit core.new s session) }
    ensures ungiven { OnErr result (journal.new ≡ journal.old) }
{
    let number = definition.number();
    let next = core.next;
    let commit = next_commit(core);
    let parts = parts_of(core.alloc, number, text.as_slice())?;
    let changes = make_ready(core, definition, &first, text)?;
    let lent = definition_of(commit, session, text_of(&changes));
    match give_and_flush(journal, next, lent) {
        Ok(()) => {
            let entered = enter_flushed(core, session, number, first, parts, changes, need);
            Ok(Answer::Committed(entered))
        }
        Err(_fault) => {
            take_back(core);
            Ok(Answer::Refused(EngineRefusal::DiskFault))
        }
    }
}
