//! Whether a step may be asked for, as tests: each fails where it may not.
ghost use Rattle.std.specs.Prelude.{◌≡◌, ◌≢◌, List, ◌∷◌, [], reverse, true, false, Some, None, IfOk, OnOk};
ghost use Rattle.iv_types.specs.declared.statement.Mode.TheVariants.{Serial};
ghost use Rattle.iv_types.specs.declared.lock.GroupDelta.{GroupDelta as Delta};
ghost use Rattle.iv_types.specs.Trees.{statement_tree};
ghost use Rattle.iv_meaning.specs.Schema.{numbered};
ghost use Rattle.iv_meaning.specs.Objects.{schema_of};
ghost use Rattle.iv_meaning.specs.Escrow.{IsSession};
ghost use Rattle.table_store.specs.Stored.{stored};
ghost use Rattle.txn_machine.specs.Acts as machine;
ghost use Rattle.txn_machine.specs.May.{IsReady, Owes, IsCreate, MayLock, MayPeek, MayPut, MayAct, FitsUnder};
ghost use Rattle.txn_machine.specs.State.{State};
ghost use Rattle.txn_book.specs.Acts.{act_of};
ghost use Rattle.txn_book.specs.Moves.{IsAsked};
ghost use Rattle.txn_book.specs.Opens.{open_at};
ghost use Rattle.core_cases.specs.Asking.{IsAt, IsSpelt};

use crate::keys::key_of;
use anyhow::bail;
use core_state::CoreState;
use iv_types::{Bytes, Catalog, Definition, GroupDelta, LockMode, Mode, Row, Statement, TableDef};
use ordered_index::PageMaps;
use row_codec::{encode_row, row_fits};
use std::alloc::Global;
use txn_book::{Act, Open, Step};

// It is a session's number.
fn is_session(session: u32) -> anyhow::Result<()>
    ensures { OnOk result (IsSession session) }
{
    if session < 1 || session > 64 {
        bail!("no session");
    }
    Ok(())
}

// No transaction of the session is open.
fn is_closed(core: &CoreState<PageMaps>, session: u32) -> anyhow::Result<()>
    ensures of_session { OnOk result (IsSession session) }
    ensures closed { OnOk result ((s : State) → IsAt core.now s → s.store.open_of session ≡ None) }
{
    is_session(session)?;
    match core.book.get(session) {
        Some(_) => bail!("a transaction is open"),
        None => Ok(()),
    }
}

// The session's transaction.
fn open_of(core: &CoreState<PageMaps>, session: u32) -> anyhow::Result<&Open>
    ensures of_session { OnOk result (IsSession session) }
    ensures there { IfOk result (λ txn. open_at core.now.book.opens session ≡ Some txn.now) }
{
    is_session(session)?;
    match core.book.get(session) {
        Some(txn) => Ok(txn),
        None => bail!("no transaction is open"),
    }
}

// The session's transaction, which is of this mode and which no deadlock met.
fn goes_on(core: &CoreState<PageMaps>, session: u32, mode: Mode) -> anyhow::Result<&Open>
    ensures of_session { OnOk result (IsSession session) }
    ensures there { IfOk result (λ txn. open_at core.now.book.opens session ≡ Some txn.now) }
    ensures mode { IfOk result (λ txn. txn.now.mode ≡ mode) }
    ensures not_lost { IfOk result (λ txn. txn.now.is_lost ≡ false) }
{
    let txn = open_of(core, session)?;
    if txn.mode != mode || txn.is_lost {
        bail!("a transaction of another mode, or one that a deadlock met");
    }
    Ok(txn)
}

// The session's transaction of this mode owes nothing.
fn is_ready(core: &CoreState<PageMaps>, session: u32, mode: Mode) -> anyhow::Result<()>
    ensures { OnOk result ((s : State) → IsAt core.now s → IsReady s.store session mode) }
{
    if !goes_on(core, session, mode)?.owed.is_empty() {
        bail!("a delta is owed");
    }
    Ok(())
}

// It owes a delta, and none that is coming back.
fn owes(core: &CoreState<PageMaps>, session: u32) -> anyhow::Result<()>
    ensures { OnOk result ((s : State) → IsAt core.now s → Owes s.store session) }
{
    let txn = goes_on(core, session, Mode::Serial)?;
    if txn.owed.is_empty() || txn.back > 0 {
        bail!("no delta is owed that is to be paid");
    }
    Ok(())
}

// The first delta that a transaction owes.
fn first_owed(txn: &Open) -> anyhow::Result<&GroupDelta>
    ensures first { IfOk result (λ delta. (d : Delta) (ds : List Delta) → reverse txn.now.owed.items ≡ d ∷ ds → delta.now ≡ d) }
    ensures owes { OnOk result (txn.now.owed.items ≢ []) }
{
    match txn.owed.last() {
        Some(delta) => Ok(delta),
        None => bail!("no delta is owed"),
    }
}

// And the lock of its group is held.
fn holds_group(core: &CoreState<PageMaps>, session: u32) -> anyhow::Result<()>
    ensures { OnOk result ((s : State) → IsAt core.now s → MayAct s.store session machine.Ghost) }
{
    let txn = goes_on(core, session, Mode::Serial)?;
    let delta = first_owed(txn)?;
    if txn.back > 0 {
        bail!("a delta is coming back");
    }
    if !core.locks.holds(
        session,
        delta.view,
        delta.group.as_slice(),
        LockMode::Increment,
    ) {
        bail!("the lock of its group is not held");
    }
    Ok(())
}

// A step can be taken back.
fn keeps(core: &CoreState<PageMaps>, session: u32) -> anyhow::Result<()>
    ensures { OnOk result ((s : State) → IsAt core.now s → MayAct s.store session machine.UndoOne) }
{
    if open_of(core, session)?.kept.is_empty() {
        bail!("no step is kept");
    }
    Ok(())
}

// None can.
fn keeps_none(core: &CoreState<PageMaps>, session: u32) -> anyhow::Result<()>
    ensures { OnOk result ((s : State) → IsAt core.now s → MayAct s.store session machine.End) }
{
    if !open_of(core, session)?.kept.is_empty() {
        bail!("a step is kept");
    }
    Ok(())
}

fn may_commit(core: &CoreState<PageMaps>, session: u32) -> anyhow::Result<()>
    ensures { OnOk result ((s : State) → IsAt core.now s → MayAct s.store session machine.Commit) }
{
    match open_of(core, session)?.mode {
        Mode::Serial => is_ready(core, session, Mode::Serial),
        Mode::Snapshot => is_ready(core, session, Mode::Snapshot),
    }
}

fn may_lock(catalog: &Catalog, index: u32, mode: LockMode) -> anyhow::Result<()>
    ensures { OnOk result (MayLock mode (numbered (schema_of catalog.now) index)) }
{
    match (mode, catalog.get(index)) {
        (LockMode::Share, Some(_)) => Ok(()),
        (LockMode::Exclusive, Some(Definition::Table(_))) => Ok(()),
        (LockMode::Exclusive, Some(Definition::Index(_))) => Ok(()),
        _ => bail!("no lock"),
    }
}

fn may_peek(catalog: &Catalog, index: u32) -> anyhow::Result<()>
    ensures { OnOk result (MayPeek (numbered (schema_of catalog.now) index)) }
{
    match catalog.get(index) {
        Some(Definition::Table(_)) => Ok(()),
        Some(Definition::View(_)) => Ok(()),
        _ => bail!("no table or view"),
    }
}

fn is_create(statement: &Statement) -> anyhow::Result<()>
    ensures { OnOk result (IsCreate (statement_tree statement.now)) }
{
    match statement {
        Statement::CreateTable { .. } => Ok(()),
        Statement::CreateIndex { .. } => Ok(()),
        Statement::CreateView { .. } => Ok(()),
        _ => bail!("no CREATE statement"),
    }
}

// A row, or none, fits a table, and stands under this key.
fn fits_under(alloc: Global, table: &TableDef, key: &Bytes, row: &Option<Row>) -> anyhow::Result<()>
    ensures { OnOk result (FitsUnder table.now key.now row.now) }
{
    if let Some(row) = row {
        if !row_fits(table, row) || key_of(alloc, table, row)? != *key {
            bail!("a row that does not fit, or with another key");
        }
    }
    Ok(())
}

// The bytes of a row, or none.
fn bytes_of(alloc: Global, table: &TableDef, row: &Option<Row>) -> anyhow::Result<Option<Bytes>>
    ensures { IfOk result (λ bytes. bytes ≡ stored table.now row.now) }
{
    match row {
        Some(row) => {
            if !row_fits(table, row) {
                bail!("a row that does not fit");
            }
            Ok(Some(encode_row(alloc, table, row)?))
        }
        None => Ok(None),
    }
}

fn are_same(one: &Option<Bytes>, other: &Option<Bytes>) -> bool
    ensures { one.now ≡ other.now → result ≡ true }
{
    match (one, other) {
        (Some(one), Some(other)) => one == other,
        (None, None) => true,
        _ => false,
    }
}

// Two rows differ, or one is none.
fn differ(
    alloc: Global,
    table: &TableDef,
    one: &Option<Row>,
    other: &Option<Row>,
) -> anyhow::Result<()>
    ensures { OnOk result (one.now ≢ other.now) }
{
    let one = bytes_of(alloc, table, one)?;
    let other = bytes_of(alloc, table, other)?;
    if are_same(&one, &other) {
        bail!("no change");
    }
    Ok(())
}

// The row fits the table, the key is the row's, and the row changes.
fn may_put(
    alloc: Global,
    core: &CoreState<PageMaps>,
    number: u32,
    key: &Bytes,
    new: &Option<Row>,
) -> anyhow::Result<()>
    requires { (s : State) × IsAt core.now s }
    ensures { OnOk result ((s : State) → IsAt core.now s → MayPut s.store number key.now new.now) }
{
    let Some(Definition::Table(table)) = core.store.catalog.get(number) else {
        bail!("no table")
    };
    fits_under(alloc, table, key, new)?;
    let before = core.store.row(number, key.as_slice())?;
    differ(alloc, table, &before, new)
}

// The act of a session's transaction.
fn may_act(alloc: Global, core: &CoreState<PageMaps>, session: u32, act: &Act) -> anyhow::Result<()>
    requires stands { (s : State) × IsAt core.now s }
    requires spelt { IsSpelt act.now }
    ensures { OnOk result ((s : State) → IsAt core.now s → MayAct s.store session (act_of act.now)) }
{
    match act {
        Act::Begin(_) => is_closed(core, session),
        Act::Defs => is_session(session),
        Act::Fetch { index, mode, .. } => {
            is_ready(core, session, Mode::Serial)?;
            may_lock(&core.store.catalog, *index, *mode)
        }
        Act::Peek { index, .. } => {
            goes_on(core, session, Mode::Snapshot)?;
            may_peek(&core.store.catalog, *index)
        }
        Act::Put { table, key, new } => {
            is_ready(core, session, Mode::Serial)?;
            may_put(alloc, core, *table, key, new)
        }
        Act::Pay => owes(core, session),
        Act::Ghost => holds_group(core, session),
        Act::UndoOne => keeps(core, session),
        Act::End => keeps_none(core, session),
        Act::Commit => may_commit(core, session),
        Act::Schema(statement) => {
            is_closed(core, session)?;
            is_create(statement)
        }
        Act::Clean | Act::Prune | Act::Checkpoint => {
            if session != 0 {
                bail!("an act of session 0");
            }
            Ok(())
        }
        Act::Cancel => is_session(session),
    }
}

/// Whether a step may be asked for. It fails where it may not.
///
/// # Errors
///
/// Where it may not, or there is no memory to tell it.
pub fn may(alloc: Global, core: &CoreState<PageMaps>, step: &Step) -> anyhow::Result<()>
    requires stands { (s : State) × IsAt core.now s }
    requires spelt { IsSpelt step.now.act }
    ensures { OnOk result ((s : State) → IsAt core.now s → IsAsked s step.now) }
{
    may_act(alloc, core, step.session, &step.act)
}
