//! Steps are done, one after another.
//!
//! `SESSION ACT` is a step (`steps`), and comes to its answer (`answers`). `steps` comes to the number of steps that were done,
//! `kept SESSION` to the number of steps that its transaction keeps, `none` where none is open, and `refused SESSION` to its
//! last refusal with the number of its step. A step that may not be asked for ends the program.
ghost use Rattle.std.specs.Prelude.{◌≤◌, IfOk};
ghost use Rattle.txn_machine.specs.Log.{Within};
ghost use Rattle.core_cases.specs.Asking.{IsStanding, IsSpelt};

use crate::answers::{answer_text, refusal_text};
use crate::asking::may;
use crate::steps::read_step;
use anyhow::bail;
use case_text::first_word;
use core_journal::NoJournal;
use engine_core::Core;
use ordered_index::PageMaps;
use std::alloc::Global;
use std::mem::forget;
use txn_book::{Answer, Step, Stepper};

/// The pages of a core's maps.
const PAGES: u32 = 768;

/// What its data may count, in bytes: 1,200 for each page but 256.
const DATA_LIMIT: u32 = (PAGES - 256) * 1200;

// The bytes of an area of a log, which holds an empty block.
fn log_bytes(text: &str) -> anyhow::Result<u32>
    ensures { IfOk result (λ bytes. 6 ≤ bytes) }
{
    let bytes = text.parse::<u32>()?;
    if bytes < 6 {
        bail!("no log");
    }
    Ok(bytes)
}

// A core that has nothing, with a limit of its log or without one.
fn new_core(alloc: Global, log: Option<u32>) -> anyhow::Result<Core<PageMaps, NoJournal>>
    requires { Within log 6 }
    ensures { IfOk result IsStanding }
{
    let maps = PageMaps::new(alloc, PAGES)?;
    Ok(Core::new(alloc, maps, NoJournal { limit: log }, log, DATA_LIMIT, 0)?)
}

// The same, with the limit of its log that is given, if one is.
fn core_with(alloc: Global, log: &str) -> anyhow::Result<Core<PageMaps, NoJournal>>
    ensures { IfOk result IsStanding }
{
    match log {
        "" => new_core(alloc, None),
        _ => new_core(alloc, Some(log_bytes(log)?)),
    }
}

// The number of a session.
fn session_of(text: &str) -> anyhow::Result<u32>
    ensures from_1 { IfOk result (λ session. 1 ≤ session) }
    ensures to_64 { IfOk result (λ session. session ≤ 64) }
{
    let session = text.parse::<u32>()?;
    if session < 1 || session > 64 {
        bail!("no session");
    }
    Ok(session)
}

// How many steps a session's transaction keeps.
fn kept_text(
    alloc: Global,
    core: &Core<PageMaps, NoJournal>,
    text: &str,
) -> anyhow::Result<String> {
    match core.kept_steps(session_of(text)?) {
        Some(many) => Ok(format!(in alloc; "{many}")?),
        None => Ok(String::from_str(alloc, "none")?),
    }
}

// A session's last refusal.
fn last_refusal_text(
    alloc: Global,
    core: &Core<PageMaps, NoJournal>,
    text: &str,
) -> anyhow::Result<String> {
    match core.refused(text.parse::<u32>()?) {
        Some(last) => {
            let number = last.step;
            let why = refusal_text(alloc, &last.refusal)?;
            Ok(format!(in alloc; "step {number}: {why}")?)
        }
        None => Ok(String::from_str(alloc, "none")?),
    }
}

// Does a step, if it may be asked for.
fn answered(
    alloc: Global,
    core: &mut Core<PageMaps, NoJournal>,
    step: &Step,
) -> anyhow::Result<Answer>
    requires stands { IsStanding core.old }
    requires spelt { IsSpelt step.now.act }
    ensures { IsStanding core.new }
{
    may(alloc, core.state(), step)?;
    Ok(core.step(step))
}

// Does the step of a text.
fn step_done(
    alloc: Global,
    core: &mut Core<PageMaps, NoJournal>,
    text: &str,
) -> anyhow::Result<Answer>
    requires { IsStanding core.old }
    ensures { IsStanding core.new }
{
    let step = read_step(alloc, &core.state().store.catalog, text)?;
    let answer = answered(alloc, core, &step);
    forget(step);
    answer
}

// Does the step of a text, and forgets what it is answered.
fn pass(alloc: Global, core: &mut Core<PageMaps, NoJournal>, call: &str) -> anyhow::Result<()>
    requires { IsStanding core.old }
    ensures { IsStanding core.new }
{
    let (word, _) = first_word(call);
    match word {
        "steps" | "kept" | "refused" => {}
        _ => forget(step_done(alloc, core, call)?),
    }
    Ok(())
}

// Does the calls before the last ones.
fn pass_all(alloc: Global, core: &mut Core<PageMaps, NoJournal>, calls: &str) -> anyhow::Result<()>
    requires { IsStanding core.old }
    ensures { IsStanding core.new }
{
    if calls.is_empty() {
        return Ok(());
    }
    for call in calls.split("; ") {
        pass(alloc, core, call)?;
    }
    Ok(())
}

// What the step of a text is answered.
fn step_text(
    alloc: Global,
    core: &mut Core<PageMaps, NoJournal>,
    text: &str,
) -> anyhow::Result<String>
    requires { IsStanding core.old }
    ensures { IsStanding core.new }
{
    let answer = step_done(alloc, core, text)?;
    let text = answer_text(alloc, &core.state().store.catalog, &answer);
    forget(answer);
    text
}

// What a call comes to.
fn call_text(
    alloc: Global,
    core: &mut Core<PageMaps, NoJournal>,
    call: &str,
) -> anyhow::Result<String>
    requires { IsStanding core.old }
    ensures { IsStanding core.new }
{
    let (word, rest) = first_word(call);
    match word {
        "steps" => {
            let many = core.steps_done();
            Ok(format!(in alloc; "{many}")?)
        }
        "kept" => kept_text(alloc, core, rest),
        "refused" => last_refusal_text(alloc, core, rest),
        _ => step_text(alloc, core, call),
    }
}

// What calls come to.
fn all_text(
    alloc: Global,
    core: &mut Core<PageMaps, NoJournal>,
    calls: &str,
) -> anyhow::Result<String>
    requires { IsStanding core.old }
    ensures { IsStanding core.new }
{
    let mut out = String::new(alloc);
    for call in calls.split("; ") {
        if !out.is_empty() {
            out.push_str("; ")?;
        }
        let text = call_text(alloc, core, call)?;
        out.push_str(text.as_str())?;
    }
    Ok(out)
}

// What the last calls come to, on a core that stands, after those before them.
fn last_text(
    alloc: Global,
    core: &mut Core<PageMaps, NoJournal>,
    given: &str,
    before: &str,
    calls: &str,
) -> anyhow::Result<String>
    requires { IsStanding core.old }
{
    pass_all(alloc, core, given)?;
    pass_all(alloc, core, before)?;
    all_text(alloc, core, calls)
}

/// What calls come to, on a new core, after those that are given and those of the rows before. An area of the core's log takes so
/// many bytes, or any, where no number is given.
///
/// # Errors
///
/// Where one is no call, or a step that may not be asked for.
pub fn last_answer(
    alloc: Global,
    log: &str,
    given: &str,
    before: &str,
    calls: &str,
) -> anyhow::Result<String> {
    let mut core = core_with(alloc, log)?;
    let last = last_text(alloc, &mut core, given, before, calls);
    forget(core);
    last
}
