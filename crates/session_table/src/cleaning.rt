//! The lines `clean` and `checkpoint`, whose steps no session asks for.
ghost use Rattle.std.specs.Prelude.{◌≡◌, ◌∷◌, ◌++◌, [], OnOk, OnErr};
ghost use Rattle.iv_types.specs.declared.reply.Reply.TheVariants as reply;
ghost use Rattle.iv_meaning.specs.Reply.{reply_lines};
ghost use Rattle.iv_meaning.specs.Said.{cleans, checkpoints};
ghost use Rattle.txn_machine.specs.Acts as machine;
ghost use Rattle.txn_machine.specs.Alone.{Story};
ghost use Rattle.txn_machine.specs.Laws.{IsReachedStory};
ghost use Rattle.script_law.specs.Machine.{DoesOf};
ghost use Rattle.txn_book.specs.Acts.{act_of, answer_of};
ghost use Rattle.session_table.specs.Going.{StandsIn, Leads, the_tell};
ghost use Rattle.session_table.specs.Requests.{EngineDid};
ghost use Rattle.session_table.specs.Cleaning.{IsEngines, IsPruned, IsCleaned, IsSaved, pruned_as, cleaned_as, saved_as, CleansBy, CleansLineBy};

use crate::print::{push_counted, push_one};
use engine_refusals::told_plainly;
use iv_types::{EngineRefusal, NoMemory, Reply};
use std::alloc::Global;
use txn_book::{Act, Answer, Step, Stepper, do_step};

// Does a step that no session asks for.
fn own_step<S: Stepper>(engine: &mut S, act: Act) -> Answer
    requires act { IsEngines (act_of act) }
    requires engine { StandsIn (S.stands engine.old) IsReachedStory }
    ensures { (s : Story) → S.stands engine.old s.state → StandsIn (S.stands engine.new) (DoesOf s 0 (act_of act) (answer_of result)) }
{
    do_step(engine, Step { session: 0, act })
}

// What Prune was answered.
fn pruned(answer: Answer) -> Result<(), EngineRefusal>
    requires { IsPruned (answer_of answer) }
    ensures { answer_of answer ≡ pruned_as result }
{
    match answer {
        Answer::Pruned => Ok(()),
        Answer::Refused(why) => Err(why),
        _ => unreachable!(),
    }
}

// Whether Clean removed a ghost.
fn cleaned(answer: Answer) -> Result<bool, EngineRefusal>
    requires { IsCleaned (answer_of answer) }
    ensures { answer_of answer ≡ cleaned_as result }
{
    match answer {
        Answer::Cleaned(0) => Ok(false),
        Answer::Cleaned(_) => Ok(true),
        Answer::Refused(why) => Err(why),
        _ => unreachable!(),
    }
}

// What Checkpoint was answered.
fn saved(answer: Answer) -> Result<u64, EngineRefusal>
    requires { IsSaved (answer_of answer) }
    ensures { answer_of answer ≡ saved_as result }
{
    match answer {
        Answer::Saved(number) => Ok(number),
        Answer::Refused(why) => Err(why),
        _ => unreachable!(),
    }
}

fn prune<S: Stepper>(engine: &mut S) -> Result<(), EngineRefusal>
    requires { StandsIn (S.stands engine.old) IsReachedStory }
    ensures { (s : Story) → S.stands engine.old s.state → StandsIn (S.stands engine.new) (DoesOf s 0 machine.Prune (pruned_as result)) }
{
    pruned(own_step(engine, Act::Prune))
}

fn clean_one<S: Stepper>(engine: &mut S) -> Result<bool, EngineRefusal>
    requires { StandsIn (S.stands engine.old) IsReachedStory }
    ensures { (s : Story) → S.stands engine.old s.state → StandsIn (S.stands engine.new) (DoesOf s 0 machine.Clean (cleaned_as result)) }
{
    cleaned(own_step(engine, Act::Clean))
}

fn save<S: Stepper>(engine: &mut S) -> Result<u64, EngineRefusal>
    requires { StandsIn (S.stands engine.old) IsReachedStory }
    ensures { (s : Story) → S.stands engine.old s.state → StandsIn (S.stands engine.new) (DoesOf s 0 machine.Checkpoint (saved_as result)) }
{
    saved(own_step(engine, Act::Checkpoint))
}

// Removes ghosts until there is none, and tells how many.
fn clean_all<S: Stepper>(engine: &mut S) -> Result<u64, EngineRefusal>
    requires { StandsIn (S.stands engine.old) IsReachedStory }
    ensures { (s : Story) → S.stands engine.old s.state → IsReachedStory s → StandsIn (S.stands engine.new) (CleansBy s result) }
{
    for removed in 0..u64::MAX {
        if !clean_one(engine)? {
            return Ok(removed);
        }
    }
    // No engine counts so many steps.
    Ok(u64::MAX)
}

// Drops versions, and then removes ghosts.
fn clean<S: Stepper>(engine: &mut S) -> Result<u64, EngineRefusal>
    requires { StandsIn (S.stands engine.old) IsReachedStory }
    ensures { (s : Story) → S.stands engine.old s.state → IsReachedStory s → StandsIn (S.stands engine.new) (CleansLineBy s result) }
{
    prune(engine)?;
    clean_all(engine)
}

// Prints a refusal of a step that no session asked for.
fn push_refused(alloc: Global, text: &mut Vec<u8>, why: EngineRefusal) -> Result<(), NoMemory>
    ensures { OnOk result (text.new.items ≡ text.old.items ++ reply_lines 0 (reply.Error (the_tell why) ∷ [])) }
{
    push_one(alloc, text, 0, Reply::Error(told_plainly(alloc, why)))
}

/// What a line `clean` does itself. What it prints is written behind a text.
///
/// # Errors
///
/// Where there is no memory for what is printed.
pub fn clean_line<S: Stepper>(
    alloc: Global,
    engine: &mut S,
    text: &mut Vec<u8>,
) -> Result<(), NoMemory>
    requires { StandsIn (S.stands engine.old) IsReachedStory }
    ensures did { OnOk result ((s : Story) → S.stands engine.old s.state → IsReachedStory s → StandsIn (S.stands engine.new) (EngineDid cleans s text.old.items text.new.items)) }
    ensures lost { OnErr result ((s : Story) → S.stands engine.old s.state → IsReachedStory s → StandsIn (S.stands engine.new) (Leads s)) }
{
    match clean(engine) {
        Ok(count) => push_counted(text, b"CLEAN", count),
        Err(why) => push_refused(alloc, text, why),
    }
}

/// What a line `checkpoint` does itself. What it prints is written behind a text.
///
/// # Errors
///
/// Where there is no memory for what is printed.
pub fn save_line<S: Stepper>(
    alloc: Global,
    engine: &mut S,
    text: &mut Vec<u8>,
) -> Result<(), NoMemory>
    requires { StandsIn (S.stands engine.old) IsReachedStory }
    ensures did { OnOk result ((s : Story) → S.stands engine.old s.state → IsReachedStory s → StandsIn (S.stands engine.new) (EngineDid checkpoints s text.old.items text.new.items)) }
    ensures lost { OnErr result ((s : Story) → S.stands engine.old s.state → IsReachedStory s → StandsIn (S.stands engine.new) (Leads s)) }
{
    match save(engine) {
        Ok(number) => push_counted(text, b"CHECKPOINT", number),
        Err(why) => push_refused(alloc, text, why),
    }
}
