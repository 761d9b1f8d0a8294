//! Words that are a command are read.
ghost use Rattle.std.specs.Prelude.{◌≡◌, ℕ, List, Option, IfOk, false, decimal, option_map};
ghost use Rattle.clap.specs.Words.{app_of, found_of, kind_of, rows_of};
ghost use Rattle.clap.specs.declared.builder.command.Command.TheViews.{out-Command as fields_of};
ghost use Rattle.command_words.specs.Commands as clap_commands;
ghost use Rattle.command_words.specs.Commands.{IsFound, IsNumber, HasScript, HasDatabase};
ghost use Rattle.command_words.specs.Words.{IsCommand, AsksFor, HasBounds, Wanted, wanted_of};

use crate::asked::{Asked, NewDatabase};
use crate::limits::{
    DEFAULT_LOG_KIB, DEFAULT_PAGES, LEAST_LOG_KIB, LEAST_PAGES, MOST_LOG_KIB, MOST_PAGES,
};
use crate::numbers::number_within;
use clap::error::ErrorKind;
use clap::{Arg, ArgMatches, Command, Error};
use iv_types::NoMemory;
use made_script::MOST_ROUNDS;
use std::alloc::Global;

// `init` with FILE and its options.
fn init_command<'a>(alloc: Global) -> Result<Command<'a>, NoMemory>
    ensures app { IfOk result (λ command. app_of command ≡ clap_commands.init_command) }
    ensures local { IfOk result (λ command. (fields_of command).has_globals ≡ false) }
{
    let file = Arg::new(alloc, "FILE").required(true);
    let pages = Arg::new(alloc, "pages").long("pages");
    let log_kib = Arg::new(alloc, "log-kib").long("log-kib");
    let with_file = Command::new(alloc, "init").arg(file)?;
    let with_pages = with_file.arg(pages)?;
    let command = with_pages.arg(log_kib)?;
    Ok(command)
}

// The commands and the words that they take.
fn commands<'a>(alloc: Global) -> Result<Command<'a>, NoMemory>
    ensures { IfOk result (λ program. app_of program ≡ clap_commands.commands) }
{
    let file = Arg::new(alloc, "FILE").required(true);
    let script = Command::new(alloc, "script").arg(file)?;
    let number = Arg::new(alloc, "NUMBER").required(true);
    let make = Command::new(alloc, "make").arg(number)?;
    let init = init_command(alloc)?;
    let program = Command::new(alloc, "iv")
        .no_binary_name(true)
        .subcommand(script)?
        .subcommand(make)?
        .subcommand(init)?;
    Ok(program)
}

// The number of an option, or its default where it is not given.
fn number_given(word: Option<&str>, least: u32, most: u32, default: u32) -> u32
    requires { (given : Option ℕ) × (number : ℕ) × IsNumber least most default given number × (option_map (λ w. w.now) word ≡ option_map decimal given) }
    ensures { (given : Option ℕ) (number : ℕ) → IsNumber least most default given number → option_map (λ w. w.now) word.entry ≡ option_map decimal given → result ≡ number }
{
    match word {
        Some(word) => number_within(word, least, most).unwrap(),
        None => default,
    }
}

// What the lines of a script are to run on.
fn script_found<'a>(given: &ArgMatches<'a>) -> Asked<'a>
    requires { (wanted : Wanted) × HasScript (rows_of (found_of given.now)) wanted }
    ensures { (wanted : Wanted) → HasScript (rows_of (found_of given.now)) wanted → wanted_of result ≡ wanted }
{
    let file = given.get_str("FILE").unwrap();
    if file == "-" {
        return Asked::Script;
    }
    Asked::ScriptOn(file)
}

// The database that `init` is to make.
fn database_found<'a>(given: &ArgMatches<'a>) -> NewDatabase<'a>
    requires { (name : List ℕ) × (pages : ℕ) × (log_kib : ℕ) × HasDatabase (rows_of (found_of given.now)) name pages log_kib }
    ensures { (name : List ℕ) (pages log_kib : ℕ) → HasDatabase (rows_of (found_of given.now)) name pages log_kib → (result.file.now ≡ name) × (result.pages ≡ pages) × (result.log_kib ≡ log_kib) }
{
    let file = given.get_str("FILE").unwrap();
    let pages = number_given(
        given.get_str("pages"),
        LEAST_PAGES,
        MOST_PAGES,
        DEFAULT_PAGES,
    );
    let log_kib = number_given(
        given.get_str("log-kib"),
        LEAST_LOG_KIB,
        MOST_LOG_KIB,
        DEFAULT_LOG_KIB,
    );
    NewDatabase {
        file,
        pages,
        log_kib,
    }
}

// What was found in words that are a command.
fn found<'a>(matches: &ArgMatches<'a>) -> Asked<'a>
    requires { (wanted : Wanted) × IsFound matches.now wanted }
    ensures { (wanted : Wanted) → IsFound matches.now wanted → wanted_of result ≡ wanted }
{
    let (name, given) = matches.subcommand().unwrap();
    if name == "script" {
        return script_found(given);
    }
    if name == "init" {
        return Asked::Init(database_found(given));
    }
    let word = given.get_str("NUMBER").unwrap();
    Asked::Make(number_within(word, 1, MOST_ROUNDS).unwrap())
}

// Words that are a command are refused for want of memory alone.
fn refused(error: Error) -> NoMemory
    requires { kind_of error ≡ ErrorKind.OutOfMemory }
{
    let _ = error;
    NoMemory
}

/// What words ask for that are a command.
///
/// # Errors
///
/// Where memory is wanting.
pub fn read_words<'a>(alloc: Global, words: &'a [String]) -> Result<Asked<'a>, NoMemory>
    requires { IsCommand words.now }
    ensures asks { IfOk result (λ asked. AsksFor (wanted_of asked) words.now) }
    ensures bounds { IfOk result (λ asked. HasBounds (wanted_of asked)) }
    ensures nothing_else { IfOk result (λ asked. (wanted : Wanted) → AsksFor wanted words.now → wanted_of asked ≡ wanted) }
{
    match commands(alloc)?.try_get_matches_from(words) {
        Ok(matches) => Ok(found(&matches)),
        Err(error) => Err(refused(error)),
    }
}
