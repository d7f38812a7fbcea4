//! The description of the program's words to `clap`, and whether clap takes them.

ghost use Rattle.std.specs.Prelude.{◌≡◌, IfOk, codes, false, is_some, map, true};
ghost use Rattle.std.specs.String.{string_bytes};
ghost use Rattle.clap.specs.Words.{FailsBy, app_of, fault_of, rule_of, with_subcommand};
ghost use Rattle.clap.specs.declared.builder.command.Command.TheViews.{out-Command as fields_of};
ghost use Rattle.command_words.specs.Parsing.{bare, is_taken, needed, of_check, of_one, program, program_top};
ghost use Rattle.command_words.specs.Words.{command_in};

use clap::error::ErrorKind;
use clap::{Arg, ArgMatches, Command, Error};
use std::alloc::{AllocError, Global};

/// A command with no flag of clap's own.
fn bare<'a>(alloc: Global, name: &'a str) -> Command<'a>
    ensures app { app_of result ≡ bare name.entry.now }
    ensures local { (fields_of result).has_globals ≡ false }
{
    Command::new(alloc, name)
        .disable_help_flag(true)
        .disable_version_flag(true)
        .disable_help_subcommand(true)
}

/// A required word.
fn needed<'a>(alloc: Global, id: &'a str) -> Arg<'a>
    ensures rule { rule_of result ≡ needed id.entry.now }
    ensures local { result.global ≡ false }
{
    Arg::new(alloc, id).required(true)
}

/// A command that takes one more word.
fn of_one<'a>(alloc: Global, name: &'a str, id: &'a str) -> Result<Command<'a>, AllocError>
    ensures app { IfOk result (λ c. app_of c ≡ of_one name.entry.now id.entry.now) }
    ensures local { IfOk result (λ c. (fields_of c).has_globals ≡ false) }
{
    bare(alloc, name).arg(needed(alloc, id))
}

/// `check`, its stakes and its digest.
fn of_check<'a>(alloc: Global) -> Result<Command<'a>, AllocError>
    ensures app { IfOk result (λ c. app_of c ≡ of_check) }
    ensures local { IfOk result (λ c. (fields_of c).has_globals ≡ false) }
{
    of_one(alloc, "check", "STAKES")?.arg(needed(alloc, "TX"))
}

/// The program with `run`.
fn with_run<'a>(alloc: Global, program: Command<'a>) -> Result<Command<'a>, AllocError>
    ensures { IfOk result (λ c. app_of c ≡ with_subcommand (app_of program.entry) (bare (codes "run")).top) }
{
    program.subcommand(bare(alloc, "run"))
}

/// The program with one more command, which takes one more word.
fn with_one<'a>(
    alloc: Global,
    program: Command<'a>,
    name: &'a str,
    id: &'a str,
) -> Result<Command<'a>, AllocError>
    ensures { IfOk result (λ c. app_of c ≡ with_subcommand (app_of program.entry) (of_one name.entry.now id.entry.now).top) }
{
    match of_one(alloc, name, id) {
        Ok(command) => program.subcommand(command),
        Err(error) => {
            drop(program);
            Err(error)
        }
    }
}

/// The program with `check`.
fn with_check<'a>(alloc: Global, program: Command<'a>) -> Result<Command<'a>, AllocError>
    ensures { IfOk result (λ c. app_of c ≡ with_subcommand (app_of program.entry) of_check.top) }
{
    match of_check(alloc) {
        Ok(command) => program.subcommand(command),
        Err(error) => {
            drop(program);
            Err(error)
        }
    }
}

/// The program before it has commands.
fn program_top<'a>(alloc: Global) -> Command<'a>
    ensures { app_of result ≡ program_top }
{
    bare(alloc, "committee")
        .no_binary_name(true)
        .subcommand_required(true)
}

/// The program with its commands, each a subcommand of one level.
fn program<'a>(alloc: Global) -> Result<Command<'a>, AllocError>
    ensures { IfOk result (λ c. app_of c ≡ program) }
{
    let program = with_run(alloc, program_top(alloc))?;
    let program = with_one(alloc, program, "make", "N")?;
    let program = with_check(alloc, program)?;
    let program = with_one(alloc, program, "follow", "M")?;
    let program = with_one(alloc, program, "desk", "N")?;
    with_one(alloc, program, "replay", "M")
}

/// What clap makes of the words.
fn parsed<'a>(alloc: Global, words: &'a [String]) -> Result<ArgMatches<'a>, Error>
    ensures { FailsBy (fault_of program (map string_bytes words.entry.now)) result }
{
    program(alloc)?.try_get_matches_from(words)
}

/// Whether clap takes the words, as it does all that are a command. Fails only if out of memory.
pub fn is_parsed(alloc: Global, words: &[String]) -> Result<bool, AllocError>
    ensures exact { IfOk result (λ yes. yes ≡ is_taken (map string_bytes words.now)) }
    ensures command { is_some (command_in (map string_bytes words.now)) ≡ true → IfOk result (λ yes. yes ≡ true) }
{
    match parsed(alloc, words) {
        Ok(_) => Ok(true),
        Err(error) => match error.kind() {
            ErrorKind::OutOfMemory => Err(AllocError),
            _ => Ok(false),
        },
    }
}
