//! The commands of a `tx` line, from words to the commands of a transaction.

ghost use Rattle.std.specs.Prelude.{◌≡◌, IfOk, OnOk, map, slice_get};
ghost use Rattle.world_spec.specs.Making.{argument_of, command_of, first_word, kind_or, kinds, last_word, words_before, words_behind};
ghost use Rattle.world_lines.specs.Pushed.{each_pushed};
ghost use Rattle.world_spec.specs.MadeLines.{last_after};

use chain_types::{Argument, Command, Kind};
use schedule_text::{ArgWord, CommandWord};
use std::alloc::Global;
use wire_bcs::{OutOfMemory, Seq};

/// The argument of a word. Takes no memory.
fn argument_of(word: ArgWord) -> Argument
    ensures { result ≡ argument_of word }
{
    match word {
        ArgWord::Gas => Argument::Gas,
        ArgWord::Input(number) => Argument::Input(number),
        ArgWord::Result(command) => Argument::Result(command),
        ArgWord::Nested(command, place) => Argument::Nested(command, place),
    }
}

/// The arguments of words, in their order.
fn argument_vec(alloc: Global, words: &[ArgWord]) -> Result<Vec<Argument>, OutOfMemory>
    ensures { IfOk result (λ args. args.items ≡ map argument_of words.now) }
{
    Ok(words.iter().map(|word| argument_of(*word)).collect(alloc)?)
}

/// The arguments of words, in their order.
fn arguments_of(alloc: Global, words: &[ArgWord]) -> Result<Seq<Argument>, OutOfMemory>
    ensures { IfOk result (λ args. args ≡ map argument_of words.now) }
{
    let args = argument_vec(alloc, words)?;
    Ok(Seq::from_vec(args))
}

/// The argument of the first word; the gas coin if there is none. Takes no memory.
fn first_word(words: &[ArgWord]) -> Argument
    ensures { result ≡ first_word words.now }
{
    match words {
        [] => Argument::Gas,
        [word, ..] => argument_of(*word),
    }
}

/// The arguments of the words after the first.
fn words_behind(alloc: Global, words: &[ArgWord]) -> Result<Seq<Argument>, OutOfMemory>
    ensures { IfOk result (λ args. args ≡ words_behind words.now) }
{
    match words {
        [] => Ok(Seq::new(alloc)),
        [_, rest @ ..] => arguments_of(alloc, rest),
    }
}

/// The argument of the last word; `before` if there is no word. Takes no memory.
fn last_after(before: Argument, words: &[ArgWord]) -> Argument
    ensures { result ≡ last_after before words.now }
{
    let mut last = before;
    for word in words {
        last = argument_of(*word);
    }
    last
}

/// The argument of the last word; the gas coin if there is none. Takes no memory.
#[tactic(auto, using(crate::proofs::LastWords::last_is))]
fn last_word(words: &[ArgWord]) -> Argument
    ensures { result ≡ last_word words.now }
{
    last_after(Argument::Gas, words)
}

/// The arguments of the words before the last.
#[tactic(auto, using(crate::proofs::LastWords::before_is))]
fn words_before(alloc: Global, words: &[ArgWord]) -> Result<Seq<Argument>, OutOfMemory>
    ensures { IfOk result (λ args. args ≡ words_before words.now) }
{
    if words.is_empty() {
        return Ok(Seq::new(alloc));
    }
    arguments_of(alloc, &words[..words.len() - 1])
}

/// The kind of object with this number; `Coin` if no kind has it. Takes no memory.
fn kind_of(number: u8) -> Kind
    ensures { result ≡ kind_or (slice_get kinds number) }
{
    let kinds = [
        Kind::Coin,
        Kind::Cap,
        Kind::Counter,
        Kind::Vault,
        Kind::VaultKey,
        Kind::Limit,
    ];
    match kinds.get(number as usize) {
        Some(kind) => *kind,
        None => Kind::Coin,
    }
}

/// The command of a word.
pub(crate) fn command_of(alloc: Global, word: &CommandWord) -> Result<Command, OutOfMemory>
    ensures { IfOk result (λ command. command ≡ command_of word.now) }
{
    match word {
        CommandWord::Split(words) => {
            let amounts = words_behind(alloc, words.as_slice())?;
            let coin = first_word(words.as_slice());
            Ok(Command::Split { coin, amounts })
        }
        CommandWord::Merge(words) => {
            let sources = words_behind(alloc, words.as_slice())?;
            let target = first_word(words.as_slice());
            Ok(Command::Merge { target, sources })
        }
        CommandWord::Transfer(words) => {
            let values = words_before(alloc, words.as_slice())?;
            let to = last_word(words.as_slice());
            Ok(Command::Transfer { values, to })
        }
        CommandWord::MakeVec { kind, values } => {
            let values = arguments_of(alloc, values.as_slice())?;
            Ok(Command::MakeVec {
                kind: kind_of(*kind),
                values,
            })
        }
        CommandWord::Call { native, args } => {
            let args = arguments_of(alloc, args.as_slice())?;
            Ok(Command::Call {
                native: *native,
                args,
            })
        }
    }
}

/// Adds the commands of words.
fn add_commands(
    commands: &mut Seq<Command>,
    alloc: Global,
    words: &[CommandWord],
) -> Result<(), OutOfMemory>
    ensures { OnOk result (commands.new ≡ each_pushed command_of commands.old words.now) }
{
    for word in words {
        let command = command_of(alloc, word)?;
        commands.push(command)?;
    }
    Ok(())
}

/// The commands of words, in their order.
#[tactic(auto, using(crate::proofs::Pushed::from_none))]
pub(crate) fn commands_of(alloc: Global, words: &[CommandWord]) -> Result<Seq<Command>, OutOfMemory>
    ensures { IfOk result (λ commands. commands ≡ map command_of words.now) }
{
    let mut commands = Seq::with_room(alloc, words.len() as u64)?;
    add_commands(&mut commands, alloc, words)?;
    Ok(commands)
}
