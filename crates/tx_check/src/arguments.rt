//! What single arguments name.

ghost use Rattle.std.specs.Prelude.{◌≡◌, length};
ghost use Rattle.std.specs.List.{list_any};
ghost use Rattle.protocol_spec.specs.Chain.Shape.{arguments_of, is_late, is_no_input};
ghost use Rattle.tx_check.specs.Parts.{listed_of, lone_of};

use chain_types::{Argument, Command, Transaction};

/// Whether the argument is an input that does not exist.
fn is_no_input(tx: &Transaction, argument: &Argument) -> bool
    ensures { result ≡ is_no_input tx.now argument.now }
{
    match argument {
        Argument::Input(input) => *input as u64 >= tx.inputs.len(),
        Argument::Gas | Argument::Result(_) | Argument::Nested(_, _) => false,
    }
}

/// Whether the argument is a result of a command that is not before this one.
fn is_late(here: usize, argument: &Argument) -> bool
    ensures { result ≡ is_late here argument.now }
{
    match argument {
        Argument::Result(command) => *command as usize >= here,
        Argument::Nested(command, _) => *command as usize >= here,
        Argument::Gas | Argument::Input(_) => false,
    }
}

/// Whether one of the arguments is an input that does not exist.
fn any_no_input(tx: &Transaction, arguments: &[Argument]) -> bool
    ensures { result ≡ list_any (is_no_input tx.now) arguments.now }
{
    for argument in arguments {
        if is_no_input(tx, argument) {
            return true;
        }
    }
    false
}

/// Whether one of the arguments is a result of a command that is not before this one.
fn any_late(here: usize, arguments: &[Argument]) -> bool
    ensures { result ≡ list_any (is_late here) arguments.now }
{
    for argument in arguments {
        if is_late(here, argument) {
            return true;
        }
    }
    false
}

/// The argument of a command outside its list: a Transfer's address, a Split's coin, a Merge's target.
fn lone_of(command: &Command) -> Option<Argument>
    ensures { result ≡ lone_of command.now }
{
    match command {
        Command::Call { .. } | Command::MakeVec { .. } => None,
        Command::Transfer { to, .. } => Some(*to),
        Command::Split { coin, .. } => Some(*coin),
        Command::Merge { target, .. } => Some(*target),
    }
}

/// The list of arguments of a command.
pub(crate) fn listed_of(command: &Command) -> &[Argument]
    ensures { result.now ≡ listed_of command.now }
{
    match command {
        Command::Call { args, .. } => args.as_slice(),
        Command::Transfer { values, .. } => values.as_slice(),
        Command::Split { amounts, .. } => amounts.as_slice(),
        Command::Merge { sources, .. } => sources.as_slice(),
        Command::MakeVec { values, .. } => values.as_slice(),
    }
}

/// Whether a command names an input that does not exist.
#[tactic(auto, using(crate::proofs::Both::any_of_both))]
pub(crate) fn command_no_input(tx: &Transaction, command: &Command) -> bool
    ensures { result ≡ list_any (is_no_input tx.now) (arguments_of command.now) }
{
    if let Some(lone) = lone_of(command)
        && is_no_input(tx, &lone)
    {
        return true;
    }
    any_no_input(tx, listed_of(command))
}

/// Whether a command names a result of a command that is not before it.
#[tactic(auto, using(crate::proofs::Both::any_of_both))]
pub(crate) fn command_late(here: usize, command: &Command) -> bool
    ensures { result ≡ list_any (is_late here) (arguments_of command.now) }
{
    if let Some(lone) = lone_of(command)
        && is_late(here, &lone)
    {
        return true;
    }
    any_late(here, listed_of(command))
}

/// The number of arguments of a command.
#[tactic(auto, using(crate::proofs::Both::count_of_both))]
pub(crate) fn argument_count(command: &Command) -> u64
    ensures { result ≡ length (arguments_of command.now) }
{
    let listed = listed_of(command).len() as u64;
    if lone_of(command).is_some() {
        listed + 1
    } else {
        listed
    }
}
