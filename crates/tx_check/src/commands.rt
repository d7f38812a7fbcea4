//! Faults of a transaction's commands, each as a test whether one of them has it.

ghost use Rattle.std.specs.Prelude.{◌≡◌, length, nat_lt};
ghost use Rattle.std.specs.List.{enumerate_from, list_any};
ghost use Rattle.protocol_spec.specs.Chain.Shape.{arguments_of, is_idle, is_no_input, is_no_native, names_late};

use crate::arguments::{argument_count, command_late, command_no_input};
use chain_types::{Command, LAST_NATIVE, Transaction};

/// Whether one of the commands names an input that does not exist.
pub(crate) fn names_no_input(tx: &Transaction, commands: &[Command]) -> bool
    ensures { result ≡ list_any (λ c. list_any (is_no_input tx.now) (arguments_of c)) commands.now }
{
    for command in commands {
        if command_no_input(tx, command) {
            return true;
        }
    }
    false
}

/// Whether one of the commands names a result of a command that is not before it.
pub(crate) fn names_late(commands: &[Command]) -> bool
    ensures { result ≡ list_any names_late (enumerate_from 0 commands.now) }
{
    let mut here = 0;
    for command in commands {
        if command_late(here, command) {
            return true;
        }
        here += 1;
    }
    false
}

/// Whether the command splits into, merges or hands on nothing.
fn is_idle(command: &Command) -> bool
    ensures { result ≡ is_idle command.now }
{
    match command {
        Command::Call { .. } | Command::MakeVec { .. } => false,
        Command::Transfer { values, .. } => values.is_empty(),
        Command::Split { amounts, .. } => amounts.is_empty(),
        Command::Merge { sources, .. } => sources.is_empty(),
    }
}

/// Whether one of the commands splits into, merges or hands on nothing.
pub(crate) fn any_idle(commands: &[Command]) -> bool
    ensures { result ≡ list_any is_idle commands.now }
{
    for command in commands {
        if is_idle(command) {
            return true;
        }
    }
    false
}

/// Whether the command calls a native that does not exist.
fn is_no_native(command: &Command) -> bool
    ensures { result ≡ is_no_native command.now }
{
    match command {
        Command::Call { native, .. } => *native > LAST_NATIVE,
        Command::Transfer { .. }
        | Command::Split { .. }
        | Command::Merge { .. }
        | Command::MakeVec { .. } => false,
    }
}

/// Whether one of the commands calls a native that does not exist.
pub(crate) fn any_no_native(commands: &[Command]) -> bool
    ensures { result ≡ list_any is_no_native commands.now }
{
    for command in commands {
        if is_no_native(command) {
            return true;
        }
    }
    false
}

/// Whether one of the commands has more than 512 arguments.
pub(crate) fn any_wide(commands: &[Command]) -> bool
    ensures { result ≡ list_any (λ c. nat_lt 512 (length (arguments_of c))) commands.now }
{
    for command in commands {
        if argument_count(command) > 512 {
            return true;
        }
    }
    false
}
