//! Transactions with a list that is longer than a limit.

ghost use Rattle.std.specs.Prelude.{◌≡◌};
ghost use Rattle.std.specs.List.{list_any};
ghost use Rattle.chain_types.specs.Long.{has_long_list, is_long_command, is_long_input};

use crate::transactions::{Command, Input, Transaction};

/// Whether an input has more than `most` bytes.
fn is_long_input(most: u64, input: &Input) -> bool
    ensures { result ≡ is_long_input most input.now }
{
    match input {
        Input::Pure(bytes) => bytes.len() > most,
        Input::Owned(_) | Input::Immutable(_) | Input::Shared { .. } => false,
    }
}

/// Whether a command has more than `most` arguments or amounts in its list.
fn is_long_command(most: u64, command: &Command) -> bool
    ensures { result ≡ is_long_command most command.now }
{
    match command {
        Command::Call { args, .. } => args.len() > most,
        Command::Transfer { values, .. } => values.len() > most,
        Command::Split { amounts, .. } => amounts.len() > most,
        Command::Merge { sources, .. } => sources.len() > most,
        Command::MakeVec { values, .. } => values.len() > most,
    }
}

/// Whether one of the inputs has more than `most` bytes.
fn any_long_input(most: u64, inputs: &[Input]) -> bool
    ensures { result ≡ list_any (is_long_input most) inputs.now }
{
    for input in inputs {
        if is_long_input(most, input) {
            return true;
        }
    }
    false
}

/// Whether one of the commands has more than `most` arguments or amounts in its list.
fn any_long_command(most: u64, commands: &[Command]) -> bool
    ensures { result ≡ list_any (is_long_command most) commands.now }
{
    for command in commands {
        if is_long_command(most, command) {
            return true;
        }
    }
    false
}

/// Whether a transaction has more than `most` inputs or commands, or one of these has a list
/// of more than `most`. Takes no memory, and time linear in inputs and commands.
pub fn has_long_list(most: u64, tx: &Transaction) -> bool
    ensures { result ≡ has_long_list most tx.now }
{
    tx.inputs.len() > most
        || any_long_input(most, tx.inputs.as_slice())
        || tx.commands.len() > most
        || any_long_command(most, tx.commands.as_slice())
}
