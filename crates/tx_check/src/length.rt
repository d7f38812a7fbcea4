//! Whether the encoding of a transaction is longer than 131,072 bytes. Only one with bulk is encoded to find out: more
//! than 128 inputs or 300 commands, a pure input of more than 128 bytes, or a command with more than 64 listed
//! arguments.

ghost use Rattle.std.specs.Prelude.{◌≡◌, IfOk, length, nat_lt};
ghost use Rattle.std.specs.List.{list_any};
ghost use Rattle.chain_types.specs.Transactions.{transaction};
ghost use Rattle.tx_check.specs.Bulk.{has_bulk, is_bulky_command, is_bulky_input, is_bulky_ref};

use crate::arguments::listed_of;
use chain_types::{Command, Input, ObjectRef, Transaction, encode_tx, has_long_list};
use std::alloc::Global;
use wire_bcs::OutOfMemory;

/// Whether a reference is long. None is, since its arrays have 32 bytes; the definition sees lists, which might be
/// longer.
fn is_bulky_ref(reference: &ObjectRef) -> bool
    ensures { result ≡ is_bulky_ref reference.now }
{
    reference.id.0.0.as_slice().len() > 32 || reference.digest.0.as_slice().len() > 32
}

/// Whether an input has bulk: more than 128 pure bytes.
fn is_bulky_input(input: &Input) -> bool
    ensures { result ≡ is_bulky_input input.now }
{
    match input {
        Input::Pure(bytes) => bytes.len() > 128,
        Input::Owned(reference) => is_bulky_ref(reference),
        Input::Immutable(reference) => is_bulky_ref(reference),
        Input::Shared { id, .. } => id.0.0.as_slice().len() > 32,
    }
}

/// Whether one of the inputs has bulk.
fn any_bulky_input(inputs: &[Input]) -> bool
    ensures { result ≡ list_any is_bulky_input inputs.now }
{
    for input in inputs {
        if is_bulky_input(input) {
            return true;
        }
    }
    false
}

/// Whether a command has bulk: more than 64 arguments or amounts in its list.
fn is_bulky_command(command: &Command) -> bool
    ensures { result ≡ is_bulky_command command.now }
{
    listed_of(command).len() > 64
}

/// Whether one of the commands has bulk.
fn any_bulky_command(commands: &[Command]) -> bool
    ensures { result ≡ list_any is_bulky_command commands.now }
{
    for command in commands {
        if is_bulky_command(command) {
            return true;
        }
    }
    false
}

/// Whether a transaction has bulk. Without it, its encoding has at most 131,072 bytes.
fn has_bulk(tx: &Transaction) -> bool
    ensures { result ≡ has_bulk tx.now }
{
    tx.sender.0.0.as_slice().len() > 32
        || is_bulky_ref(&tx.gas)
        || tx.inputs.len() > 128
        || any_bulky_input(tx.inputs.as_slice())
        || tx.commands.len() > 300
        || any_bulky_command(tx.commands.as_slice())
}

/// Whether the encoding of a transaction is longer than 131,072 bytes, found by encoding it. If one of its lists is
/// longer than that by itself, so is the encoding, and nothing is encoded: so the lists of what is encoded are short
/// enough for it.
fn is_encoded_long(alloc: Global, tx: &Transaction) -> Result<bool, OutOfMemory>
    ensures { IfOk result (λ long. long ≡ nat_lt 131072 (length (transaction.spell tx.now))) }
{
    if has_long_list(131072, tx) {
        return Ok(true);
    }
    let bytes = encode_tx(alloc, tx)?;
    Ok(bytes.len() > 131072)
}

/// Whether the encoding of a transaction is longer than 131,072 bytes. Most transactions are too small for that, and
/// are not encoded.
#[tactic(auto, using(crate::proofs::Brief::brief_short))]
pub(crate) fn is_spelled_long(alloc: Global, tx: &Transaction) -> Result<bool, OutOfMemory>
    ensures { IfOk result (λ long. long ≡ nat_lt 131072 (length (transaction.spell tx.now))) }
{
    if !has_bulk(tx) {
        return Ok(false);
    }
    is_encoded_long(alloc, tx)
}
