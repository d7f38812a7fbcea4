//! The faults of shape, the least first.

ghost use Rattle.std.specs.Prelude.{◌≡◌, ◌≤◌, IfOk, length, nat_lt, option_map};
ghost use Rattle.chain_types.specs.Transactions.{transaction};
ghost use Rattle.protocol_spec.specs.Chain.Shape.{cost, shape_fault};
ghost use Rattle.tx_check.specs.Answers.{Checks, number_of_fault};
ghost use Rattle.tx_check.specs.Parts.{command_fault, list_fault};
ghost use Rattle.tx_check.specs.declared.shape.ShapeRefusal.TheVariants as refusal;

use crate::commands::{any_idle, any_no_native, any_wide, names_late, names_no_input};
use crate::fault::ShapeFault;
use crate::ids::repeats_id;
use crate::inputs::has_bad_version;
use crate::length::is_spelled_long;
use chain_types::Transaction;
use std::alloc::Global;
use wire_bcs::OutOfMemory;

/// Why a transaction is refused before any object is looked at.
#[derive(Clone, Copy, Debug, PartialEq, Eq)]
pub enum ShapeRefusal {
    /// The least number that applies:
    ///
    /// - 1: its encoding is longer than 131,072 bytes
    /// - 2: it has no commands
    /// - 3: it has more than 1024 commands
    /// - 4: it has more than 256 inputs
    /// - 5: two of its objects have one id
    /// - 6: an argument is an input that does not exist
    /// - 7: an argument is a result of a command that is not earlier
    /// - 8: a Split, Merge or Transfer has no amounts, sources or values
    /// - 9: a native does not exist
    /// - 10: the budget is below the cost
    /// - 11: a version is 0 or above 2^62 - 2
    /// - 12: a command has more than 512 arguments
    Invalid(u8),
    OutOfMemory,
}

impl From<OutOfMemory> for ShapeRefusal {
    ghost from_gives = { λ _ given. given ≡ refusal.OutOfMemory };

    fn from(_error: OutOfMemory) -> Self {
        ShapeRefusal::OutOfMemory
    }
}

/// The first fault of its size and its objects, if there is one.
#[tactic(auto, unfolding(crate::specs::Parts::list_fault))]
fn list_fault(alloc: Global, tx: &Transaction) -> Result<Option<ShapeFault>, OutOfMemory>
    ensures { IfOk result (λ fault. option_map number_of_fault fault ≡ list_fault tx.now) }
{
    if is_spelled_long(alloc, tx)? {
        Ok(Some(ShapeFault::TooLong))
    } else if tx.commands.is_empty() {
        Ok(Some(ShapeFault::NoCommands))
    } else if tx.commands.len() > 1024 {
        Ok(Some(ShapeFault::TooManyCommands))
    } else if tx.inputs.len() > 256 {
        Ok(Some(ShapeFault::TooManyInputs))
    } else if repeats_id(alloc, tx)? {
        Ok(Some(ShapeFault::RepeatedId))
    } else {
        Ok(None)
    }
}

/// Whether the budget is below the cost: 1000, and 100 for each command.
fn is_poor(tx: &Transaction) -> bool
    ensures { result ≡ nat_lt tx.now.budget (cost tx.now) }
{
    (tx.budget as u128) < 1000 + 100 * tx.commands.len() as u128
}

/// The first fault of its commands and versions, if there is one.
#[tactic(auto, unfolding(crate::specs::Parts::command_fault))]
fn command_fault(tx: &Transaction) -> Option<ShapeFault>
    ensures { option_map number_of_fault result ≡ command_fault tx.now }
{
    let commands = tx.commands.as_slice();
    if names_no_input(tx, commands) {
        Some(ShapeFault::NoInput)
    } else if names_late(commands) {
        Some(ShapeFault::LateResult)
    } else if any_idle(commands) {
        Some(ShapeFault::Idle)
    } else if any_no_native(commands) {
        Some(ShapeFault::NoNative)
    } else if is_poor(tx) {
        Some(ShapeFault::Poor)
    } else if has_bad_version(tx) {
        Some(ShapeFault::BadVersion)
    } else if any_wide(commands) {
        Some(ShapeFault::TooManyArguments)
    } else {
        None
    }
}

/// Whether the transaction has a valid shape, or the least of its faults.
pub fn check_shape(alloc: Global, tx: &Transaction) -> Result<(), ShapeRefusal>
    ensures fault { Checks result (shape_fault tx.now) }
    // A transaction of valid shape may be encoded, and has few inputs.
    ensures short { IfOk result (λ _. transaction.short tx.now) }
    ensures few { IfOk result (λ _. length tx.now.inputs ≤ 256) }
{
    if let Some(fault) = list_fault(alloc, tx)? {
        return Err(ShapeRefusal::Invalid(fault.number()));
    }
    match command_fault(tx) {
        Some(fault) => Err(ShapeRefusal::Invalid(fault.number())),
        None => Ok(()),
    }
}
