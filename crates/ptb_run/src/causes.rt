//! Why the arguments of a command may not be taken.

ghost use Rattle.std.specs.Prelude.{◌≡◌, ◌≤◌, ◌++◌, ◌∷◌, [], IfOk, if◌then◌else◌, length, map, option_map, slice_get};
ghost use Rattle.protocol_spec.specs.Block.Commands.{arguments_cause, is_common, is_frozen_place, is_pure, is_read_only, is_transfer, stays_in_place};
ghost use Rattle.protocol_spec.specs.Chain.Words.{first_some};
ghost use Rattle.ptb_run.specs.Blocks.{block_of};
ghost use Rattle.ptb_run.specs.Causes.{cause_of, causes_after, causes_at, is_named, is_seen, named_value_cause, number_of_cause};
ghost use Rattle.ptb_run.specs.Needs.{need_meant, wanted_of};
ghost use Rattle.ptb_run.specs.Values.{spot_of, value_of};

use crate::block::Block;
use crate::halt::Cause;
use crate::needs::{Need, Wanted, changes_value, is_bad_pure, is_right_kind, takes_value};
use crate::value::{Spot, Value, spot_of};
use chain_types::{Command, Input, Transaction};
use indexmap::IndexSet;
use std::alloc::Global;
use wire_bcs::OutOfMemory;

/// Whether the command is a Transfer.
fn is_transfer(command: &Command) -> bool
    ensures { result ≡ is_transfer command.now }
{
    match command {
        Command::Transfer { .. } => true,
        Command::Call { .. }
        | Command::Split { .. }
        | Command::Merge { .. }
        | Command::MakeVec { .. } => false,
    }
}

/// Whether the input of this number is immutable or shared, and so cannot be taken by value.
fn is_common(tx: &Transaction, number: u16) -> bool
    ensures { result ≡ is_common (slice_get tx.now.inputs number) }
{
    match tx.inputs.as_slice().get(number as usize) {
        Some(Input::Immutable(_)) | Some(Input::Shared { .. }) => true,
        Some(Input::Pure(_)) | Some(Input::Owned(_)) | None => false,
    }
}

/// Whether the input of this number may only be read.
fn is_read_only(tx: &Transaction, number: u16) -> bool
    ensures { result ≡ is_read_only (slice_get tx.now.inputs number) }
{
    match tx.inputs.as_slice().get(number as usize) {
        Some(Input::Immutable(_)) => true,
        Some(Input::Shared { mutable, .. }) => !*mutable,
        Some(Input::Pure(_)) | Some(Input::Owned(_)) | None => false,
    }
}

/// Whether this command cannot take the value of the place by value.
fn stays_in_place(tx: &Transaction, command: &Command, spot: Spot) -> bool
    ensures { result ≡ stays_in_place tx.now command.now (spot_of spot) }
{
    match spot {
        Spot::Gas => !is_transfer(command),
        Spot::Input(number) => is_common(tx, number),
        Spot::Result(_, _) => false,
    }
}

/// Whether the value of a place may not be changed.
fn is_frozen(tx: &Transaction, spot: Spot) -> bool
    ensures { result ≡ is_frozen_place tx.now (spot_of spot) }
{
    match spot {
        Spot::Gas | Spot::Result(_, _) => false,
        Spot::Input(number) => is_read_only(tx, number),
    }
}

/// Whether the value is pure bytes.
fn is_pure(value: &Value) -> bool
    ensures { result ≡ is_pure (value_of value.now) }
{
    match value {
        Value::Pure(_) => true,
        Value::Object(_) | Value::Vector { .. } => false,
    }
}

/// The first cause that concerns a value; `named` says that an earlier argument names its place.
#[tactic(auto, unfolding(crate::specs::Causes::named_value_cause))]
fn value_cause(
    tx: &Transaction,
    command: &Command,
    named: bool,
    spot: Spot,
    need: Need,
    value: &Value,
) -> Option<Cause>
    ensures { result ≡ named_value_cause tx.now command.now named (spot_of spot) (need_meant need) (value_of value.now) }
{
    if is_bad_pure(need, value) {
        Some(Cause::BadPure)
    } else if !is_right_kind(need, value) {
        Some(Cause::WrongKind)
    } else if takes_value(need) && stays_in_place(tx, command, spot) {
        Some(Cause::OnlyLent)
    } else if changes_value(need) && is_frozen(tx, spot) {
        Some(Cause::ReadOnly)
    } else if !is_pure(value) && named {
        Some(Cause::Aliased)
    } else {
        None
    }
}

/// The first cause of one argument.
#[tactic(auto, unfolding(crate::specs::Causes::cause_of, crate::specs::Blocks::block_of))]
fn argument_cause(
    block: &Block,
    tx: &Transaction,
    command: &Command,
    named: bool,
    wanted: &Wanted,
) -> Option<Cause>
    ensures { result ≡ cause_of tx.now (block_of block.now) command.now named wanted.now }
{
    if block.has_no_result(&wanted.argument) {
        return Some(Cause::NoResult);
    }
    let spot = spot_of(&wanted.argument);
    match block.slots.at(spot) {
        Some(value) => value_cause(tx, command, named, spot, wanted.need, value),
        None => Some(Cause::Spent),
    }
}

/// Notes a place, and says whether it was seen before.
fn note(seen: &mut IndexSet<Spot>, spot: Spot) -> Result<bool, OutOfMemory>
    ensures before { IfOk result (λ named. named ≡ is_seen seen.old.keys spot) }
    ensures after { IfOk result (λ named. seen.new.keys ≡ (if named then seen.old.keys else seen.old.keys ++ spot ∷ [])) }
{
    let named = seen.contains(&spot);
    seen.insert(spot)?;
    Ok(named)
}

/// The first cause of the arguments, from left to right, each place noted as it is named.
fn first_cause(
    alloc: Global,
    block: &Block,
    tx: &Transaction,
    command: &Command,
    wanted: &[Wanted],
) -> Result<Option<Cause>, OutOfMemory>
    ensures { IfOk result (λ cause. cause ≡ causes_after tx.now (block_of block.now) command.now [] wanted.now) }
{
    let mut seen = IndexSet::new(alloc);
    let mut rest = wanted;
    while let [one, after @ ..] = rest {
        let named = note(&mut seen, spot_of(&one.argument))?;
        if let Some(cause) = argument_cause(block, tx, command, named, one) {
            return Ok(Some(cause));
        }
        rest = after;
    }
    Ok(None)
}

/// Whether one of these arguments names the place.
fn is_named(earlier: &[Wanted], spot: Spot) -> bool
    ensures { result ≡ is_named earlier.now spot }
{
    for one in earlier {
        if spot == spot_of(&one.argument) {
            return true;
        }
    }
    false
}

/// [`first_cause`] for few arguments: each is compared with those before it, which costs less than a set of places.
fn first_cause_of_few(
    block: &Block,
    tx: &Transaction,
    command: &Command,
    wanted: &[Wanted],
) -> Option<Cause>
    requires few { length wanted.now ≤ 8 }
    ensures { result ≡ causes_at tx.now (block_of block.now) command.now wanted.now 0 wanted.now }
{
    let mut place = 0;
    let mut rest = wanted;
    while let [one, after @ ..] = rest {
        let (earlier, _) = wanted.split_at(place);
        let named = is_named(earlier, spot_of(&one.argument));
        if let Some(cause) = argument_cause(block, tx, command, named, one) {
            return Some(cause);
        }
        place += 1;
        rest = after;
    }
    None
}

/// The first cause of the arguments, from left to right.
#[tactic(auto, using(crate::proofs::Aliases::causes_are, crate::proofs::Aliases::few_are))]
pub(crate) fn arguments_cause(
    alloc: Global,
    block: &Block,
    tx: &Transaction,
    command: &Command,
    wanted: &[Wanted],
) -> Result<Option<Cause>, OutOfMemory>
    ensures { IfOk result (λ cause. option_map number_of_cause cause ≡ arguments_cause tx.now (block_of block.now) command.now [] (map wanted_of wanted.now)) }
{
    if wanted.len() <= 8 {
        return Ok(first_cause_of_few(block, tx, command, wanted));
    }
    first_cause(alloc, block, tx, command, wanted)
}
