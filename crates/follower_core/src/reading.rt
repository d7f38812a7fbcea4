//! The objects that a transaction reads.

ghost use Rattle.std.specs.Prelude.{◌≡◌, ◌∷◌, [], IfOk, Some, option_copied};
ghost use Rattle.std.specs.FinMap.{get};
ghost use Rattle.chain_types.specs.Digests.{is_object};
ghost use Rattle.protocol_spec.specs.Member.Sequential.{at_version, named_in, read_by};
ghost use Rattle.follower_core.specs.Steps.{reads_from};

use crate::ledger::Ledger;
use chain_types::{Input, Object, ObjectId, Transaction};
use std::alloc::Global;
use wire_bcs::{OutOfMemory, Seq};

/// The object under an id, if it has this version.
fn versioned<'a>(ledger: &'a Ledger, id: &ObjectId, version: u64) -> Option<&'a Object>
    ensures { option_copied result ≡ at_version version (get ledger.now.present.map id.now) }
{
    match ledger.get(id) {
        Some(object) => {
            if object.version == version {
                Some(object)
            } else {
                None
            }
        }
        None => None,
    }
}

/// The object that an input names: of the version that is named, unless the input is shared.
fn named<'a>(ledger: &'a Ledger, input: &Input) -> Option<&'a Object>
    ensures { option_copied result ≡ named_in ledger.now.present.map input.now }
{
    match input {
        Input::Pure(_) => None,
        Input::Owned(reference) => versioned(ledger, &reference.id, reference.version),
        Input::Immutable(reference) => versioned(ledger, &reference.id, reference.version),
        Input::Shared { id, .. } => ledger.get(id),
    }
}

/// Whether the input names an object.
fn is_object(input: &Input) -> bool
    ensures { result ≡ is_object input.now }
{
    match input {
        Input::Pure(_) => false,
        Input::Owned(_) | Input::Immutable(_) | Input::Shared { .. } => true,
    }
}

/// The gas coin and the objects that the inputs name, none if one of them is missing.
fn read_inputs(
    alloc: Global,
    ledger: &Ledger,
    gas: Object,
    inputs: &[Input],
) -> Result<Option<Seq<Object>>, OutOfMemory>
    ensures { IfOk result (λ objects. objects ≡ reads_from ledger.now.present.map (Some (gas ∷ [])) inputs.now) }
{
    let mut objects = Seq::new(alloc);
    objects.push(gas)?;
    let mut rest = inputs;
    while let [input, after @ ..] = rest {
        if is_object(input) {
            let Some(object) = named(ledger, input) else {
                return Ok(None);
            };
            objects.push(*object)?;
        }
        rest = after;
    }
    Ok(Some(objects))
}

/// The objects that a transaction names, in order; none if one of them is not live, or not of the named version.
#[tactic(auto, using(crate::proofs::Inputs::read_all, crate::proofs::Inputs::read_none))]
pub(crate) fn read(
    alloc: Global,
    ledger: &Ledger,
    tx: &Transaction,
) -> Result<Option<Seq<Object>>, OutOfMemory>
    ensures { IfOk result (λ objects. objects ≡ read_by ledger.now.present.map tx.now) }
{
    match versioned(ledger, &tx.gas.id, tx.gas.version) {
        Some(gas) => read_inputs(alloc, ledger, *gas, tx.inputs.as_slice()),
        None => Ok(None),
    }
}
