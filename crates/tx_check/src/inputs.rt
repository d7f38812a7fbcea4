//! Versions that no object has, among the gas coin and the inputs of a transaction.

ghost use Rattle.std.specs.Prelude.{◌≡◌};
ghost use Rattle.std.specs.List.{list_any};
ghost use Rattle.protocol_spec.specs.Chain.Keys.{objects_of};
ghost use Rattle.protocol_spec.specs.Chain.Shape.{is_bad_version, names_bad_version};

use chain_types::{Input, Transaction};

/// Whether no object has the version: 0, or above 2^62 - 2.
fn is_bad_version(version: u64) -> bool
    ensures { result ≡ is_bad_version version }
{
    version == 0 || version > 4611686018427387902
}

/// Whether the input names a version that no object has.
fn names_bad_version(input: &Input) -> bool
    ensures { result ≡ names_bad_version input.now }
{
    match input {
        Input::Pure(_) => false,
        Input::Owned(reference) => is_bad_version(reference.version),
        Input::Immutable(reference) => is_bad_version(reference.version),
        Input::Shared { initial, .. } => is_bad_version(*initial),
    }
}

/// Whether one of the inputs names a version that no object has.
fn any_bad_version(inputs: &[Input]) -> bool
    ensures { result ≡ list_any names_bad_version inputs.now }
{
    for input in inputs {
        if names_bad_version(input) {
            return true;
        }
    }
    false
}

/// Whether an object of the transaction is named by a version that no object has.
#[tactic(auto, using(crate::proofs::Objects::bad_among_objects))]
pub(crate) fn has_bad_version(tx: &Transaction) -> bool
    ensures { result ≡ list_any names_bad_version (objects_of tx.now) }
{
    is_bad_version(tx.gas.version) || any_bad_version(tx.inputs.as_slice())
}
