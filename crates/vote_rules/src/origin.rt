//! The origins that a vote names.

ghost use Rattle.std.specs.Prelude.{◌≡◌, ◌++◌, ◌∷◌, [], IfOk, OnOk, map, filter};
ghost use Rattle.chain_types.specs.Digests.{is_object};
ghost use Rattle.protocol_spec.specs.Member.Votes.{origin_of, vote_origins};
ghost use Rattle.vote_rules.specs.Cases.{ballot_of, made_in};

use chain_types::{Input, ObjectKey, Producer, Transaction};
use digest_core::Digest;
use std::alloc::Global;
use version_store::Store;
use wire_bcs::{OutOfMemory, Seq};

/// The transaction that made a version; none if the epoch opened with it.
fn made_in(producer: Option<Producer>) -> Option<Digest>
    ensures { result ≡ made_in producer }
{
    match producer {
        Some(Producer::Tx(tx)) => Some(tx),
        Some(Producer::Opening) | None => None,
    }
}

/// The transaction of this epoch that made the version which an input names, or that shared the object.
#[tactic(auto, using(crate::proofs::Cases::made_by_is))]
fn origin_of(store: &Store, input: &Input) -> Option<Digest>
    ensures { result ≡ origin_of (ballot_of store.now) input.now }
{
    match input {
        Input::Pure(_) => None,
        Input::Owned(reference) => made_in(store.producer(&reference.key())),
        Input::Immutable(reference) => made_in(store.producer(&reference.key())),
        Input::Shared { id, initial, .. } => {
            let key = ObjectKey {
                id: *id,
                version: *initial,
            };
            made_in(store.producer(&key))
        }
    }
}

/// Whether the input names an object.
fn is_object(input: &Input) -> bool
    ensures { result ≡ is_object input.now }
{
    !matches!(input, Input::Pure(_))
}

/// The origins of the objects of a transaction, in their order.
#[tactic(auto, unfolding(protocol_spec::specs::Member::Votes::vote_origins))]
pub(crate) fn origins(
    alloc: Global,
    store: &Store,
    tx: &Transaction,
) -> Result<Seq<Option<Digest>>, OutOfMemory>
    ensures { IfOk result (λ origins. origins ≡ vote_origins (ballot_of store.now) tx.now) }
{
    let gas = Input::Owned(tx.gas);
    let mut origins = Seq::new(alloc);
    origins.push(origin_of(store, &gas))?;
    for input in tx.inputs.as_slice() {
        if is_object(input) {
            origins.push(origin_of(store, input))?;
        }
    }
    Ok(origins)
}
