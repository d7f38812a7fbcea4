//! When objects fit a transaction.

ghost use Rattle.std.specs.Prelude.{◌≡◌, ◌&&◌, ◌==◌, nat_le, nat_lt, fold, filter, map};
ghost use Rattle.chain_types.specs.Digests.{digest_of_object, is_object};
ghost use Rattle.chain_types.specs.Equal.{digest_eq, id_eq};
ghost use Rattle.protocol_spec.specs.Chain.Keys.{balance_of, fit_inputs, fits, fits_input, is_gas_coin, is_immutable, is_owned_by, is_shared_since, objects_of, pays_gas, version_limit, version_of};
ghost use Rattle.ptb_run.specs.Versions.{greatest_version};

use crate::digested::Digested;
use chain_types::{Address, Content, HashedObject, Input, Object, ObjectRef, Owner, Transaction};
use wire_bcs::Seq;

/// Whether the address owns the object.
fn is_owned_by(who: &Address, owner: &Owner) -> bool
    ensures { result ≡ is_owned_by who.now owner.now }
{
    match owner {
        Owner::Address(address) => *address == *who,
        Owner::Shared(_) | Owner::Immutable => false,
    }
}

/// Whether everyone may read the object, and nobody change it.
fn is_immutable(owner: &Owner) -> bool
    ensures { result ≡ is_immutable owner.now }
{
    match owner {
        Owner::Immutable => true,
        Owner::Address(_) | Owner::Shared(_) => false,
    }
}

/// Whether the object is shared from this version on.
fn is_shared_since(initial: u64, owner: &Owner) -> bool
    ensures { result ≡ is_shared_since initial owner.now }
{
    match owner {
        Owner::Shared(version) => *version == initial,
        Owner::Address(_) | Owner::Immutable => false,
    }
}

/// Whether the object has the id, the version and the digest of the reference.
fn is_referred<T: Digested>(reference: &ObjectRef, object: &T) -> bool
    ensures { result ≡ (id_eq (T.seen object.now).id reference.now.id && ((T.seen object.now).version == reference.now.version) && digest_eq (digest_of_object (T.seen object.now)) reference.now.digest) }
{
    let own = object.as_object();
    own.id == reference.id
        && own.version == reference.version
        && object.to_digest() == reference.digest
}

/// Whether the object is what the input names.
fn fits_input<T: Digested>(tx: &Transaction, input: &Input, object: &T) -> bool
    ensures { result ≡ fits_input tx.now input.now (T.seen object.now) }
{
    let own = object.as_object();
    match input {
        Input::Pure(_) => false,
        Input::Owned(reference) => {
            is_referred(reference, object) && is_owned_by(&tx.sender, &own.owner)
        }
        Input::Immutable(reference) => {
            is_referred(reference, object) && is_immutable(&own.owner)
        }
        Input::Shared { id, initial, .. } => {
            own.id == *id && is_shared_since(*initial, &own.owner)
        }
    }
}

/// Whether the input names an object.
fn is_object(input: &Input) -> bool
    ensures { result ≡ is_object input.now }
{
    match input {
        Input::Pure(_) => false,
        Input::Owned(_) | Input::Immutable(_) | Input::Shared { .. } => true,
    }
}

/// Whether there is one object for each input that names one, in order, and it is what is named.
fn fit_inputs<T: Digested>(tx: &Transaction, inputs: &[Input], objects: &[T]) -> bool
    ensures { result ≡ fit_inputs tx.now (filter is_object inputs.now) (map T.seen objects.now) }
{
    let mut left = inputs;
    let mut rest = objects;
    while let [input, after @ ..] = left {
        if is_object(input) {
            let [object, others @ ..] = rest else {
                return false;
            };
            if !fits_input(tx, input, object) {
                return false;
            }
            rest = others;
        }
        left = after;
    }
    rest.is_empty()
}

/// Whether the objects are those that the transaction names: its gas coin, which is the sender's,
/// and those of its inputs.
fn fit_objects<T: Digested>(tx: &Transaction, objects: &[T]) -> bool
    ensures { result ≡ fit_inputs tx.now (objects_of tx.now) (map T.seen objects.now) }
{
    let [gas, others @ ..] = objects else {
        return false;
    };
    is_referred(&tx.gas, gas)
        && is_owned_by(&tx.sender, &gas.as_object().owner)
        && fit_inputs(tx, tx.inputs.as_slice(), others)
}

/// Whether it is a coin of the currency that pays gas, with this balance or more.
fn holds_budget(content: &Content, budget: u64) -> bool
    ensures { result ≡ (is_gas_coin content.now && nat_le budget (balance_of content.now)) }
{
    match content {
        Content::Coin { currency, balance } => *currency == 0 && budget <= *balance,
        Content::Cap { .. }
        | Content::Counter { .. }
        | Content::Vault { .. }
        | Content::VaultKey { .. }
        | Content::Limit { .. } => false,
    }
}

/// Whether the first object pays gas and holds the budget.
fn pays_gas(tx: &Transaction, objects: &[Object]) -> bool
    ensures { result ≡ pays_gas tx.now objects.now }
{
    match objects.first() {
        Some(gas) => holds_budget(&gas.content, tx.budget),
        None => false,
    }
}

/// The greatest version among the objects, 0 if there is none.
pub(crate) fn greatest_version(objects: &[Object]) -> u64
    ensures { result ≡ greatest_version objects.now }
{
    let mut greatest = 0;
    let mut rest = objects;
    while let [object, after @ ..] = rest {
        greatest = object.version.max(greatest);
        rest = after;
    }
    greatest
}

/// Whether a transaction on the objects writes at a version below 2^62.
fn is_low(objects: &[Object]) -> bool
    ensures { result ≡ nat_lt (version_of objects.now) version_limit }
{
    greatest_version(objects) < 4611686018427387903
}

/// Whether the objects are those that the transaction names, in order: each has the id that is named
/// and, if it is not shared, the version and the digest too; the gas coin and the Owned inputs are the
/// sender's, the Immutable ones immutable, the Shared ones shared from the version that is named; the
/// gas coin is of currency 0 and holds the budget; and the version at which the transaction writes is
/// below 2^62. Takes no memory.
#[tactic(auto, unfolding(protocol_spec::specs::Chain::Keys::fits), using(crate::proofs::Seen::seen_all))]
pub fn fits(tx: &Transaction, inputs: &Seq<Object>) -> bool
    ensures { result ≡ fits tx.now inputs.now }
{
    let objects = inputs.as_slice();
    fit_objects(tx, objects) && pays_gas(tx, objects) && is_low(objects)
}

/// [`fits`] without hashing: the digest of each of the inputs stands beside it in `hashed`. Takes no memory.
#[tactic(auto, unfolding(protocol_spec::specs::Chain::Keys::fits), using(crate::proofs::Seen::seen_all))]
pub fn fits_hashed(tx: &Transaction, hashed: &[HashedObject], inputs: &[Object]) -> bool
    requires { hashed.now ≡ inputs.now }
    ensures { result ≡ fits tx.now inputs.now }
{
    fit_objects(tx, hashed) && pays_gas(tx, inputs) && is_low(inputs)
}
