//! The cases that look at one object each.

ghost use Rattle.std.specs.Prelude.{◌≡◌, ◌∷◌, [], ◌&&◌, not, nat_lt, is_some, option_map, ℕ};
ghost use Rattle.digest_core.specs.declared.Digest.{Digest};
ghost use Rattle.chain_types.specs.declared.refusals.DecideRefusal.TheVariants as refused;
ghost use Rattle.chain_types.specs.Digests.{digest_of_object, key_of, is_object};
ghost use Rattle.protocol_spec.specs.Chain.Words.{first_of, where_true};
ghost use Rattle.protocol_spec.specs.Chain.Keys.{balance_of, is_address, is_gas_coin, is_immutable, is_owned_by, is_shared_since, objects_of};
ghost use Rattle.chain_types.specs.Equal.{digest_eq};
ghost use Rattle.protocol_spec.specs.Member.Versions.{live};
ghost use Rattle.protocol_spec.specs.Member.Votes.{absent, consumed, gas_balance, no_gas, object_held, of_held, shared_key, wrong_digest, wrong_kind, wrong_owner};
ghost use Rattle.vote_rules.specs.Cases.{ballot_of, says};

use chain_types::{
    Address, Content, DecideRefusal, Input, Object, ObjectId, ObjectKey, ObjectRef, Owner,
    Transaction,
};
use version_store::Store;

/// A case of the vote rule that looks at one object after the other.
#[derive(Clone, Copy)]
pub(crate) enum Case {
    Absent,
    WrongDigest,
    WrongOwner,
    WrongKind,
}

/// The key at which a shared object begins: its id and its initial version.
fn shared_key(id: &ObjectId, initial: u64) -> ObjectKey
    ensures { result ≡ shared_key id.now initial }
{
    ObjectKey {
        id: *id,
        version: initial,
    }
}

/// A named version that is not held.
fn absent_version(store: &Store, reference: &ObjectRef) -> Option<DecideRefusal>
    ensures { result ≡ where_true (not (is_some (object_held (ballot_of store.now) (key_of reference.now)))) (refused.Absent (key_of reference.now)) }
{
    let key = reference.key();
    match store.get(&key) {
        Some(_) => None,
        None => Some(DecideRefusal::Absent(key)),
    }
}

/// A named version that is not held, or a shared object of which no version is held.
fn absent(store: &Store, input: &Input) -> Option<DecideRefusal>
    ensures { result ≡ absent (ballot_of store.now) input.now }
{
    match input {
        Input::Pure(_) => None,
        Input::Owned(reference) => absent_version(store, reference),
        Input::Immutable(reference) => absent_version(store, reference),
        Input::Shared { id, initial, .. } => {
            if store.has(id) {
                None
            } else {
                Some(DecideRefusal::Absent(shared_key(id, *initial)))
            }
        }
    }
}

/// A reference with another digest than the held version's.
fn wrong_digest_at(store: &Store, reference: &ObjectRef) -> Option<DecideRefusal>
    ensures { result ≡ where_true (of_held (object_held (ballot_of store.now) (key_of reference.now)) (λ o. not (digest_eq (digest_of_object o) reference.now.digest))) (refused.WrongDigest (key_of reference.now)) }
{
    let key = reference.key();
    match store.hashed(&key) {
        Some(object) if object.digest() != reference.digest => {
            Some(DecideRefusal::WrongDigest(key))
        }
        _ => None,
    }
}

fn wrong_digest(store: &Store, input: &Input) -> Option<DecideRefusal>
    ensures { result ≡ wrong_digest (ballot_of store.now) input.now }
{
    match input {
        Input::Owned(reference) => wrong_digest_at(store, reference),
        Input::Immutable(reference) => wrong_digest_at(store, reference),
        Input::Pure(_) | Input::Shared { .. } => None,
    }
}

/// Whether a user other than this one owns the object.
fn is_others(owner: &Owner, user: &Address) -> bool
    ensures { result ≡ (is_address owner.now && not (is_owned_by user.now owner.now)) }
{
    match owner {
        Owner::Address(address) => *address != *user,
        Owner::Shared(_) | Owner::Immutable => false,
    }
}

/// An Owned input whose version belongs to a user other than the sender.
fn wrong_owner(store: &Store, tx: &Transaction, input: &Input) -> Option<DecideRefusal>
    ensures { result ≡ wrong_owner (ballot_of store.now) tx.now input.now }
{
    let Input::Owned(reference) = input else {
        return None;
    };
    let key = reference.key();
    match store.get(&key) {
        Some(object) if is_others(&object.owner, &tx.sender) => {
            Some(DecideRefusal::WrongOwner(key))
        }
        _ => None,
    }
}

fn is_address(owner: &Owner) -> bool
    ensures { result ≡ is_address owner.now }
{
    matches!(owner, Owner::Address(_))
}

fn is_immutable(owner: &Owner) -> bool
    ensures { result ≡ is_immutable owner.now }
{
    matches!(owner, Owner::Immutable)
}

fn is_shared_since(owner: &Owner, initial: u64) -> bool
    ensures { result ≡ is_shared_since initial owner.now }
{
    match owner {
        Owner::Shared(since) => *since == initial,
        Owner::Address(_) | Owner::Immutable => false,
    }
}

/// An Owned input that is not a user's.
fn not_owned(store: &Store, reference: &ObjectRef) -> Option<DecideRefusal>
    ensures { result ≡ where_true (of_held (object_held (ballot_of store.now) (key_of reference.now)) (λ o. not (is_address o.owner))) (refused.WrongKind (key_of reference.now)) }
{
    let key = reference.key();
    match store.get(&key) {
        Some(object) if !is_address(&object.owner) => Some(DecideRefusal::WrongKind(key)),
        _ => None,
    }
}

/// An Immutable input that is not immutable.
fn not_immutable(store: &Store, reference: &ObjectRef) -> Option<DecideRefusal>
    ensures { result ≡ where_true (of_held (object_held (ballot_of store.now) (key_of reference.now)) (λ o. not (is_immutable o.owner))) (refused.WrongKind (key_of reference.now)) }
{
    let key = reference.key();
    match store.get(&key) {
        Some(object) if !is_immutable(&object.owner) => Some(DecideRefusal::WrongKind(key)),
        _ => None,
    }
}

/// A Shared input whose object is not live, or is not shared from the initial version that the input names.
fn not_shared(store: &Store, id: &ObjectId, initial: u64) -> Option<DecideRefusal>
    ensures { result ≡ where_true (not (of_held (live store.now.opening store.now.executed id.now) (λ o. is_shared_since initial o.owner))) (refused.WrongKind (shared_key id.now initial)) }
{
    match store.live(id) {
        Some(object) if is_shared_since(&object.owner, initial) => None,
        _ => Some(DecideRefusal::WrongKind(shared_key(id, initial))),
    }
}

fn wrong_kind(store: &Store, input: &Input) -> Option<DecideRefusal>
    ensures { result ≡ wrong_kind (ballot_of store.now) input.now }
{
    match input {
        Input::Pure(_) => None,
        Input::Owned(reference) => not_owned(store, reference),
        Input::Immutable(reference) => not_immutable(store, reference),
        Input::Shared { id, initial, .. } => not_shared(store, id, *initial),
    }
}

/// What a case says of one object.
fn refusal_of(case: Case, store: &Store, tx: &Transaction, input: &Input) -> Option<DecideRefusal>
    ensures { result ≡ says case (ballot_of store.now) tx.now input.now }
{
    match case {
        Case::Absent => absent(store, input),
        Case::WrongDigest => wrong_digest(store, input),
        Case::WrongOwner => wrong_owner(store, tx, input),
        Case::WrongKind => wrong_kind(store, input),
    }
}

/// What a case says of the first of these inputs of which it says anything.
fn first_among(
    case: Case,
    store: &Store,
    tx: &Transaction,
    inputs: &[Input],
) -> Option<DecideRefusal>
    ensures { result ≡ first_of (says case (ballot_of store.now) tx.now) inputs.now }
{
    let mut rest = inputs;
    while let [input, after @ ..] = rest {
        let refusal = refusal_of(case, store, tx, input);
        if refusal.is_some() {
            return refusal;
        }
        rest = after;
    }
    None
}

/// What a case says of the first object of a transaction of which it says anything, gas first.
#[tactic(auto, using(crate::proofs::Cases::gas_first))]
pub(crate) fn first_refusal(case: Case, store: &Store, tx: &Transaction) -> Option<DecideRefusal>
    ensures { result ≡ first_of (says case (ballot_of store.now) tx.now) (objects_of tx.now) }
{
    let gas = Input::Owned(tx.gas);
    let refusal = refusal_of(case, store, tx, &gas);
    if refusal.is_some() {
        return refusal;
    }
    first_among(case, store, tx, tx.inputs.as_slice())
}

/// The first of these versions that a transaction executed here consumed.
pub(crate) fn first_consumed(store: &Store, keys: &[ObjectKey]) -> Option<DecideRefusal>
    ensures { result ≡ first_of (consumed (ballot_of store.now)) keys.now }
{
    let mut rest = keys;
    while let [key, after @ ..] = rest {
        if let Some(by) = store.consumer(key) {
            return Some(DecideRefusal::Consumed { key: *key, by });
        }
        rest = after;
    }
    None
}

/// Whether it is a coin of the currency that pays gas.
fn is_gas_coin(content: &Content) -> bool
    ensures { result ≡ is_gas_coin content.now }
{
    matches!(content, Content::Coin { currency: 0, .. })
}

/// The balance of a coin, 0 of anything else.
fn balance_of(content: &Content) -> u64
    ensures { result ≡ balance_of content.now }
{
    match content {
        Content::Coin { balance, .. } => *balance,
        _ => 0,
    }
}

/// Gas that is not a user's coin of the currency that pays gas.
pub(crate) fn no_gas(store: &Store, tx: &Transaction) -> Option<DecideRefusal>
    ensures { result ≡ no_gas (ballot_of store.now) tx.now }
{
    let key = tx.gas.key();
    match store.get(&key) {
        Some(gas) if !(is_address(&gas.owner) && is_gas_coin(&gas.content)) => {
            Some(DecideRefusal::WrongKind(key))
        }
        _ => None,
    }
}

/// What the gas coin holds.
fn gas_balance(store: &Store, tx: &Transaction) -> u64
    ensures { result ≡ gas_balance (ballot_of store.now) tx.now }
{
    match store.get(&tx.gas.key()) {
        Some(gas) => balance_of(&gas.content),
        None => 0,
    }
}

/// A gas coin that holds less than the budget.
pub(crate) fn poor_gas(store: &Store, tx: &Transaction) -> Option<DecideRefusal>
    ensures { result ≡ where_true (nat_lt (gas_balance (ballot_of store.now) tx.now) tx.now.budget) (refused.PoorGas (gas_balance (ballot_of store.now) tx.now) tx.now.budget) }
{
    let had = gas_balance(store, tx);
    let want = tx.budget;
    if had < want {
        Some(DecideRefusal::PoorGas { had, want })
    } else {
        None
    }
}
