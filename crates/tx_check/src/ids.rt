//! The ids that a transaction names, and ids that come twice.

ghost use Rattle.std.specs.Prelude.{◌≡◌, ◌++◌, ◌∷◌, [], IfOk, OnOk, false, map};
ghost use Rattle.std.specs.List.{list_any};
ghost use Rattle.chain_types.specs.Equal.{id_eq};
ghost use Rattle.chain_types.specs.declared.objects.Object.{Object};
ghost use Rattle.protocol_spec.specs.Chain.Keys.{named_id, named_ids};
ghost use Rattle.protocol_spec.specs.Chain.Words.{repeats};
ghost use Rattle.tx_check.specs.Parts.{again_if, names_id, repeats_after, two_named};

use chain_types::{Input, Object, ObjectId, Transaction};
use indexmap::IndexSet;
use std::alloc::Global;
use wire_bcs::{OutOfMemory, Seq};

/// The id that an input names, none of bytes.
pub fn named_id(input: &Input) -> Option<ObjectId>
    ensures { result ≡ named_id input.now }
{
    match input {
        Input::Pure(_) => None,
        Input::Owned(reference) => Some(reference.id),
        Input::Immutable(reference) => Some(reference.id),
        Input::Shared { id, .. } => Some(*id),
    }
}

/// The ids of the objects of a transaction, in their order.
fn named_ids(alloc: Global, tx: &Transaction) -> Result<Seq<ObjectId>, OutOfMemory>
    ensures { IfOk result (λ ids. ids ≡ named_ids tx.now) }
{
    let mut ids = Seq::new(alloc);
    ids.push(tx.gas.id)?;
    for input in tx.inputs.as_slice() {
        if let Some(id) = named_id(input) {
            ids.push(id)?;
        }
    }
    Ok(ids)
}

/// Notes an id that was not seen before.
fn note(seen: &mut IndexSet<ObjectId>, id: ObjectId) -> Result<(), OutOfMemory>
    requires { list_any (λ other. id_eq id other) seen.old.keys ≡ false }
    ensures { OnOk result (seen.new.keys ≡ seen.old.keys ++ id ∷ []) }
{
    seen.insert(id)?;
    Ok(())
}

/// Whether one of the ids comes twice.
fn has_twice(alloc: Global, ids: &[ObjectId]) -> Result<bool, OutOfMemory>
    ensures { IfOk result (λ twice. twice ≡ repeats_after [] ids.now) }
{
    let mut seen = IndexSet::new(alloc);
    let mut rest = ids;
    while let [id, after @ ..] = rest {
        if seen.contains(id) {
            return Ok(true);
        }
        note(&mut seen, *id)?;
        rest = after;
    }
    Ok(false)
}

/// Whether the input names the id. Takes no memory.
fn names_id(id: &ObjectId, input: &Input) -> bool
    ensures { result ≡ names_id id.now input.now }
{
    match input {
        Input::Pure(_) => false,
        Input::Owned(reference) => *id == reference.id,
        Input::Immutable(reference) => *id == reference.id,
        Input::Shared { id: other, .. } => *id == *other,
    }
}

/// Whether one of the inputs names the id. Takes no memory.
fn is_named(id: &ObjectId, inputs: &[Input]) -> bool
    ensures { result ≡ list_any (names_id id.now) inputs.now }
{
    for input in inputs {
        if names_id(id, input) {
            return true;
        }
    }
    false
}

/// Whether one of the inputs names the id that this input names. Takes no memory.
fn is_again(input: &Input, inputs: &[Input]) -> bool
    ensures { result ≡ again_if (named_id input.now) inputs.now }
{
    match named_id(input) {
        Some(id) => is_named(&id, inputs),
        None => false,
    }
}

/// Whether two of the inputs name one id. Takes no memory; the time is quadratic.
fn two_named(inputs: &[Input]) -> bool
    ensures { result ≡ two_named inputs.now }
{
    let mut rest = inputs;
    while let [input, after @ ..] = rest {
        if is_again(input, after) {
            return true;
        }
        rest = after;
    }
    false
}

/// Whether a transaction of few inputs names an id twice. Takes no memory.
#[tactic(auto, using(crate::proofs::Objects::ids_repeat))]
fn few_repeat(tx: &Transaction) -> bool
    ensures { result ≡ repeats id_eq (named_ids tx.now) }
{
    is_named(&tx.gas.id, tx.inputs.as_slice()) || two_named(tx.inputs.as_slice())
}

/// Whether a transaction of many inputs names an id twice.
#[tactic(auto, using(crate::proofs::Twice::repeats_whole))]
fn many_repeat(alloc: Global, tx: &Transaction) -> Result<bool, OutOfMemory>
    ensures { IfOk result (λ twice. twice ≡ repeats id_eq (named_ids tx.now)) }
{
    let ids = named_ids(alloc, tx)?;
    has_twice(alloc, ids.as_slice())
}

/// Whether the transaction names an id twice. Few ids are compared with one another, without a set of them.
pub(crate) fn repeats_id(alloc: Global, tx: &Transaction) -> Result<bool, OutOfMemory>
    ensures { IfOk result (λ twice. twice ≡ repeats id_eq (named_ids tx.now)) }
{
    if tx.inputs.len() <= 8 {
        return Ok(few_repeat(tx));
    }
    many_repeat(alloc, tx)
}

/// The ids of the objects.
fn ids_of(alloc: Global, objects: &[Object]) -> Result<Vec<ObjectId>, OutOfMemory>
    ensures { IfOk result (λ ids. ids.items ≡ map (λ (o : Object). o.id) objects.now) }
{
    Ok(objects.iter().map(|object| object.id).collect(alloc)?)
}

/// Whether two of the objects have one id. The only error is that memory is refused.
#[tactic(auto, using(crate::proofs::Twice::repeats_whole))]
pub fn repeats_object(alloc: Global, objects: &[Object]) -> Result<bool, OutOfMemory>
    ensures { IfOk result (λ twice. twice ≡ repeats id_eq (map (λ (o : Object). o.id) objects.now)) }
{
    let ids = ids_of(alloc, objects)?;
    has_twice(alloc, &ids)
}
