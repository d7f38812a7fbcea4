//! Whether a transaction can stand after others, and what it gives.

ghost use Rattle.std.specs.Prelude.{◌≡◌, ◌++◌, ◌||◌, ◌∷◌, [], IfOk, None, OnOk, Some, false, is_some};
ghost use Rattle.std.specs.List.{list_any};
ghost use Rattle.chain_types.specs.declared.objects.ObjectId.{ObjectId};
ghost use Rattle.chain_types.specs.Digests.{transaction_digest};
ghost use Rattle.protocol_spec.specs.Chain.Shape.{shape_fault};
ghost use Rattle.protocol_spec.specs.Chain.Tests.{has_id};
ghost use Rattle.follower_core.specs.Courses.{given, is_bad, is_held};
ghost use Rattle.follower_core.specs.Steps.{creates_in, good, named_after, standing};

use crate::ledger::Ledger;
use crate::reading::read;
use chain_types::{Input, Object, ObjectId, Transaction};
use digest_core::Digest;
use indexmap::IndexSet;
use protocol_spec::Executed;
use ptb_run::{execute, fits};
use std::alloc::Global;
use tx_check::{ShapeRefusal, check_shape, named_id, repeats_object};
use wire_bcs::OutOfMemory;

/// Whether the transaction's shape is not valid, which needs no look at the objects.
fn has_fault(alloc: Global, tx: &Transaction) -> Result<bool, OutOfMemory>
    ensures { IfOk result (λ fault. fault ≡ is_some (shape_fault tx.now)) }
{
    match check_shape(alloc, tx) {
        Ok(()) => Ok(false),
        Err(ShapeRefusal::Invalid(_)) => Ok(true),
        Err(ShapeRefusal::OutOfMemory) => Err(OutOfMemory),
    }
}

/// Executes a transaction of valid shape on the live objects; none if it has no effects.
#[tactic(auto, unfolding(crate::specs::Courses::given))]
fn given(
    alloc: Global,
    ledger: &Ledger,
    tx: &Transaction,
    digest: &Digest,
) -> Result<Option<Executed>, OutOfMemory>
    requires shape { shape_fault tx.now ≡ None }
    requires digest { digest.now ≡ transaction_digest tx.now }
    ensures { IfOk result (λ executed. executed ≡ given ledger.now.present.map tx.now) }
{
    match read(alloc, ledger, tx)? {
        Some(objects) => {
            if fits(tx, &objects) {
                Ok(Some(execute(alloc, tx, digest, &objects)?))
            } else {
                Ok(None)
            }
        }
        None => Ok(None),
    }
}

/// Adds an id to the set; it is not there yet.
fn note(seen: &mut IndexSet<ObjectId>, id: ObjectId) -> Result<(), OutOfMemory>
    requires { has_id seen.old.keys id ≡ false }
    ensures { OnOk result (seen.new.keys ≡ seen.old.keys ++ id ∷ []) }
{
    seen.insert(id)?;
    Ok(())
}

/// Adds the ids that the inputs name.
fn add_named(ids: &mut IndexSet<ObjectId>, inputs: &[Input]) -> Result<(), OutOfMemory>
    ensures { OnOk result (ids.new.keys ≡ named_after ids.old.keys inputs.now) }
{
    let mut rest = inputs;
    while let [input, after @ ..] = rest {
        if let Some(id) = named_id(input) {
            ids.insert(id)?;
        }
        rest = after;
    }
    Ok(())
}

/// The ids that a transaction names, each once.
fn named_by(alloc: Global, tx: &Transaction) -> Result<IndexSet<ObjectId>, OutOfMemory>
    ensures { IfOk result (λ ids. ids.keys ≡ named_after (tx.now.gas.id ∷ []) tx.now.inputs) }
{
    let mut ids = IndexSet::new(alloc);
    note(&mut ids, tx.gas.id)?;
    add_named(&mut ids, tx.inputs.as_slice())?;
    Ok(ids)
}

/// Whether a version of the id is held in this epoch.
fn is_held(ledger: &Ledger, id: &ObjectId) -> bool
    ensures { result ≡ is_held ledger.now.present id.now }
{
    ledger.get(id).is_some() || ledger.is_gone(id)
}

/// Whether an object has an id that is held and is none of these.
fn creates_one(ledger: &Ledger, named: &IndexSet<ObjectId>, object: &Object) -> bool
    ensures { result ≡ creates_in ledger.now.present named.now.keys object.now }
{
    !named.contains(&object.id) && is_held(ledger, &object.id)
}

/// Whether one of the objects has an id that is held and is none of these.
fn creates_any(ledger: &Ledger, named: &IndexSet<ObjectId>, objects: &[Object]) -> bool
    ensures { result ≡ list_any (creates_in ledger.now.present named.now.keys) objects.now }
{
    let mut rest = objects;
    while let [object, after @ ..] = rest {
        if creates_one(ledger, named, object) {
            return true;
        }
        rest = after;
    }
    false
}

/// Whether a transaction writes one id twice, or creates an object whose id is held.
#[tactic(auto, using(crate::proofs::Ids::creates_whole))]
fn is_bad(
    alloc: Global,
    ledger: &Ledger,
    tx: &Transaction,
    executed: &Executed,
) -> Result<bool, OutOfMemory>
    ensures { IfOk result (λ bad. bad ≡ is_bad ledger.now.present tx.now (Some executed.now)) }
{
    if repeats_object(alloc, executed.objects.as_slice())? {
        return Ok(true);
    }
    let named = named_by(alloc, tx)?;
    Ok(creates_any(ledger, &named, executed.objects.as_slice()))
}

/// The outcome of a transaction of valid shape; none if it has no effects, or if they cannot stand after those before
/// it.
fn good_given(
    alloc: Global,
    ledger: &Ledger,
    tx: &Transaction,
    digest: &Digest,
) -> Result<Option<Executed>, OutOfMemory>
    requires shape { shape_fault tx.now ≡ None }
    requires digest { digest.now ≡ transaction_digest tx.now }
    ensures { IfOk result (λ executed. executed ≡ good ledger.now.present tx.now (given ledger.now.present.map tx.now)) }
{
    match given(alloc, ledger, tx, digest)? {
        Some(executed) => {
            if is_bad(alloc, ledger, tx, &executed)? {
                Ok(None)
            } else {
                Ok(Some(executed))
            }
        }
        None => Ok(None),
    }
}

/// Executes a transaction after those before it, and writes nothing yet; none if it is stuck: if its shape is not
/// valid, it was applied in this epoch, or its outcome cannot stand.
#[tactic(auto, unfolding(crate::specs::Steps::standing), using(crate::proofs::Ids::no_fault))]
pub(crate) fn standing(
    alloc: Global,
    ledger: &Ledger,
    tx: &Transaction,
    digest: &Digest,
) -> Result<Option<Executed>, OutOfMemory>
    requires digest { digest.now ≡ transaction_digest tx.now }
    ensures { IfOk result (λ executed. executed ≡ standing ledger.now.present tx.now) }
{
    if has_fault(alloc, tx)? {
        return Ok(None);
    }
    if ledger.has_ran(digest) {
        return Ok(None);
    }
    good_given(alloc, ledger, tx, digest)
}
