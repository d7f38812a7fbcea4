//! The transactions of a checkpoint, one after the other.

ghost use Rattle.std.specs.Prelude.{◌≡◌, ◌≤◌, ◌++◌, ◌∷◌, ℕ, List, [], IfErr, IfOk, None, OnOk, Some, false, length};
ghost use Rattle.chain_types.specs.declared.transactions.Transaction.{Transaction};
ghost use Rattle.chain_types.specs.Digests.{transaction_digest};
ghost use Rattle.chain_types.specs.Transactions.{transaction};
ghost use Rattle.effects_core.specs.Effects.{digest_of_effects};
ghost use Rattle.protocol_spec.specs.Chain.Tests.{has_digest};
ghost use Rattle.protocol_spec.specs.Chain.Words.{Each};
ghost use Rattle.follower_core.specs.Courses.{behind, behind_all, differs, first_bad, place_refusal, with_given};
ghost use Rattle.follower_core.specs.Steps.{Stands, with_objects, without_ids};

use crate::ledger::Ledger;
use crate::refusals::FollowRefusal;
use crate::standing::standing;
use chain_types::{Object, ObjectId, Transaction, tx_digest};
use checkpoint_core::Item;
use digest_core::Digest;
use effects_core::{Effects, effects_digest};
use protocol_spec::Executed;
use std::alloc::Global;
use wire_bcs::OutOfMemory;

/// Puts the objects under their ids.
pub(crate) fn put_all(ledger: &mut Ledger, objects: &[Object]) -> Result<(), OutOfMemory>
    ensures kept { ledger.new.kept ≡ ledger.old.kept }
    ensures present { OnOk result (ledger.new.present ≡ with_objects ledger.old.present objects.now) }
{
    for object in objects {
        ledger.put(object)?;
    }
    Ok(())
}

/// Takes out what stands under the ids.
fn delete_all(ledger: &mut Ledger, ids: &[ObjectId]) -> Result<(), OutOfMemory>
    ensures kept { ledger.new.kept ≡ ledger.old.kept }
    ensures present { OnOk result (ledger.new.present ≡ without_ids ledger.old.present ids.now) }
{
    for id in ids {
        ledger.delete(id)?;
    }
    Ok(())
}

/// Writes a transaction's outcome: its objects, its deleted ids, and that it was applied. It was not before in this
/// epoch.
fn write(ledger: &mut Ledger, tx: &Digest, executed: &Executed) -> Result<(), OutOfMemory>
    requires { has_digest ledger.old.present.ran tx.now ≡ false }
    ensures kept { ledger.new.kept ≡ ledger.old.kept }
    ensures present { OnOk result (ledger.new.present ≡ with_given ledger.old.present tx.now executed.now) }
{
    put_all(ledger, executed.objects.as_slice())?;
    delete_all(ledger, executed.effects.deleted.as_slice())?;
    ledger.add_ran(tx)
}

/// Whether the digest of the effects is the wanted one. A list of 2^31 objects, more than a transaction can write, counts
/// as running out of memory.
fn check_effects(
    alloc: Global,
    place: u64,
    effects: &Effects,
    want: &Digest,
) -> Result<(), FollowRefusal>
    ensures { Stands result (differs place (digest_of_effects effects.now) want.now) }
{
    if !effects.is_short() {
        return Err(FollowRefusal::OutOfMemory);
    }
    let had = effects_digest(alloc, effects)?;
    if had != *want {
        return Err(FollowRefusal::Differs {
            place,
            had,
            want: *want,
        });
    }
    Ok(())
}

/// Executes a transaction and compares it with the item, or says why it does not stand at this place.
#[tactic(auto, using(crate::proofs::Places::wrong_tx, crate::proofs::Places::stuck, crate::proofs::Places::last_is, crate::proofs::Places::is_new, crate::proofs::Places::leads))]
fn apply_one(
    alloc: Global,
    ledger: &mut Ledger,
    place: u64,
    item: &Item,
    tx: &Transaction,
) -> Result<(), FollowRefusal>
    requires { transaction.short tx.now }
    ensures kept { ledger.new.kept ≡ ledger.old.kept }
    ensures stands { Stands result (place_refusal ledger.old.present place item.now tx.now) }
    ensures present { OnOk result (ledger.new.present ≡ behind ledger.old.present tx.now) }
{
    let digest = tx_digest(alloc, tx)?;
    if digest != item.tx {
        return Err(FollowRefusal::WrongTx { place });
    }
    let executed = match standing(alloc, ledger, tx, &digest)? {
        Some(executed) => executed,
        None => return Err(FollowRefusal::Stuck { place }),
    };
    check_effects(alloc, place, &executed.effects, &item.effects)?;
    write(ledger, &digest, &executed)?;
    Ok(())
}

/// Executes the transactions in order and compares each with its item, up to the first that does not stand.
pub(crate) fn apply_all(
    alloc: Global,
    ledger: &mut Ledger,
    items: &[Item],
    txs: &[Transaction],
) -> Result<(), FollowRefusal>
    requires short { Each transaction.short txs.now }
    requires same { length txs.now ≡ length items.now }
    requires few { length items.now ≤ 2147483647 }
    ensures kept { ledger.new.kept ≡ ledger.old.kept }
    ensures stands { Stands result (first_bad ledger.old.present 0 items.now txs.now) }
    ensures present { OnOk result (ledger.new.present ≡ behind_all ledger.old.present txs.now) }
{
    let mut place = 0;
    let mut left = items;
    let mut rest = txs;
    while let [item, items_after @ ..] = left {
        let [tx, after @ ..] = rest else {
            return Ok(());
        };
        apply_one(alloc, ledger, place, item, tx)?;
        place += 1;
        left = items_after;
        rest = after;
    }
    Ok(())
}
