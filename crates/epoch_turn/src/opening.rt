//! The opening of the next epoch: what stands in no cut is undone, and admission begins with what lives.

ghost use Rattle.std.specs.Prelude.{◌≡◌, ◌⊎◌, [], IfOk, OnErr, OnOk};
ghost use Rattle.protocol_spec.specs.Member.Admission.{nothing_admitted};
ghost use Rattle.protocol_spec.specs.Member.Versions.{live_list};
ghost use Rattle.version_store.specs.Reverts.{reverted_to, undone};
ghost use Rattle.epoch_turn.specs.Chains.{AreCut, cut_of_chain};
ghost use Rattle.epoch_turn.specs.Openings.{Opens, change_in, changes_after};

use crate::chain::CheckpointBuilder;
use chain_types::{Object, ObjectId};
use digest_core::Digest;
use std::alloc::Global;
use version_assign::{Admission, Change};
use version_store::Store;
use wire_bcs::{OutOfMemory, Seq};

/// Undoes what was executed and stands in no cut, and answers the undone transactions, oldest first (epoch change of Sui
/// Lutris). If memory is refused the store is not to be used.
pub fn revert_uncut(
    chain: &CheckpointBuilder,
    store: &mut Store,
) -> Result<Seq<Digest>, OutOfMemory>
    ensures store { OnOk result (store.new ≡ reverted_to (cut_of_chain chain.now) store.old) }
    ensures undone { IfOk result (λ txs. txs ≡ undone (cut_of_chain chain.now) store.old) }
    ensures cut { OnOk result (AreCut chain.now (cut_of_chain chain.now)) }
{
    let kept = chain.cut_transactions()?;
    store.revert_to(&kept)
}

/// What the end of an epoch leaves: the objects with which the next one opens, by ascending id, and the transactions that
/// were undone, oldest first.
#[derive(Drop)]
pub struct Turned {
    pub opening: Seq<Object>,
    pub reverted: Seq<Digest>,
}

/// Undoes what was executed and is not among these transactions, and answers the objects that live then (epoch change of
/// Sui Lutris). After a refusal the store is as it was, or it is the reverted one.
pub fn next_opening(store: &mut Store, checkpointed: &Seq<Digest>) -> Result<Turned, OutOfMemory>
    ensures store { OnOk result (store.new ≡ reverted_to checkpointed.now store.old) }
    ensures opening { IfOk result (λ t. t.opening ≡ live_list store.new.opening store.new.executed) }
    ensures reverted { IfOk result (λ t. t.reverted ≡ undone checkpointed.now store.old) }
    ensures refused { OnErr result ((store.new ≡ store.old) ⊎ (store.new ≡ reverted_to checkpointed.now store.old)) }
{
    let reverted = store.revert_to(checkpointed)?;
    let opening = store.live_list()?;
    Ok(Turned { opening, reverted })
}

/// An object as it lives.
fn change_of(store: &Store, id: &ObjectId) -> Change
    ensures { result ≡ change_in store.now id.now }
{
    Change {
        id: *id,
        lives: store.live(id).copied(),
    }
}

/// The objects with these ids, as they live.
fn changes_of(alloc: Global, store: &Store, ids: &[ObjectId]) -> Result<Seq<Change>, OutOfMemory>
    ensures { IfOk result (λ changes. changes ≡ changes_after store.now [] ids.now) }
{
    let mut changes = Seq::new(alloc);
    let mut rest = ids;
    while let [id, after @ ..] = rest {
        changes.push(change_of(store, id))?;
        rest = after;
    }
    Ok(changes)
}

/// Turns the admission into that of the epoch that opens with the live objects of this one's store. Time grows with what the
/// epoch wrote and deleted. If memory is refused it is not to be used.
#[tactic(auto, using(crate::proofs::Renewing::changes_own))]
pub fn renew(alloc: Global, store: &Store, admission: &mut Admission) -> Result<(), OutOfMemory>
    requires { Opens admission.old.opening store.now.opening }
    ensures nothing { OnOk result (admission.new.admission ≡ nothing_admitted) }
    ensures opens { OnOk result (Opens admission.new.opening (live_list store.now.opening store.now.executed)) }
    ensures limit { admission.new.writers ≡ admission.old.writers }
{
    let ids = store.changed()?;
    let changes = changes_of(alloc, store, ids.as_slice())?;
    admission.renew(changes.as_slice())
}
