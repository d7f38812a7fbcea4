//! A follower that takes checkpoints in order from where they are kept.

ghost use Rattle.std.specs.Prelude.{◌≡◌, ◌+◌, ◌-◌, ◌<◌, ◌^◌, ℕ, All, Err, IfErr, IfOk, IfSome, IsErrOf, Ok, OnOk, false, length, slice_get};
ghost use Rattle.chain_types.specs.Transactions.{transaction};
ghost use Rattle.follower_core.specs.Catching.{before_epoch, caught_up, counted_at, found_from, is_wanting, applied_by, passed_at, refusal_as};
ghost use Rattle.follower_core.specs.Following.{applied_in, opened};
ghost use Rattle.follower_core.specs.declared.catching.Unfound.TheVariants as unfound;

use crate::archive::Archive;
use crate::follower::Follower;
use crate::refusals::FollowRefusal;
use chain_types::{Object, Transaction};
use checkpoint_core::{Checkpoint, Item};
use digest_core::Digest;
use std::alloc::Global;
use wire_bcs::{Duplicate, OutOfMemory, Seq};

/// Why a follower that takes checkpoints in order stops. Checkpoints go by their numbers; places are those of
/// a checkpoint's transactions, counted from 0, and the first bad place is reported.
#[derive(Clone, Copy)]
pub enum CatchUpRefusal {
    /// The transaction is not known, or cannot be executed after those before it.
    Stuck { number: u64, place: u64 },
    /// What the transaction did is not what is listed.
    Differs { number: u64, place: u64 },
    OutOfMemory,
}

impl From<OutOfMemory> for CatchUpRefusal {
    ghost use Rattle.std.specs.Prelude.{◌≡◌};
    ghost use Rattle.follower_core.specs.declared.catching.CatchUpRefusal.TheVariants as stopped;

    ghost from_gives = { λ _ given. given ≡ stopped.OutOfMemory };

    fn from(_error: OutOfMemory) -> Self {
        CatchUpRefusal::OutOfMemory
    }
}

/// Why the transactions of a checkpoint were not collected: one is not known, or memory was refused.
#[derive(Clone, Copy)]
enum Unfound {
    Missing { place: u64 },
    OutOfMemory,
}

impl From<OutOfMemory> for Unfound {
    ghost use Rattle.std.specs.Prelude.{◌≡◌};
    ghost use Rattle.follower_core.specs.declared.catching.Unfound.TheVariants as unfound;

    ghost from_gives = { λ _ given. given ≡ unfound.OutOfMemory };

    fn from(_error: OutOfMemory) -> Self {
        Unfound::OutOfMemory
    }
}

/// The transaction of a digest, copied; none if it is not known.
fn copy_of<A: Archive>(archive: &A, tx: &Digest) -> Result<Option<Transaction>, OutOfMemory>
    ensures short { IfOk result (λ found. IfSome found transaction.short) }
    ensures value { IfOk result (λ found. found ≡ A.known archive.now tx.now) }
{
    match archive.transaction(tx) {
        Some(tx) => {
            let copy = tx.copy()?;
            Ok(Some(copy))
        }
        None => Ok(None),
    }
}

/// The transactions of items, copied in order, or the first place whose transaction is not known.
#[tactic(auto, using(crate::proofs::Caught::starts_gather, crate::proofs::Caught::gathers_more, crate::proofs::Caught::gathered, crate::proofs::Caught::missed))]
fn find_all<A: Archive>(
    alloc: Global,
    archive: &A,
    items: &[Item],
) -> Result<Seq<Transaction>, Unfound>
    ensures short { IfOk result (λ txs. All transaction.short txs) }
    ensures found { IfOk result (λ txs. found_from (A.known archive.now) 0 items.now ≡ Ok txs) }
    ensures missing { (place : ℕ) → IsErrOf result (unfound.Missing place) → found_from (A.known archive.now) 0 items.now ≡ Err place }
{
    let mut txs = Seq::new(alloc);
    let mut rest = items;
    while let [item, after @ ..] = rest {
        match copy_of(archive, &item.tx)? {
            Some(tx) => txs.push(tx)?,
            None => return Err(Unfound::Missing { place: txs.len() }),
        }
        rest = after;
    }
    Ok(txs)
}

/// The refusal of [`catch_up`] for a checkpoint of this number that the follower refused with `refusal`.
fn refusal_as(number: u64, refusal: &FollowRefusal) -> CatchUpRefusal
    ensures { result ≡ refusal_as number refusal.now }
{
    match refusal {
        FollowRefusal::Down
        | FollowRefusal::Link(_)
        | FollowRefusal::Epoch { .. }
        | FollowRefusal::Count { .. } => CatchUpRefusal::Stuck { number, place: 0 },
        FollowRefusal::WrongTx { place } | FollowRefusal::Stuck { place } => {
            CatchUpRefusal::Stuck {
                number,
                place: *place,
            }
        }
        FollowRefusal::Differs { place, .. } => CatchUpRefusal::Differs {
            number,
            place: *place,
        },
        FollowRefusal::OutOfMemory => CatchUpRefusal::OutOfMemory,
    }
}

/// Hands a checkpoint to a follower, with the transactions of its items, looked up by digest.
#[tactic(auto, using(crate::proofs::Caught::taken_is, crate::proofs::Caught::taken_counts, crate::proofs::Caught::stuck_is, crate::proofs::Caught::refused_is))]
fn take<A: Archive>(
    alloc: Global,
    archive: &A,
    follower: &mut Follower,
    checkpoint: &Checkpoint,
) -> Result<(), CatchUpRefusal>
    requires room { applied_in follower.old.tip < 2 ^ 64 - 1 }
    ensures taken { OnOk result (applied_by (A.known archive.now) follower.old checkpoint.now ≡ Ok follower.new) }
    ensures count { OnOk result (applied_in follower.new.tip ≡ applied_in follower.old.tip + 1) }
    ensures refused { IfErr result (λ refusal. is_wanting refusal ≡ false → applied_by (A.known archive.now) follower.old checkpoint.now ≡ Err refusal) }
{
    if !checkpoint.is_short() {
        return Err(CatchUpRefusal::OutOfMemory);
    }
    let txs = match find_all(alloc, archive, checkpoint.items.as_slice()) {
        Ok(txs) => txs,
        Err(Unfound::Missing { place }) => {
            return Err(CatchUpRefusal::Stuck {
                number: checkpoint.number,
                place,
            });
        }
        Err(Unfound::OutOfMemory) => return Err(CatchUpRefusal::OutOfMemory),
    };
    match follower.apply(checkpoint, &txs) {
        Ok(_) => Ok(()),
        Err(refusal) => Err(refusal_as(checkpoint.number, &refusal)),
    }
}

/// Hands the checkpoint at a place to a follower, if it is of an epoch before this one.
fn take_at<A: Archive>(
    alloc: Global,
    archive: &A,
    follower: &mut Follower,
    place: u64,
    epoch: u64,
) -> Result<(), CatchUpRefusal>
    requires room { applied_in follower.old.tip < 2 ^ 64 - 1 }
    ensures taken { OnOk result (passed_at (A.known archive.now) epoch follower.old (slice_get (A.kept archive.now) place) ≡ Ok follower.new) }
    ensures count { OnOk result (applied_in follower.new.tip ≡ applied_in follower.old.tip + counted_at epoch (slice_get (A.kept archive.now) place)) }
    ensures refused { IfErr result (λ refusal. is_wanting refusal ≡ false → passed_at (A.known archive.now) epoch follower.old (slice_get (A.kept archive.now) place) ≡ Err refusal) }
{
    let Some(checkpoint) = archive.checkpoint(place) else {
        return Ok(());
    };
    if checkpoint.epoch < epoch {
        take(alloc, archive, follower, checkpoint)
    } else {
        Ok(())
    }
}

/// The follower of a chain that begins with these objects, after it has taken, in order, all checkpoints of the archive
/// that are of epochs before this one; or why the first that it does not apply is refused. Time grows with what these
/// hold and with the number of checkpoints in the archive.
#[tactic(auto, using(crate::proofs::Caught::begins, crate::proofs::Caught::passes, crate::proofs::Caught::caught_whole, crate::proofs::Caught::caught_count, crate::proofs::Caught::caught_refused))]
pub fn catch_up<A: Archive>(
    alloc: Global,
    opening: &Seq<Object>,
    archive: &A,
    epoch: u64,
) -> Result<Follower, CatchUpRefusal>
    ensures caught { IfOk result (λ follower. caught_up (A.known archive.now) (opened opening.now) (before_epoch epoch (A.kept archive.now)) ≡ Ok follower) }
    ensures count { IfOk result (λ follower. applied_in follower.tip ≡ length (before_epoch epoch (A.kept archive.now))) }
    ensures refused { IfErr result (λ refusal. is_wanting refusal ≡ false → caught_up (A.known archive.now) (opened opening.now) (before_epoch epoch (A.kept archive.now)) ≡ Err refusal) }
{
    let mut follower = Follower::open(alloc, opening)?;
    for place in 0..archive.checkpoints() {
        if let Err(refusal) = take_at(alloc, archive, &mut follower, place, epoch) {
            drop(follower);
            return Err(refusal);
        }
    }
    Ok(follower)
}
