//! Where the next checkpoint goes on.

ghost use Rattle.std.specs.Prelude.{◌≡◌, ◌+◌, ◌-◌, ◌<◌, ◌^◌, IfOk, if◌then◌else◌};
ghost use Rattle.checkpoint_core.specs.Checkpoints.{checkpoint as codec};
ghost use Rattle.checkpoint_core.specs.Links.{HasNext};
ghost use Rattle.follower_core.specs.Following.{applied_in, refusal_before, tip_behind, unless};

use crate::refusals::FollowRefusal;
use chain_types::Transaction;
use checkpoint_core::{Checkpoint, check_link, checkpoint_digest};
use digest_core::Digest;
use std::alloc::Global;
use wire_bcs::{OutOfMemory, Seq};

/// Where a follower stands in the chain of checkpoints, and whether it still works.
#[derive(Clone, Copy, Debug, PartialEq, Eq)]
pub struct Tip {
    /// The number and the digest of the last checkpoint.
    pub before: Option<(u64, Digest)>,
    /// The epoch of the next one.
    pub epoch: u64,
    /// Whether no memory was refused yet.
    pub up: bool,
}

/// How many checkpoints were applied.
pub(crate) fn applied_in(tip: &Tip) -> u64
    requires { HasNext tip.now.before }
    ensures { result ≡ applied_in tip.now }
{
    match tip.before {
        Some((number, _)) => number + 1,
        None => 0,
    }
}

/// Whether a checkpoint goes on from the tip, is of its epoch, and came with as many transactions as it lists; else the
/// first refusal. Takes no memory.
#[tactic(auto, unfolding(crate::specs::Following::refusal_before))]
pub(crate) fn check(
    tip: &Tip,
    checkpoint: &Checkpoint,
    txs: &Seq<Transaction>,
) -> Result<(), FollowRefusal>
    requires { HasNext tip.now.before }
    ensures { result ≡ unless (refusal_before tip.now checkpoint.now txs.now) }
{
    if !tip.up {
        return Err(FollowRefusal::Down);
    }
    match check_link(tip.before, checkpoint) {
        Ok(()) => {}
        Err(refusal) => return Err(FollowRefusal::Link(refusal)),
    }
    if checkpoint.epoch != tip.epoch {
        return Err(FollowRefusal::Epoch {
            had: checkpoint.epoch,
            want: tip.epoch,
        });
    }
    let had = txs.len();
    let want = checkpoint.items.len();
    if had != want {
        return Err(FollowRefusal::Count { had, want });
    }
    Ok(())
}

/// The epoch after a checkpoint.
fn epoch_behind(epoch: u64, last: bool) -> u64
    requires { epoch < 2 ^ 64 - 1 }
    ensures { result ≡ (if last then epoch + 1 else epoch) }
{
    if last { epoch + 1 } else { epoch }
}

/// What a follower goes on from after a checkpoint.
pub(crate) fn tip_behind(
    alloc: Global,
    tip: &Tip,
    checkpoint: &Checkpoint,
) -> Result<Tip, OutOfMemory>
    requires short { codec.short checkpoint.now }
    requires epoch { tip.now.epoch < 2 ^ 64 - 1 }
    ensures { IfOk result (λ next. next ≡ tip_behind tip.now checkpoint.now) }
{
    let digest = checkpoint_digest(alloc, checkpoint)?;
    Ok(Tip {
        before: Some((checkpoint.number, digest)),
        epoch: epoch_behind(tip.epoch, checkpoint.last),
        up: tip.up,
    })
}
