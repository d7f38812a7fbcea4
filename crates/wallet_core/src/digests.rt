//! The digests of transactions, effects and checkpoints, for a caller that may have lists too long to be encoded.

ghost use Rattle.chain_types.specs.Digests.{transaction_digest};
ghost use Rattle.checkpoint_core.specs.Checkpoints.{digest_of_checkpoint};
ghost use Rattle.effects_core.specs.Effects.{digest_of_effects};
ghost use Rattle.wallet_core.specs.Lengths as lengths;

use crate::lengths::Measured;
use crate::refusals::EncodeRefusal;
use chain_types::Transaction;
use checkpoint_core::Checkpoint;
use digest_core::Digest;
use effects_core::Effects;
use std::alloc::Global;

/// The digest of a transaction.
pub fn tx_digest(alloc: Global, tx: &Transaction) -> Result<Digest, EncodeRefusal>
    ensures { lengths.Encodes result (lengths.tx_long tx.now) (transaction_digest tx.now) }
{
    if tx.is_too_long() {
        return Err(EncodeRefusal::TooLong);
    }
    Ok(chain_types::tx_digest(alloc, tx)?)
}

/// The digest of a transaction's effects.
pub fn effects_digest(alloc: Global, effects: &Effects) -> Result<Digest, EncodeRefusal>
    ensures { lengths.Encodes result (lengths.effects_long effects.now) (digest_of_effects effects.now) }
{
    if effects.is_too_long() {
        return Err(EncodeRefusal::TooLong);
    }
    Ok(effects_core::effects_digest(alloc, effects)?)
}

/// The digest of a checkpoint.
pub fn checkpoint_digest(alloc: Global, checkpoint: &Checkpoint) -> Result<Digest, EncodeRefusal>
    ensures { lengths.Encodes result (lengths.checkpoint_long checkpoint.now) (digest_of_checkpoint checkpoint.now) }
{
    if checkpoint.is_too_long() {
        return Err(EncodeRefusal::TooLong);
    }
    Ok(checkpoint_core::checkpoint_digest(alloc, checkpoint)?)
}
