//! The [`Archive`]: where a follower finds checkpoints in order, and transactions by their digests.

ghost use Rattle.std.specs.Prelude.{◌≡◌, List, Option, IfSome, length, option_map, slice_get};
ghost use Rattle.chain_types.specs.Transactions.{transaction};
ghost use Rattle.chain_types.specs.declared.transactions.Transaction.{Transaction};
ghost use Rattle.checkpoint_core.specs.declared.checkpoints.Checkpoint.{Checkpoint};
ghost use Rattle.digest_core.specs.declared.Digest.{Digest};

use chain_types::Transaction;
use checkpoint_core::Checkpoint;
use digest_core::Digest;

/// Where checkpoints and transactions are kept, as a node without a vote finds them.
pub trait Archive {
    // The checkpoints, in order.
    ghost kept: { Self → List Checkpoint };

    // The transaction of a digest, none if it is not there.
    ghost known: { Self → Digest → Option Transaction };

    /// How many checkpoints there are.
    fn checkpoints(&self) -> u64
        ensures { result ≡ length (kept self.now) };

    /// The checkpoint at this place, counted from 0; none exactly if there is none.
    fn checkpoint(&self, place: u64) -> Option<&Checkpoint>
        ensures { option_map (λ (c : _). c.now) result ≡ slice_get (kept self.now) place };

    /// The transaction of this digest, which can be encoded; none exactly if it is not there.
    fn transaction(&self, tx: &Digest) -> Option<&Transaction>
        ensures short { IfSome result (λ t. transaction.short t.now) }
        ensures value { option_map (λ (t : _). t.now) result ≡ known self.now tx.now };
}
