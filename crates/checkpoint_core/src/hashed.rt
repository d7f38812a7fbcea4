//! A checkpoint with its digest.

ghost use Rattle.std.specs.Prelude.{◌≡◌, IfOk};
ghost use Rattle.checkpoint_core.specs.Checkpoints.{digest_of_checkpoint};

use crate::checkpoints::Checkpoint;
use crate::checkpoints_wire::checkpoint_digest;
use digest_core::Digest;
use std::alloc::Global;
use std::marker::Model;
use wire_bcs::{Duplicate, OutOfMemory};

/// A checkpoint that was built, with its digest: asking for it takes no memory and hashes nothing. Contracts see
/// the checkpoint.
#[derive(Debug, Drop)]
pub struct HashedCheckpoint {
    checkpoint: Checkpoint,
    digest: Digest,
}

impl Model for HashedCheckpoint {
    ghost use Rattle.std.specs.Prelude.{◌≡◌};
    ghost use Rattle.checkpoint_core.specs.Checkpoints.{digest_of_checkpoint};
    ghost use Rattle.checkpoint_core.specs.declared.checkpoints.Checkpoint.{Checkpoint as TheCheckpoint};

    ghost Value = { TheCheckpoint };

    ghost view = { λ s. s.checkpoint };

    ghost invariant = { λ s. s.digest ≡ digest_of_checkpoint s.checkpoint };
}

impl HashedCheckpoint {
    /// Takes the digest of a checkpoint. One of 2^31 items counts as running out of memory.
    pub fn new(alloc: Global, checkpoint: Checkpoint) -> Result<HashedCheckpoint, OutOfMemory>
        ensures { IfOk result (λ s. s ≡ checkpoint) }
    {
        if !checkpoint.is_short() {
            return Err(OutOfMemory);
        }
        let digest = checkpoint_digest(alloc, &checkpoint)?;
        Ok(HashedCheckpoint { checkpoint, digest })
    }

    /// The checkpoint. Takes no memory.
    pub fn checkpoint(&self) -> &Checkpoint
        ensures { result.now ≡ self.now }
    {
        &self.checkpoint
    }

    /// Its digest. Takes no memory.
    pub fn digest(&self) -> Digest
        ensures { result ≡ digest_of_checkpoint self.now }
    {
        self.digest
    }
}

impl Duplicate for HashedCheckpoint {
    fn copy(&self) -> Result<Self, OutOfMemory> {
        Ok(HashedCheckpoint {
            checkpoint: self.checkpoint.copy()?,
            digest: self.digest,
        })
    }
}
