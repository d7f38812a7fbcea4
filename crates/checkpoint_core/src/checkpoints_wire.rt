//! Checkpoints on the wire, and their digests.

ghost use Rattle.std.specs.Prelude.{◌≡◌, IfOk, false, true};
ghost use Rattle.checkpoint_core.specs.Checkpoints as codecs;

use crate::checkpoints::{Checkpoint, Item};
use digest_core::{Digest, TAG_CHECKPOINT, digest_of};
use std::alloc::Global;
use wire_bcs::{Duplicate, OutOfMemory, Reader, Unread, Wire, Writer, encode};

#[tactic(auto, using(wire_bcs::specs::Wrote::parts), unfolding(crate::specs::Checkpoints::item))]
impl Wire for Item {
    ghost codec = { codecs.item };

    fn write_into(&self, writer: &mut Writer) -> Result<(), OutOfMemory> {
        self.tx.write_into(writer)?;
        self.effects.write_into(writer)?;
        Ok(())
    }

    fn read_from(alloc: Global, reader: &mut Reader) -> Result<Self, Unread> {
        let (tx, effects) = Wire::read_from(alloc, reader)?;
        Ok(Item { tx, effects })
    }
}

#[tactic(auto, using(wire_bcs::specs::Wrote::parts), unfolding(crate::specs::Checkpoints::checkpoint))]
impl Wire for Checkpoint {
    ghost codec = { codecs.checkpoint };

    fn write_into(&self, writer: &mut Writer) -> Result<(), OutOfMemory> {
        writer.put_u64(self.epoch)?;
        writer.put_u64(self.number)?;
        self.parent.write_into(writer)?;
        self.items.write_into(writer)?;
        writer.put_bool(self.last)?;
        Ok(())
    }

    fn read_from(alloc: Global, reader: &mut Reader) -> Result<Self, Unread> {
        let (epoch, (number, (parent, (items, last)))) = Wire::read_from(alloc, reader)?;
        Ok(Checkpoint {
            epoch,
            number,
            parent,
            items,
            last,
        })
    }
}

impl Duplicate for Checkpoint {
    fn copy(&self) -> Result<Self, OutOfMemory> {
        Ok(Checkpoint {
            epoch: self.epoch,
            number: self.number,
            parent: self.parent,
            items: self.items.copy()?,
            last: self.last,
        })
    }
}

/// The least length at which a list cannot be encoded.
const TOO_LONG: u64 = 2_147_483_648;

impl Checkpoint {
    /// Whether it can be encoded: it has at most 2147483647 items. Takes no memory.
    #[tactic(auto, using(crate::proofs::Shorts::few_short, crate::proofs::Shorts::short_few))]
    pub fn is_short(&self) -> bool
        ensures short { result ≡ true → codecs.checkpoint.short self.now }
        ensures long { result ≡ false → codecs.checkpoint.short self.now → ⊥ }
    {
        self.items.len() < TOO_LONG
    }
}

/// The digest of a checkpoint. It has at most 2147483647 items.
#[tactic(auto, unfolding(crate::specs::Checkpoints::digest_of_checkpoint))]
pub fn checkpoint_digest(alloc: Global, checkpoint: &Checkpoint) -> Result<Digest, OutOfMemory>
    requires { codecs.checkpoint.short checkpoint.now }
    ensures { IfOk result (λ digest. digest ≡ codecs.digest_of_checkpoint checkpoint.now) }
{
    let bytes = encode(alloc, checkpoint)?;
    Ok(digest_of(TAG_CHECKPOINT, bytes.as_slice()))
}
