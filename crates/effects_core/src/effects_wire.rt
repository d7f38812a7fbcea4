//! Effects on the wire, and their digests.

ghost use Rattle.std.specs.Prelude.{◌≡◌, IfOk, false, true};
ghost use Rattle.effects_core.specs.Effects as codecs;

use crate::effects::{Effects, Status, Written};
use digest_core::{Digest, TAG_EFFECTS, digest_of};
use std::alloc::Global;
use wire_bcs::{Duplicate, OutOfMemory, Reader, Unread, Wire, Writer, encode, put_variant_of_two};

#[tactic(auto, using(wire_bcs::specs::Wrote::parts), unfolding(crate::specs::Effects::status))]
impl Wire for Status {
    ghost codec = { codecs.status };

    fn write_into(&self, writer: &mut Writer) -> Result<(), OutOfMemory> {
        match self {
            Status::Done => {
                writer.put_tag(0)?;
                Ok(())
            }
            Status::Failed { command, cause } => put_variant_of_two(writer, 1, command, cause),
            Status::Aborted { command, code } => put_variant_of_two(writer, 2, command, code),
        }
    }

    fn read_from(alloc: Global, reader: &mut Reader) -> Result<Self, Unread> {
        match reader.tag(3)? {
            0 => Ok(Status::Done),
            1 => {
                let (command, cause) = Wire::read_from(alloc, reader)?;
                Ok(Status::Failed { command, cause })
            }
            _ => {
                let (command, code) = Wire::read_from(alloc, reader)?;
                Ok(Status::Aborted { command, code })
            }
        }
    }
}

#[tactic(auto, using(wire_bcs::specs::Wrote::parts), unfolding(crate::specs::Effects::written))]
impl Wire for Written {
    ghost codec = { codecs.written };

    fn write_into(&self, writer: &mut Writer) -> Result<(), OutOfMemory> {
        self.id.write_into(writer)?;
        self.owner.write_into(writer)?;
        self.digest.write_into(writer)?;
        Ok(())
    }

    fn read_from(alloc: Global, reader: &mut Reader) -> Result<Self, Unread> {
        let (id, (owner, digest)) = Wire::read_from(alloc, reader)?;
        Ok(Written { id, owner, digest })
    }
}

#[tactic(auto, using(wire_bcs::specs::Wrote::parts), unfolding(crate::specs::Effects::effects))]
impl Wire for Effects {
    ghost codec = { codecs.effects };

    fn write_into(&self, writer: &mut Writer) -> Result<(), OutOfMemory> {
        self.tx.write_into(writer)?;
        self.status.write_into(writer)?;
        writer.put_u64(self.version)?;
        writer.put_u64(self.gas)?;
        writer.put_u32(self.created)?;
        self.written.write_into(writer)?;
        self.deleted.write_into(writer)?;
        Ok(())
    }

    fn read_from(alloc: Global, reader: &mut Reader) -> Result<Self, Unread> {
        let (tx, (status, (version, (gas, (created, (written, deleted)))))) = Wire::read_from(
            alloc, reader,
        )?;
        Ok(Effects {
            tx,
            status,
            version,
            gas,
            created,
            written,
            deleted,
        })
    }
}

impl Duplicate for Effects {
    fn copy(&self) -> Result<Self, OutOfMemory> {
        Ok(Effects {
            tx: self.tx,
            status: self.status,
            version: self.version,
            gas: self.gas,
            created: self.created,
            written: self.written.copy()?,
            deleted: self.deleted.copy()?,
        })
    }
}

/// The least length at which a list cannot be encoded.
const TOO_LONG: u64 = 2_147_483_648;

impl Effects {
    /// Whether they can be encoded: their lists are at most 2147483647 long. Takes no memory.
    #[tactic(auto, using(crate::proofs::Shorts::effects_short, crate::proofs::Shorts::short_written, crate::proofs::Shorts::short_deleted))]
    pub fn is_short(&self) -> bool
        ensures short { result ≡ true → codecs.effects.short self.now }
        ensures long { result ≡ false → codecs.effects.short self.now → ⊥ }
    {
        self.written.len() < TOO_LONG && self.deleted.len() < TOO_LONG
    }
}

/// The digest of a transaction's effects. Their lists are at most 2147483647 long.
#[tactic(auto, unfolding(crate::specs::Effects::digest_of_effects))]
pub fn effects_digest(alloc: Global, effects: &Effects) -> Result<Digest, OutOfMemory>
    requires { codecs.effects.short effects.now }
    ensures { IfOk result (λ digest. digest ≡ codecs.digest_of_effects effects.now) }
{
    let bytes = encode(alloc, effects)?;
    Ok(digest_of(TAG_EFFECTS, bytes.as_slice()))
}
