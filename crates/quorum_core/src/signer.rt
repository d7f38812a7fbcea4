//! Who seals.

ghost use Rattle.quorum_core.specs.Signers as codecs;

use digest_core::Digest;
use std::alloc::Global;
use wire_bcs::{OutOfMemory, Reader, Unread, Wire, Writer, put_variant};

/// Who makes a seal.
#[derive(Clone, Copy, Debug, PartialEq, Eq)]
pub enum Signer {
    /// The member of the committee with this number.
    Member(u32),
    /// The user of this address.
    User(Digest),
}

#[tactic(auto, using(wire_bcs::specs::Wrote::parts), unfolding(crate::specs::Signers::signer))]
impl Wire for Signer {
    ghost codec = { codecs.signer };

    fn write_into(&self, writer: &mut Writer) -> Result<(), OutOfMemory> {
        match self {
            Signer::Member(member) => put_variant(writer, 0, member),
            Signer::User(address) => put_variant(writer, 1, address),
        }
    }

    fn read_from(alloc: Global, reader: &mut Reader) -> Result<Self, Unread> {
        match reader.tag(2)? {
            0 => {
                let member = reader.u32()?;
                Ok(Signer::Member(member))
            }
            _ => {
                let address = Digest::read_from(alloc, reader)?;
                Ok(Signer::User(address))
            }
        }
    }
}
