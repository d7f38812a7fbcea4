//! Objects on the wire, and their digests.

ghost use Rattle.std.specs.Prelude.{◌≡◌};
ghost use Rattle.wire_bcs.specs.Uleb.{uleb};
ghost use Rattle.chain_types.specs.Objects as codecs;

use crate::objects::{Address, Content, Kind, Object, ObjectId, ObjectRef, Owner};
use digest_core::Digest;
use std::alloc::Global;
use wire_bcs::{OutOfMemory, Reader, Unread, Wire, Writer, put_variant, put_variant_of_two};

#[tactic(auto, using(wire_bcs::specs::Wrote::parts), unfolding(crate::specs::Objects::object_id))]
impl Wire for ObjectId {
    ghost codec = { codecs.object_id };

    fn write_into(&self, writer: &mut Writer) -> Result<(), OutOfMemory> {
        self.0.write_into(writer)?;
        Ok(())
    }

    fn read_from(alloc: Global, reader: &mut Reader) -> Result<Self, Unread> {
        let digest = Digest::read_from(alloc, reader)?;
        Ok(ObjectId(digest))
    }
}

#[tactic(auto, using(wire_bcs::specs::Wrote::parts), unfolding(crate::specs::Objects::address))]
impl Wire for Address {
    ghost codec = { codecs.address };

    fn write_into(&self, writer: &mut Writer) -> Result<(), OutOfMemory> {
        self.0.write_into(writer)?;
        Ok(())
    }

    fn read_from(alloc: Global, reader: &mut Reader) -> Result<Self, Unread> {
        let digest = Digest::read_from(alloc, reader)?;
        Ok(Address(digest))
    }
}

#[tactic(auto, using(wire_bcs::specs::Wrote::parts), unfolding(crate::specs::Objects::object_ref))]
impl Wire for ObjectRef {
    ghost codec = { codecs.object_ref };

    fn write_into(&self, writer: &mut Writer) -> Result<(), OutOfMemory> {
        self.id.write_into(writer)?;
        writer.put_u64(self.version)?;
        self.digest.write_into(writer)?;
        Ok(())
    }

    fn read_from(alloc: Global, reader: &mut Reader) -> Result<Self, Unread> {
        let (id, (version, digest)) = Wire::read_from(alloc, reader)?;
        Ok(ObjectRef {
            id,
            version,
            digest,
        })
    }
}

#[tactic(auto, using(wire_bcs::specs::Wrote::parts), unfolding(crate::specs::Objects::owner))]
impl Wire for Owner {
    ghost codec = { codecs.owner };

    fn write_into(&self, writer: &mut Writer) -> Result<(), OutOfMemory> {
        match self {
            Owner::Address(address) => put_variant(writer, 0, address),
            Owner::Shared(initial) => put_variant(writer, 1, initial),
            Owner::Immutable => {
                writer.put_tag(2)?;
                Ok(())
            }
        }
    }

    fn read_from(alloc: Global, reader: &mut Reader) -> Result<Self, Unread> {
        match reader.tag(3)? {
            0 => {
                let address = Address::read_from(alloc, reader)?;
                Ok(Owner::Address(address))
            }
            1 => {
                let initial = reader.u64()?;
                Ok(Owner::Shared(initial))
            }
            _ => Ok(Owner::Immutable),
        }
    }
}

impl Kind {
    /// The variant number.
    #[tactic(auto, unfolding(crate::specs::Objects::kind))]
    fn number(&self) -> u32
        ensures { uleb result ≡ codecs.kind.spell self.now }
    {
        match self {
            Kind::Coin => 0,
            Kind::Cap => 1,
            Kind::Counter => 2,
            Kind::Vault => 3,
            Kind::VaultKey => 4,
            Kind::Limit => 5,
        }
    }
}

#[tactic(auto, using(wire_bcs::specs::Wrote::parts), unfolding(crate::specs::Objects::kind))]
impl Wire for Kind {
    ghost codec = { codecs.kind };

    fn write_into(&self, writer: &mut Writer) -> Result<(), OutOfMemory> {
        writer.put_tag(self.number())
    }

    fn read_from(_alloc: Global, reader: &mut Reader) -> Result<Self, Unread> {
        match reader.tag(6)? {
            0 => Ok(Kind::Coin),
            1 => Ok(Kind::Cap),
            2 => Ok(Kind::Counter),
            3 => Ok(Kind::Vault),
            4 => Ok(Kind::VaultKey),
            _ => Ok(Kind::Limit),
        }
    }
}

#[tactic(auto, using(wire_bcs::specs::Wrote::parts), unfolding(crate::specs::Objects::content))]
impl Wire for Content {
    ghost codec = { codecs.content };

    fn write_into(&self, writer: &mut Writer) -> Result<(), OutOfMemory> {
        match self {
            Content::Coin { currency, balance } => {
                put_variant_of_two(writer, 0, currency, balance)
            }
            Content::Cap { currency, supply } => put_variant_of_two(writer, 1, currency, supply),
            Content::Counter { value } => put_variant(writer, 2, value),
            Content::Vault { currency, balance } => {
                put_variant_of_two(writer, 3, currency, balance)
            }
            Content::VaultKey { vault } => put_variant(writer, 4, vault),
            Content::Limit { value } => put_variant(writer, 5, value),
        }
    }

    fn read_from(alloc: Global, reader: &mut Reader) -> Result<Self, Unread> {
        match reader.tag(6)? {
            0 => {
                let (currency, balance) = Wire::read_from(alloc, reader)?;
                Ok(Content::Coin { currency, balance })
            }
            1 => {
                let (currency, supply) = Wire::read_from(alloc, reader)?;
                Ok(Content::Cap { currency, supply })
            }
            2 => {
                let value = reader.u64()?;
                Ok(Content::Counter { value })
            }
            3 => {
                let (currency, balance) = Wire::read_from(alloc, reader)?;
                Ok(Content::Vault { currency, balance })
            }
            4 => {
                let vault = ObjectId::read_from(alloc, reader)?;
                Ok(Content::VaultKey { vault })
            }
            _ => {
                let value = reader.u64()?;
                Ok(Content::Limit { value })
            }
        }
    }
}

#[tactic(auto, using(wire_bcs::specs::Wrote::parts), unfolding(crate::specs::Objects::object))]
impl Wire for Object {
    ghost codec = { codecs.object };

    fn write_into(&self, writer: &mut Writer) -> Result<(), OutOfMemory> {
        self.id.write_into(writer)?;
        writer.put_u64(self.version)?;
        self.owner.write_into(writer)?;
        self.content.write_into(writer)?;
        Ok(())
    }

    fn read_from(alloc: Global, reader: &mut Reader) -> Result<Self, Unread> {
        let (id, (version, (owner, content))) = Wire::read_from(alloc, reader)?;
        Ok(Object {
            id,
            version,
            owner,
            content,
        })
    }
}
