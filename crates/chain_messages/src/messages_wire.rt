//! Messages on the wire.

ghost use Rattle.std.specs.Prelude.{◌≡◌, IfOk, Ok};
ghost use Rattle.wire_bcs.specs.Whole.{whole};
ghost use Rattle.wire_bcs.specs.Gives.{Decodes};
ghost use Rattle.chain_messages.specs.Messages as codecs;

use crate::messages::{Certificate, Entry, MemberSeal, Sealed, Statement};
use std::alloc::Global;
use wire_bcs::{
    Duplicate, OutOfMemory, Reader, Seq, Unread, Wire, Writer, decode, encode, put_variant,
    put_variant_of_three,
};

#[tactic(auto, using(wire_bcs::specs::Wrote::parts), unfolding(crate::specs::Messages::statement))]
impl Wire for Statement {
    ghost codec = { codecs.statement };

    fn write_into(&self, writer: &mut Writer) -> Result<(), OutOfMemory> {
        match self {
            Statement::Vote { epoch, tx, origins } => {
                put_variant_of_three(writer, 0, epoch, tx, origins)
            }
            Statement::End { epoch } => put_variant(writer, 1, epoch),
            Statement::Checkpoint {
                epoch,
                number,
                digest,
            } => put_variant_of_three(writer, 2, epoch, number, digest),
            Statement::Ack { epoch, tx, effects } => {
                put_variant_of_three(writer, 3, epoch, tx, effects)
            }
        }
    }

    fn read_from(alloc: Global, reader: &mut Reader) -> Result<Self, Unread> {
        match reader.tag(4)? {
            0 => {
                let (epoch, (tx, origins)) = Wire::read_from(alloc, reader)?;
                Ok(Statement::Vote { epoch, tx, origins })
            }
            1 => {
                let epoch = reader.u64()?;
                Ok(Statement::End { epoch })
            }
            2 => {
                let (epoch, (number, digest)) = Wire::read_from(alloc, reader)?;
                Ok(Statement::Checkpoint {
                    epoch,
                    number,
                    digest,
                })
            }
            _ => {
                let (epoch, (tx, effects)) = Wire::read_from(alloc, reader)?;
                Ok(Statement::Ack { epoch, tx, effects })
            }
        }
    }
}

impl Duplicate for Statement {
    fn copy(&self) -> Result<Self, OutOfMemory> {
        Ok(match self {
            Statement::Vote { epoch, tx, origins } => Statement::Vote {
                epoch: *epoch,
                tx: *tx,
                origins: origins.copy()?,
            },
            Statement::End { epoch } => Statement::End { epoch: *epoch },
            Statement::Checkpoint {
                epoch,
                number,
                digest,
            } => Statement::Checkpoint {
                epoch: *epoch,
                number: *number,
                digest: *digest,
            },
            Statement::Ack { epoch, tx, effects } => Statement::Ack {
                epoch: *epoch,
                tx: *tx,
                effects: *effects,
            },
        })
    }
}

#[tactic(auto, using(wire_bcs::specs::Wrote::parts), unfolding(crate::specs::Messages::sealed))]
impl Wire for Sealed {
    ghost codec = { codecs.sealed };

    fn write_into(&self, writer: &mut Writer) -> Result<(), OutOfMemory> {
        writer.put_u32(self.member)?;
        self.statement.write_into(writer)?;
        self.seal.write_into(writer)?;
        Ok(())
    }

    fn read_from(alloc: Global, reader: &mut Reader) -> Result<Self, Unread> {
        let (member, (statement, seal)) = Wire::read_from(alloc, reader)?;
        Ok(Sealed {
            member,
            statement,
            seal,
        })
    }
}

impl Duplicate for Sealed {
    fn copy(&self) -> Result<Self, OutOfMemory> {
        Ok(Sealed {
            member: self.member,
            statement: self.statement.copy()?,
            seal: self.seal,
        })
    }
}

#[tactic(auto, using(wire_bcs::specs::Wrote::parts), unfolding(crate::specs::Messages::member_seal))]
impl Wire for MemberSeal {
    ghost codec = { codecs.member_seal };

    fn write_into(&self, writer: &mut Writer) -> Result<(), OutOfMemory> {
        writer.put_u32(self.member)?;
        self.seal.write_into(writer)?;
        Ok(())
    }

    fn read_from(alloc: Global, reader: &mut Reader) -> Result<Self, Unread> {
        let (member, seal) = Wire::read_from(alloc, reader)?;
        Ok(MemberSeal { member, seal })
    }
}

#[tactic(auto, using(wire_bcs::specs::Wrote::parts), unfolding(crate::specs::Messages::certificate))]
impl Wire for Certificate {
    ghost codec = { codecs.certificate };

    fn write_into(&self, writer: &mut Writer) -> Result<(), OutOfMemory> {
        self.tx.write_into(writer)?;
        self.origins.write_into(writer)?;
        self.seals.write_into(writer)?;
        Ok(())
    }

    fn read_from(alloc: Global, reader: &mut Reader) -> Result<Self, Unread> {
        let (tx, (origins, seals)) = Wire::read_from(alloc, reader)?;
        Ok(Certificate { tx, origins, seals })
    }
}

impl Duplicate for Certificate {
    fn copy(&self) -> Result<Self, OutOfMemory> {
        Ok(Certificate {
            tx: self.tx.copy()?,
            origins: self.origins.copy()?,
            seals: self.seals.copy()?,
        })
    }
}

#[tactic(auto, using(wire_bcs::specs::Wrote::parts), unfolding(crate::specs::Messages::entry))]
impl Wire for Entry {
    ghost codec = { codecs.entry };

    fn write_into(&self, writer: &mut Writer) -> Result<(), OutOfMemory> {
        match self {
            Entry::Cert(cert) => put_variant(writer, 0, cert),
            Entry::End(sealed) => put_variant(writer, 1, sealed),
            Entry::Commit => {
                writer.put_tag(2)?;
                Ok(())
            }
        }
    }

    fn read_from(alloc: Global, reader: &mut Reader) -> Result<Self, Unread> {
        match reader.tag(3)? {
            0 => {
                let cert = Certificate::read_from(alloc, reader)?;
                Ok(Entry::Cert(cert))
            }
            1 => {
                let sealed = Sealed::read_from(alloc, reader)?;
                Ok(Entry::End(sealed))
            }
            _ => Ok(Entry::Commit),
        }
    }
}

impl Duplicate for Entry {
    fn copy(&self) -> Result<Self, OutOfMemory> {
        Ok(match self {
            Entry::Cert(cert) => Entry::Cert(cert.copy()?),
            Entry::End(sealed) => Entry::End(sealed.copy()?),
            Entry::Commit => Entry::Commit,
        })
    }
}

/// The one encoding of a statement. Its lists are at most 2147483647 long.
pub fn encode_statement(alloc: Global, value: &Statement) -> Result<Seq<u8>, OutOfMemory>
    requires { codecs.statement.short value.now }
    ensures { IfOk result (λ bytes. bytes ≡ codecs.statement.spell value.now) }
{
    encode(alloc, value)
}

/// The statement that all the bytes encode. A fault comes exactly if there is none, and is the first.
pub fn decode_statement(alloc: Global, bytes: &[u8]) -> Result<Statement, Unread>
    // The bytes are the encoding of the value, which is a value of its type.
    ensures found { IfOk result (λ x. (bytes.now ≡ codecs.statement.spell x) × codecs.statement.fits x) }
    // So it can be encoded again.
    ensures short { IfOk result codecs.statement.short }
    // A value that these bytes encode is read, unless memory runs out.
    ensures only { (x : _) → codecs.statement.fits x → bytes.now ≡ codecs.statement.spell x → Decodes bytes.now result (Ok x) }
    // Which fault it is.
    ensures exact { Decodes bytes.now result (whole codecs.statement bytes.now) }
{
    decode(alloc, bytes)
}

/// The one encoding of a sealed statement. Its lists are at most 2147483647 long.
pub fn encode_sealed(alloc: Global, value: &Sealed) -> Result<Seq<u8>, OutOfMemory>
    requires { codecs.sealed.short value.now }
    ensures { IfOk result (λ bytes. bytes ≡ codecs.sealed.spell value.now) }
{
    encode(alloc, value)
}

/// The sealed statement that all the bytes encode. A fault comes exactly if there is none, and is the first.
pub fn decode_sealed(alloc: Global, bytes: &[u8]) -> Result<Sealed, Unread>
    // The bytes are the encoding of the value, which is a value of its type.
    ensures found { IfOk result (λ x. (bytes.now ≡ codecs.sealed.spell x) × codecs.sealed.fits x) }
    // So it can be encoded again.
    ensures short { IfOk result codecs.sealed.short }
    // A value that these bytes encode is read, unless memory runs out.
    ensures only { (x : _) → codecs.sealed.fits x → bytes.now ≡ codecs.sealed.spell x → Decodes bytes.now result (Ok x) }
    // Which fault it is.
    ensures exact { Decodes bytes.now result (whole codecs.sealed bytes.now) }
{
    decode(alloc, bytes)
}

/// The one encoding of a certificate. Its lists are at most 2147483647 long.
pub fn encode_certificate(alloc: Global, value: &Certificate) -> Result<Seq<u8>, OutOfMemory>
    requires { codecs.certificate.short value.now }
    ensures { IfOk result (λ bytes. bytes ≡ codecs.certificate.spell value.now) }
{
    encode(alloc, value)
}

/// The certificate that all the bytes encode. A fault comes exactly if there is none, and is the first.
pub fn decode_certificate(alloc: Global, bytes: &[u8]) -> Result<Certificate, Unread>
    // The bytes are the encoding of the value, which is a value of its type.
    ensures found { IfOk result (λ x. (bytes.now ≡ codecs.certificate.spell x) × codecs.certificate.fits x) }
    // So it can be encoded again.
    ensures short { IfOk result codecs.certificate.short }
    // A value that these bytes encode is read, unless memory runs out.
    ensures only { (x : _) → codecs.certificate.fits x → bytes.now ≡ codecs.certificate.spell x → Decodes bytes.now result (Ok x) }
    // Which fault it is.
    ensures exact { Decodes bytes.now result (whole codecs.certificate bytes.now) }
{
    decode(alloc, bytes)
}

/// The one encoding of an entry. Its lists are at most 2147483647 long.
pub fn encode_entry(alloc: Global, value: &Entry) -> Result<Seq<u8>, OutOfMemory>
    requires { codecs.entry.short value.now }
    ensures { IfOk result (λ bytes. bytes ≡ codecs.entry.spell value.now) }
{
    encode(alloc, value)
}

/// The entry that all the bytes encode. A fault comes exactly if there is none, and is the first.
pub fn decode_entry(alloc: Global, bytes: &[u8]) -> Result<Entry, Unread>
    // The bytes are the encoding of the value, which is a value of its type.
    ensures found { IfOk result (λ x. (bytes.now ≡ codecs.entry.spell x) × codecs.entry.fits x) }
    // So it can be encoded again.
    ensures short { IfOk result codecs.entry.short }
    // A value that these bytes encode is read, unless memory runs out.
    ensures only { (x : _) → codecs.entry.fits x → bytes.now ≡ codecs.entry.spell x → Decodes bytes.now result (Ok x) }
    // Which fault it is.
    ensures exact { Decodes bytes.now result (whole codecs.entry bytes.now) }
{
    decode(alloc, bytes)
}
