//! Journal records on the wire.

ghost use Rattle.std.specs.Prelude.{◌≡◌, IfOk, Ok};
ghost use Rattle.wire_bcs.specs.Whole.{whole};
ghost use Rattle.wire_bcs.specs.Gives.{Decodes};
ghost use Rattle.journal_core.specs.Records as codecs;

use crate::records::{RanItem, Record};
use chain_messages::Certificate;
use std::alloc::Global;
use wire_bcs::{
    Duplicate, OutOfMemory, Reader, Seq, Unread, Wire, Writer, decode, encode, put_variant,
    put_variant_of_two,
};

#[tactic(auto, using(wire_bcs::specs::Wrote::parts), unfolding(crate::specs::Records::ran_item))]
impl Wire for RanItem {
    ghost codec = { codecs.ran_item };

    fn write_into(&self, writer: &mut Writer) -> Result<(), OutOfMemory> {
        self.tx.write_into(writer)?;
        self.effects.write_into(writer)?;
        Ok(())
    }

    fn read_from(alloc: Global, reader: &mut Reader) -> Result<Self, Unread> {
        let (tx, effects) = Wire::read_from(alloc, reader)?;
        Ok(RanItem { tx, effects })
    }
}

#[tactic(auto, using(wire_bcs::specs::Wrote::parts), unfolding(crate::specs::Records::journal_record))]
impl Wire for Record {
    ghost codec = { codecs.journal_record };

    fn write_into(&self, writer: &mut Writer) -> Result<(), OutOfMemory> {
        match self {
            Record::Vote { tx, origins } => put_variant_of_two(writer, 0, tx, origins),
            Record::Hold(cert) => put_variant(writer, 1, cert),
            Record::See(bytes) => {
                writer.put_tag(2)?;
                writer.put_bytes(bytes.as_slice())?;
                Ok(())
            }
            Record::Close => {
                writer.put_tag(3)?;
                Ok(())
            }
            Record::Ran(ran) => put_variant(writer, 4, ran),
            Record::Turn => {
                writer.put_tag(5)?;
                Ok(())
            }
            Record::Ran2(ran) => put_variant(writer, 6, ran),
        }
    }

    fn read_from(alloc: Global, reader: &mut Reader) -> Result<Self, Unread> {
        match reader.tag(7)? {
            0 => {
                let (tx, origins) = Wire::read_from(alloc, reader)?;
                Ok(Record::Vote { tx, origins })
            }
            1 => {
                let cert = Certificate::read_from(alloc, reader)?;
                Ok(Record::Hold(cert))
            }
            2 => {
                let bytes = reader.bytes()?;
                Ok(Record::See(Seq::from_slice(alloc, bytes)?))
            }
            3 => Ok(Record::Close),
            4 => {
                let ran = Seq::read_from(alloc, reader)?;
                Ok(Record::Ran(ran))
            }
            5 => Ok(Record::Turn),
            _ => {
                let ran = Seq::read_from(alloc, reader)?;
                Ok(Record::Ran2(ran))
            }
        }
    }
}

impl Duplicate for Record {
    fn copy(&self) -> Result<Self, OutOfMemory> {
        Ok(match self {
            Record::Vote { tx, origins } => Record::Vote {
                tx: tx.copy()?,
                origins: origins.copy()?,
            },
            Record::Hold(cert) => Record::Hold(cert.copy()?),
            Record::See(bytes) => Record::See(bytes.copy()?),
            Record::Close => Record::Close,
            Record::Ran(ran) => Record::Ran(ran.copy()?),
            Record::Turn => Record::Turn,
            Record::Ran2(ran) => Record::Ran2(ran.copy()?),
        })
    }
}

/// The one encoding of a record. Its lists are at most 2147483647 long.
pub fn encode_record(alloc: Global, value: &Record) -> Result<Seq<u8>, OutOfMemory>
    requires { codecs.journal_record.short value.now }
    ensures { IfOk result (λ bytes. bytes ≡ codecs.journal_record.spell value.now) }
{
    encode(alloc, value)
}

/// The record that all the bytes encode. A fault comes exactly if there is none, and is the first.
pub fn decode_record(alloc: Global, bytes: &[u8]) -> Result<Record, Unread>
    // The bytes are the encoding of the value, which is a value of its type.
    ensures found { IfOk result (λ x. (bytes.now ≡ codecs.journal_record.spell x) × codecs.journal_record.fits x) }
    // So it can be encoded again.
    ensures short { IfOk result codecs.journal_record.short }
    // A value that these bytes encode is read, unless memory runs out.
    ensures only { (x : _) → codecs.journal_record.fits x → bytes.now ≡ codecs.journal_record.spell x → Decodes bytes.now result (Ok x) }
    // Which fault it is.
    ensures exact { Decodes bytes.now result (whole codecs.journal_record bytes.now) }
{
    decode(alloc, bytes)
}
