//! Certificates and entries that are read with the bytes of their transaction.

ghost use Rattle.std.specs.Prelude.{◌≡◌, [], IfOk};
ghost use Rattle.wire_bcs.specs.Whole.{whole};
ghost use Rattle.wire_bcs.specs.Gives.{Ahead, DecodesAs, GivesAs};
ghost use Rattle.chain_types.specs.Transactions.{transaction};
ghost use Rattle.chain_messages.specs.Messages as codecs;
ghost use Rattle.chain_messages.specs.Encoded.{IsTxOf};

use crate::messages::{Certificate, Entry, Sealed};
use chain_types::Transaction;
use std::alloc::Global;
use wire_bcs::{Reader, Unread, Wire, read_encoded};

#[tactic(auto, unfolding(crate::specs::Messages::certificate))]
fn read_certificate<'a>(
    alloc: Global,
    reader: &mut Reader<'a>,
) -> Result<(Certificate, &'a [u8]), Unread>
    ensures exact { GivesAs (λ x. x.0) reader.new result (codecs.certificate.read reader.old) }
    ensures ahead { Ahead reader.old reader.new }
    ensures tx { IfOk result (λ x. x.1.now ≡ transaction.spell x.0.tx) }
{
    let (tx, bytes) = read_encoded::<Transaction>(alloc, reader)?;
    let (origins, seals) = Wire::read_from(alloc, reader)?;
    Ok((Certificate { tx, origins, seals }, bytes))
}

#[tactic(auto, unfolding(wire_bcs::specs::Whole::whole))]
fn whole_certificate(alloc: Global, bytes: &[u8]) -> Result<(Certificate, &[u8]), Unread>
    ensures exact { DecodesAs (λ x. x.0) bytes.now result (whole codecs.certificate bytes.now) }
    ensures tx { IfOk result (λ x. x.1.now ≡ transaction.spell x.0.tx) }
{
    let mut reader = Reader::new(bytes);
    let cert = read_certificate(alloc, &mut reader)?;
    reader.finish()?;
    Ok(cert)
}

/// The certificate that all the bytes encode, and those of the bytes that encode its transaction, so that nobody
/// encodes it again. A fault comes exactly if there is none, and is the first.
pub fn decode_certificate_with(alloc: Global, bytes: &[u8]) -> Result<(Certificate, &[u8]), Unread>
    // The bytes are the encoding of the value, which is a value of its type.
    ensures found { IfOk result (λ x. (bytes.now ≡ codecs.certificate.spell x.0) × codecs.certificate.fits x.0) }
    // So it can be encoded again.
    ensures short { IfOk result (λ x. codecs.certificate.short x.0) }
    // Which value or fault it is.
    ensures exact { DecodesAs (λ x. x.0) bytes.now result (whole codecs.certificate bytes.now) }
    // The bytes of its transaction.
    ensures tx { IfOk result (λ x. x.1.now ≡ transaction.spell x.0.tx) }
{
    whole_certificate(alloc, bytes)
}

#[tactic(auto, unfolding(crate::specs::Messages::entry))]
fn read_entry<'a>(alloc: Global, reader: &mut Reader<'a>) -> Result<(Entry, &'a [u8]), Unread>
    ensures exact { GivesAs (λ x. x.0) reader.new result (codecs.entry.read reader.old) }
    ensures ahead { Ahead reader.old reader.new }
    ensures tx { IfOk result (λ x. IsTxOf x.0 x.1.now) }
{
    match reader.tag(3)? {
        0 => {
            let (cert, tx) = read_certificate(alloc, reader)?;
            Ok((Entry::Cert(cert), tx))
        }
        1 => {
            let sealed = Sealed::read_from(alloc, reader)?;
            Ok((Entry::End(sealed), &[]))
        }
        _ => Ok((Entry::Commit, &[])),
    }
}

#[tactic(auto, unfolding(wire_bcs::specs::Whole::whole))]
fn whole_entry(alloc: Global, bytes: &[u8]) -> Result<(Entry, &[u8]), Unread>
    ensures exact { DecodesAs (λ x. x.0) bytes.now result (whole codecs.entry bytes.now) }
    ensures tx { IfOk result (λ x. IsTxOf x.0 x.1.now) }
{
    let mut reader = Reader::new(bytes);
    let entry = read_entry(alloc, &mut reader)?;
    reader.finish()?;
    Ok(entry)
}

/// The entry that all the bytes encode, and those of the bytes that encode its transaction; none if it is not a
/// certificate. A fault comes exactly if there is none, and is the first.
pub fn decode_entry_with(alloc: Global, bytes: &[u8]) -> Result<(Entry, &[u8]), Unread>
    // The bytes are the encoding of the value, which is a value of its type.
    ensures found { IfOk result (λ x. (bytes.now ≡ codecs.entry.spell x.0) × codecs.entry.fits x.0) }
    // So it can be encoded again.
    ensures short { IfOk result (λ x. codecs.entry.short x.0) }
    // Which value or fault it is.
    ensures exact { DecodesAs (λ x. x.0) bytes.now result (whole codecs.entry bytes.now) }
    // The bytes of its transaction.
    ensures tx { IfOk result (λ x. IsTxOf x.0 x.1.now) }
{
    whole_entry(alloc, bytes)
}
