//! Signed transactions that are read with the bytes of their transaction.

ghost use Rattle.std.specs.Prelude.{◌≡◌, IfOk};
ghost use Rattle.wire_bcs.specs.Whole.{whole};
ghost use Rattle.wire_bcs.specs.Gives.{Ahead, DecodesAs, GivesAs};
ghost use Rattle.chain_types.specs.Transactions as codecs;
ghost use Rattle.chain_types.specs.Digests.{transaction_digest};

use crate::transactions::{SignedTx, Transaction};
use digest_core::{Digest, TAG_TRANSACTION, digest_of};
use std::alloc::Global;
use wire_bcs::{Reader, Unread, Wire, read_encoded};

#[tactic(auto, unfolding(crate::specs::Transactions::signed))]
fn read_signed<'a>(alloc: Global, reader: &mut Reader<'a>) -> Result<(SignedTx, &'a [u8]), Unread>
    ensures exact { GivesAs (λ x. x.0) reader.new result (codecs.signed.read reader.old) }
    ensures ahead { Ahead reader.old reader.new }
    ensures tx { IfOk result (λ x. x.1.now ≡ codecs.transaction.spell x.0.tx) }
{
    let (tx, bytes) = read_encoded::<Transaction>(alloc, reader)?;
    let seal = Digest::read_from(alloc, reader)?;
    Ok((SignedTx { tx, seal }, bytes))
}

#[tactic(auto, unfolding(wire_bcs::specs::Whole::whole))]
fn whole_signed(alloc: Global, bytes: &[u8]) -> Result<(SignedTx, &[u8]), Unread>
    ensures exact { DecodesAs (λ x. x.0) bytes.now result (whole codecs.signed bytes.now) }
    ensures tx { IfOk result (λ x. x.1.now ≡ codecs.transaction.spell x.0.tx) }
{
    let mut reader = Reader::new(bytes);
    let signed = read_signed(alloc, &mut reader)?;
    reader.finish()?;
    Ok(signed)
}

/// The signed transaction that all the bytes encode, and those of the bytes that encode its transaction, so that nobody
/// encodes it again. A fault comes exactly if there is none, and is the first.
pub fn decode_signed_with(alloc: Global, bytes: &[u8]) -> Result<(SignedTx, &[u8]), Unread>
    // The bytes are the encoding of the value, which is a value of its type.
    ensures found { IfOk result (λ x. (bytes.now ≡ codecs.signed.spell x.0) × codecs.signed.fits x.0) }
    // So it can be encoded again.
    ensures short { IfOk result (λ x. codecs.signed.short x.0) }
    // Which value or fault it is.
    ensures exact { DecodesAs (λ x. x.0) bytes.now result (whole codecs.signed bytes.now) }
    // The bytes of the transaction.
    ensures tx { IfOk result (λ x. x.1.now ≡ codecs.transaction.spell x.0.tx) }
{
    whole_signed(alloc, bytes)
}

/// The digest of a transaction that these bytes encode. Takes no memory.
#[tactic(auto, unfolding(crate::specs::Digests::transaction_digest))]
pub fn encoded_digest(tx: &Transaction, bytes: &[u8]) -> Digest
    requires { bytes.now ≡ codecs.transaction.spell tx.now }
    ensures { result ≡ transaction_digest tx.now }
{
    let _of = tx;
    digest_of(TAG_TRANSACTION, bytes)
}
