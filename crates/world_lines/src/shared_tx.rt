//! A signed transaction with several owners.

ghost use Rattle.std.specs.Prelude.{◌≡◌, IfOk};
ghost use Rattle.chain_types.specs.Transactions as codecs;

use chain_types::SignedTx;
use std::alloc::Global;
use std::marker::Model;
use std::sync::Arc;
use wire_bcs::{Encoded, OutOfMemory, Seq};

/// A signed transaction and its encoding, which stand once in memory: its line and the certificates for it own them
/// together. Contracts see the signed transaction.
#[derive(Debug, Drop)]
pub struct SharedTx {
    signed: Arc<Encoded<SignedTx>, Global>,
}

impl Model for SharedTx {
    ghost use Rattle.std.specs.Arc.{arc_value};
    ghost use Rattle.chain_types.specs.declared.transactions.SignedTx.{SignedTx as S};

    ghost Value = { S };

    ghost view = { λ s. arc_value s.signed };
}

impl SharedTx {
    /// This signed transaction, which these bytes encode, with one owner.
    pub(crate) fn new(
        alloc: Global,
        signed: SignedTx,
        bytes: Seq<u8>,
    ) -> Result<SharedTx, OutOfMemory>
        requires { bytes ≡ codecs.signed.spell signed }
        ensures { IfOk result (λ s. s ≡ signed) }
    {
        let signed = Arc::new(alloc, Encoded::of(signed, bytes))?;
        Ok(SharedTx { signed })
    }

    /// One more owner of it. Takes no memory; the only error is that it has 2^63 owners.
    pub(crate) fn share(&self) -> Result<SharedTx, OutOfMemory>
        ensures { IfOk result (λ s. s ≡ self.now) }
    {
        let signed = Arc::try_clone(&self.signed)?;
        Ok(SharedTx { signed })
    }

    /// The signed transaction. Takes no memory.
    pub fn value(&self) -> &SignedTx
        ensures { result.now ≡ self.now }
    {
        self.signed.value()
    }

    /// Its encoding. Takes no memory.
    pub fn bytes(&self) -> &[u8]
        ensures { result.now ≡ codecs.signed.spell self.now }
    {
        self.signed.bytes()
    }

    /// The encoding of the transaction without its seal: what comes before the seal in the whole encoding. Takes no
    /// memory.
    #[tactic(auto, using(crate::proofs::Spelled::without_seal))]
    pub(crate) fn tx_bytes(&self) -> &[u8]
        ensures { result.now ≡ codecs.transaction.spell self.now.tx }
    {
        let bytes = self.bytes();
        let seal = self.value().seal.0.as_slice();
        let (tx, _seal) = bytes.split_at(bytes.len().saturating_sub(seal.len()));
        tx
    }
}
