//! Making a transaction.

ghost use Rattle.std.specs.Prelude.{◌≡◌, ℕ, List, IfOk, true};
ghost use Rattle.digest_core.specs.declared.Digest.{Digest as Seal};
ghost use Rattle.quorum_core.specs.declared.signer.Signer.{Signer as Who};
ghost use Rattle.quorum_core.specs.Seals.{keyed_seal};
ghost use Rattle.chain_types.specs.Transactions as codecs;
ghost use Rattle.world_lines.specs.Lines.{line_of};
ghost use Rattle.world_lines.specs.KnownRows.{made_as};
ghost use Rattle.world_spec.specs.MadeLines.{line_made, made_by, transaction_by};
ghost use Rattle.chain_types.specs.Long.{has_long_list};
ghost use Rattle.world_lines.specs.MakeAnswers.{Says};

use crate::commands::commands_of;
use crate::inputs::{HeldDigests, inputs_of, reference_of, spoiled_if};
use crate::{Directory, MadeTx, SharedTx, TxLine};
use chain_types::{Address, SignedTx, Transaction, encode_tx, has_long_list};
use digest_core::{Digest, TAG_TRANSACTION, digest_of};
use quorum_core::{KeyedSeal, Sealer, Signer};
use std::alloc::Global;
use wire_bcs::{OutOfMemory, Seq};

/// A sealer whose seals are determined by the signer and the bytes: it accepts no other than the one that it makes.
pub trait MakesSeals: Sealer {
    ghost made: { Self → Who → List ℕ → Seal };

    /// The seal of the signer over the bytes. Takes no memory.
    fn make_seal(&self, signer: &Signer, bytes: &[u8]) -> Digest
        ensures { result ≡ made self.now signer.now bytes.now };

    /// A seal that is accepted is the one that is made.
    ghost exact: { (sealer : Self) (signer : Who) (bytes : List ℕ) (seal : Seal) → Self.accepts sealer signer bytes seal ≡ true → seal ≡ made sealer signer bytes };
}

impl MakesSeals for KeyedSeal {
    ghost use Rattle.protocol_spec.proofs.Equality.{digest_same};

    ghost made = { λ sealer signer bytes. keyed_seal sealer.secret signer bytes };

    ghost exact = { λ sealer signer bytes seal accepted. digest_same seal (keyed_seal sealer.secret signer bytes) accepted };

    fn make_seal(&self, signer: &Signer, bytes: &[u8]) -> Digest {
        self.seal(signer, bytes)
    }
}

/// Why a line makes no transaction.
#[derive(Clone, Copy, Debug, PartialEq, Eq)]
pub enum MakeRefusal {
    /// One of its lists has more than 2147483647 items, so the transaction has no encoding.
    TooLong,
    OutOfMemory,
}

/// The transaction of a line.
fn transaction_of<H: HeldDigests>(
    alloc: Global,
    directory: &Directory,
    held: &H,
    line: &TxLine<'_>,
) -> Result<Transaction, OutOfMemory>
    ensures { IfOk result (λ tx. tx ≡ transaction_by directory.now (H.held held.now) (line_of line.now)) }
{
    Ok(Transaction {
        epoch: line.epoch,
        sender: Address(directory.user_address(line.sender)),
        gas: reference_of(directory, held, line.gas),
        budget: line.budget,
        inputs: inputs_of(alloc, directory, held, line.inputs)?,
        commands: commands_of(alloc, line.commands)?,
    })
}

/// The digest and the seal of a transaction that can be encoded.
#[tactic(auto, unfolding(chain_types::specs::Digests::transaction_digest, chain_types::specs::Transactions::signed, wire_bcs::specs::Digests::digest))]
fn sign<S: MakesSeals>(
    alloc: Global,
    sealer: &S,
    name: &[u8],
    spoiled: bool,
    tx: Transaction,
) -> Result<MadeTx, OutOfMemory>
    requires { codecs.transaction.short tx }
    ensures made { IfOk result (λ t. made_as t ≡ made_by (S.made sealer.now) name.now spoiled tx) }
    ensures short { IfOk result (λ t. codecs.signed.short t.signed) }
{
    let mut bytes = encode_tx(alloc, &tx)?;
    let digest = digest_of(TAG_TRANSACTION, bytes.as_slice());
    let made = sealer.make_seal(&Signer::User(tx.sender.0), bytes.as_slice());
    let seal = spoiled_if(spoiled, &made);
    bytes.extend(&seal.0)?;
    Ok(MadeTx {
        name: Seq::from_slice(alloc, name)?,
        digest,
        signed: SharedTx::new(alloc, SignedTx { tx, seal }, bytes)?,
    })
}

/// The transaction that a line makes, by the digests that are held and the sealer's seals; it can be encoded.
/// `TooLong` comes exactly if one of its lists is too long for that.
#[tactic(auto, using(crate::proofs::MadeSpelled::short_lists))]
pub fn make<H: HeldDigests, S: MakesSeals>(
    alloc: Global,
    directory: &Directory,
    held: &H,
    sealer: &S,
    line: &TxLine<'_>,
) -> Result<MadeTx, MakeRefusal>
    ensures made { IfOk result (λ t. made_as t ≡ line_made directory.now (H.held held.now) (S.made sealer.now) (line_of line.now)) }
    ensures short { IfOk result (λ t. codecs.signed.short t.signed) }
    ensures long { Says result (has_long_list 2147483647 (transaction_by directory.now (H.held held.now) (line_of line.now))) }
{
    let Ok(tx) = transaction_of(alloc, directory, held, line) else {
        return Err(MakeRefusal::OutOfMemory);
    };
    if has_long_list(2147483647, &tx) {
        return Err(MakeRefusal::TooLong);
    }
    match sign(alloc, sealer, line.name, line.spoiled, tx) {
        Ok(made) => Ok(made),
        Err(OutOfMemory) => Err(MakeRefusal::OutOfMemory),
    }
}
