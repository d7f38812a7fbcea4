//! Digests of transactions, objects and effects, from bytes.

ghost use Rattle.chain_types.specs.Objects.{object};
ghost use Rattle.chain_types.specs.Transactions.{transaction};
ghost use Rattle.chain_types.specs.Digests.{digest_of_object, transaction_digest};
ghost use Rattle.effects_core.specs.Effects.{digest_of_effects, effects};
ghost use Rattle.light_client.specs.Digests.{digest_answer};
ghost use Rattle.light_client.specs.Input.{Answers};

use crate::input::read_input;
use crate::refusal::Refusal;
use chain_types::{Object, Transaction, object_digest, tx_digest};
use digest_core::Digest;
use effects_core::{Effects, effects_digest};
use std::alloc::Global;

/// The digest of the transaction that the bytes encode; else why there is none: `TooLarge` or `Malformed`.
#[tactic(auto, unfolding(crate::specs::Digests::digest_answer))]
pub fn digest_of_transaction(alloc: Global, bytes: &[u8]) -> Result<Digest, Refusal>
    ensures { Answers result (digest_answer transaction transaction_digest bytes.now) }
{
    let tx: Transaction = read_input(alloc, bytes)?;
    let digest = tx_digest(alloc, &tx);
    drop(tx);
    Ok(digest?)
}

/// The digest of the object that the bytes encode; else why there is none: `TooLarge` or `Malformed`.
#[tactic(auto, unfolding(crate::specs::Digests::digest_answer))]
pub fn digest_of_object(alloc: Global, bytes: &[u8]) -> Result<Digest, Refusal>
    ensures { Answers result (digest_answer object digest_of_object bytes.now) }
{
    let object: Object = read_input(alloc, bytes)?;
    Ok(object_digest(&object))
}

/// The digest of the effects that the bytes encode; else why there is none: `TooLarge` or `Malformed`.
#[tactic(auto, unfolding(crate::specs::Digests::digest_answer))]
pub fn digest_of_effects(alloc: Global, bytes: &[u8]) -> Result<Digest, Refusal>
    ensures { Answers result (digest_answer effects digest_of_effects bytes.now) }
{
    let effects: Effects = read_input(alloc, bytes)?;
    let digest = effects_digest(alloc, &effects);
    drop(effects);
    Ok(digest?)
}
