//! The lines of digests.

ghost use Rattle.std.specs.Prelude.{◌≡◌, ◌++◌, OnOk};
ghost use Rattle.world_lines.specs.KnownRows.{made_as};
ghost use Rattle.inspect.specs.Digests.{checkpoint_line, object_line, tx_line, with_digest};

use crate::lines::add_number;
use chain_types::{Object, object_digest};
use checkpoint_core::{Checkpoint, checkpoint_digest};
use digest_core::Digest;
use hex::encode_to_slice;
use std::alloc::Global;
use wire_bcs::{OutOfMemory, Seq};
use world_lines::{Directory, MadeTx};

/// Adds a digest in hexadecimal digits after the words of its line, and ends the line.
fn add_digest(text: &mut Seq<u8>, digest: &Digest) -> Result<(), OutOfMemory>
    ensures { OnOk result (text.new ≡ with_digest text.old digest.now) }
{
    let mut digits = [0; 64];
    match encode_to_slice(digest.0.as_slice(), digits.as_mut_slice()) {
        Ok(()) => {
            text.extend(b" ".as_slice())?;
            text.extend(digits.as_slice())?;
            text.extend(b"\n".as_slice())
        }
        Err(_) => unreachable!(),
    }
}

/// `tx NAME HEX`
#[tactic(auto, using(crate::proofs::Digested::tx_words))]
pub(crate) fn add_tx(text: &mut Seq<u8>, made: &MadeTx) -> Result<(), OutOfMemory>
    ensures { OnOk result (text.new ≡ text.old ++ tx_line (made_as made.now)) }
{
    text.extend(b"tx ".as_slice())?;
    text.extend(made.name.as_slice())?;
    add_digest(text, &made.digest)
}

/// `checkpoint N HEX`. A checkpoint of more than 2147483647 items counts as running out of memory.
#[tactic(auto, using(crate::proofs::Digested::checkpoint_words))]
pub(crate) fn add_checkpoint(
    alloc: Global,
    text: &mut Seq<u8>,
    checkpoint: &Checkpoint,
) -> Result<(), OutOfMemory>
    ensures { OnOk result (text.new ≡ text.old ++ checkpoint_line checkpoint.now) }
{
    if !checkpoint.is_short() {
        return Err(OutOfMemory);
    }
    let digest = checkpoint_digest(alloc, checkpoint)?;
    text.extend(b"checkpoint ".as_slice())?;
    add_number(text, checkpoint.number)?;
    add_digest(text, &digest)
}

/// `object NAME V HEX`
#[tactic(auto, using(crate::proofs::Digested::object_words))]
pub(crate) fn add_object(
    text: &mut Seq<u8>,
    names: &Directory,
    object: &Object,
) -> Result<(), OutOfMemory>
    ensures { OnOk result (text.new ≡ text.old ++ object_line names.now object.now) }
{
    let name = names.object_name(&object.id)?;
    text.extend(b"object ".as_slice())?;
    text.extend(name.as_slice())?;
    text.extend(b" ".as_slice())?;
    add_number(text, object.version)?;
    add_digest(text, &object_digest(object))
}
