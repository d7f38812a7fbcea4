//! Printing checkpoints: their numbers in other answers, and the answers to `checkpoint`.

ghost use Rattle.std.specs.Prelude.{◌≡◌, ◌++◌, OnOk};
ghost use Rattle.std.specs.List.{flat_map};
ghost use Rattle.chain_messages.specs.Messages as messages;
ghost use Rattle.checkpoint_core.specs.Checkpoints as checkpoints;
ghost use Rattle.process_lines.specs.Texts.{built_one, built_text, checkpoint_text, none_text};

use crate::pieces::{Piece, print};
use chain_messages::{Sealed, encode_sealed};
use checkpoint_core::{Checkpoint, HashedCheckpoint};
use wire_bcs::{OutOfMemory, Seq, encode};

/// The number of a checkpoint.
fn number_of(built: &HashedCheckpoint) -> u64
    ensures { result ≡ built.now.number }
{
    built.checkpoint().number
}

/// ` checkpoint N`
#[tactic(auto, unfolding(crate::specs::Texts::built_one))]
fn print_built_one(out: &mut Seq<u8>, built: &HashedCheckpoint) -> Result<(), OutOfMemory>
    ensures { OnOk result (out.new ≡ out.old ++ built_one built.now) }
{
    let number = number_of(built);
    print(out, &[Piece::Text(b" checkpoint "), Piece::Number(number)])
}

/// ` checkpoint N` for each checkpoint that was built.
#[tactic(auto, unfolding(crate::specs::Texts::built_text))]
pub(crate) fn print_built(out: &mut Seq<u8>, built: &[HashedCheckpoint]) -> Result<(), OutOfMemory>
    ensures { OnOk result (out.new ≡ out.old ++ built_text built.now) }
{
    for checkpoint in built {
        print_built_one(out, checkpoint)?;
    }
    Ok(())
}

/// `checkpoint BYTES SEALED`: a checkpoint, and the member's own statement of it.
#[tactic(auto, unfolding(crate::specs::Texts::checkpoint_text))]
pub fn print_checkpoint(
    out: &mut Seq<u8>,
    checkpoint: &Checkpoint,
    sealed: &Sealed,
) -> Result<(), OutOfMemory>
    requires short { checkpoints.checkpoint.short checkpoint.now }
    requires sealed { messages.sealed.short sealed.now }
    ensures { OnOk result (out.new ≡ out.old ++ checkpoint_text checkpoint.now sealed.now) }
{
    let bytes = encode(out.allocator(), checkpoint)?;
    let sealed = encode_sealed(out.allocator(), sealed)?;
    print(
        out,
        &[
            Piece::Text(b"checkpoint "),
            Piece::Bytes(bytes.as_slice()),
            Piece::Text(b" "),
            Piece::Bytes(sealed.as_slice()),
        ],
    )
}

/// `none`: there is no such thing.
pub fn print_none(out: &mut Seq<u8>) -> Result<(), OutOfMemory>
    ensures { OnOk result (out.new ≡ out.old ++ none_text) }
{
    out.extend(b"none")
}
