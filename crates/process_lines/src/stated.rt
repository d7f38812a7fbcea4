//! The answers to `end` and `ack`.

ghost use Rattle.std.specs.Prelude.{◌≡◌, ◌++◌, OnOk};
ghost use Rattle.chain_messages.specs.Messages as messages;
ghost use Rattle.process_lines.specs.Texts.{ack_refusal_text, ack_text, end_refusal_text, end_text};

use crate::faults::print_halted;
use crate::pieces::{Piece, print};
use chain_messages::{Sealed, encode_sealed};
use protocol_spec::{AckRefusal, EndRefusal};
use wire_bcs::{OutOfMemory, Seq};

/// `end SEALED`
#[tactic(auto, unfolding(crate::specs::Texts::end_text))]
pub fn print_end(out: &mut Seq<u8>, sealed: &Sealed) -> Result<(), OutOfMemory>
    requires short { messages.sealed.short sealed.now }
    ensures { OnOk result (out.new ≡ out.old ++ end_text sealed.now) }
{
    let sealed = encode_sealed(out.allocator(), sealed)?;
    print(
        out,
        &[Piece::Text(b"end "), Piece::Bytes(sealed.as_slice())],
    )
}

/// `refused ..`. A fault has no line.
#[tactic(auto, unfolding(crate::specs::Texts::end_refusal_text))]
pub fn print_end_refusal(out: &mut Seq<u8>, refusal: &EndRefusal) -> Result<(), OutOfMemory>
    ensures { OnOk result (out.new ≡ out.old ++ end_refusal_text refusal.now) }
{
    match refusal {
        EndRefusal::Down | EndRefusal::OutOfMemory => Ok(()),
        EndRefusal::Halted { first, second } => print_halted(out, first, second),
        EndRefusal::NotClosed => out.extend(b"refused not closed"),
        EndRefusal::Waits { tx } => print(out, &[Piece::Text(b"refused waits "), Piece::Id(*tx)]),
    }
}

/// `ack SEALED`
#[tactic(auto, unfolding(crate::specs::Texts::ack_text))]
pub fn print_ack(out: &mut Seq<u8>, sealed: &Sealed) -> Result<(), OutOfMemory>
    requires short { messages.sealed.short sealed.now }
    ensures { OnOk result (out.new ≡ out.old ++ ack_text sealed.now) }
{
    let sealed = encode_sealed(out.allocator(), sealed)?;
    print(
        out,
        &[Piece::Text(b"ack "), Piece::Bytes(sealed.as_slice())],
    )
}

/// `refused ..`. A fault has no line.
#[tactic(auto, unfolding(crate::specs::Texts::ack_refusal_text))]
pub fn print_ack_refusal(out: &mut Seq<u8>, refusal: &AckRefusal) -> Result<(), OutOfMemory>
    ensures { OnOk result (out.new ≡ out.old ++ ack_refusal_text refusal.now) }
{
    match refusal {
        AckRefusal::Down | AckRefusal::OutOfMemory => Ok(()),
        AckRefusal::Halted { first, second } => print_halted(out, first, second),
        AckRefusal::NotExecuted => out.extend(b"refused not executed"),
    }
}
