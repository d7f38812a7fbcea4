//! The answers to `close` and `turn`.

ghost use Rattle.std.specs.Prelude.{◌≡◌, ◌++◌, OnOk};
ghost use Rattle.process_lines.specs.Texts.{close_refusal_text, closed_text, turn_refusal_text, turned_text};

use crate::faults::print_halted;
use crate::pieces::{Piece, print};
use crate::sees::print_digests;
use digest_core::Digest;
use protocol_spec::{CloseRefusal, TurnRefusal};
use wire_bcs::{OutOfMemory, Seq};

/// `closed`, or `again` if the member was closed before.
#[tactic(auto, unfolding(crate::specs::Texts::closed_text))]
pub fn print_closed(out: &mut Seq<u8>, new: bool) -> Result<(), OutOfMemory>
    ensures { OnOk result (out.new ≡ out.old ++ closed_text new) }
{
    if new {
        out.extend(b"closed")
    } else {
        out.extend(b"again")
    }
}

/// `refused ..`. A fault has no line.
#[tactic(auto, unfolding(crate::specs::Texts::close_refusal_text))]
pub fn print_close_refusal(out: &mut Seq<u8>, refusal: &CloseRefusal) -> Result<(), OutOfMemory>
    ensures { OnOk result (out.new ≡ out.old ++ close_refusal_text refusal.now) }
{
    match refusal {
        CloseRefusal::Down | CloseRefusal::KeepFault | CloseRefusal::OutOfMemory => Ok(()),
        CloseRefusal::Halted { first, second } => print_halted(out, first, second),
        CloseRefusal::Full => out.extend(b"refused full"),
    }
}

/// `turned E undone ..`: the epoch that begins, and the transactions that were undone.
#[tactic(auto, unfolding(crate::specs::Texts::turned_text))]
pub fn print_turned(out: &mut Seq<u8>, epoch: u64, undone: &[Digest]) -> Result<(), OutOfMemory>
    ensures { OnOk result (out.new ≡ out.old ++ turned_text epoch undone.now) }
{
    print(
        out,
        &[
            Piece::Text(b"turned "),
            Piece::Number(epoch),
            Piece::Text(b" undone"),
        ],
    )?;
    print_digests(out, undone)
}

/// `refused ..`. A fault has no line.
#[tactic(auto, unfolding(crate::specs::Texts::turn_refusal_text))]
pub fn print_turn_refusal(out: &mut Seq<u8>, refusal: &TurnRefusal) -> Result<(), OutOfMemory>
    ensures { OnOk result (out.new ≡ out.old ++ turn_refusal_text refusal.now) }
{
    match refusal {
        TurnRefusal::Down | TurnRefusal::KeepFault | TurnRefusal::OutOfMemory => Ok(()),
        TurnRefusal::Halted { first, second } => print_halted(out, first, second),
        TurnRefusal::Full => out.extend(b"refused full"),
        TurnRefusal::NotEnded => out.extend(b"refused not ended"),
        TurnRefusal::Waits { tx } => print(out, &[Piece::Text(b"refused waits "), Piece::Id(*tx)]),
    }
}
