//! The lines `close`, `end`, `ack` and `turn`, for what a member answered.

ghost use Rattle.std.specs.Prelude.{◌≡◌, ◌∷◌, [], Err, IfOk, Ok, OnOk};
ghost use Rattle.world_spec.specs.Report.{ack_answered, close_answered, end_answered, turn_answered};
ghost use Rattle.world_spec.specs.Known.{world_with};
ghost use Rattle.world_lines.specs.Pushed.{each_pushed};
ghost use Rattle.world_lines.specs.Answers.{member_in, reverted_line, stated_as};

use crate::Directory;
use crate::runs::one_line;
use crate::words::tx_text;
use chain_messages::Sealed;
use digest_core::Digest;
use protocol_spec::{AckRefusal, CloseRefusal, EndRefusal, TurnRefusal};
use report_text::{AckText, CloseText, EndText, Line, TurnText};
use wire_bcs::{OutOfMemory, Seq};

/// The ending of a `close` line for the member's answer.
pub fn close_text(
    directory: &Directory,
    answer: &Result<bool, CloseRefusal>,
) -> Result<CloseText, OutOfMemory>
    ensures { IfOk result (λ text. text ≡ close_answered (world_with directory.now) answer.now) }
{
    Ok(match answer {
        Ok(true) => CloseText::Closed,
        Ok(false) => CloseText::Again,
        Err(CloseRefusal::Halted { first, second }) => CloseText::Halted {
            first: tx_text(directory, first)?,
            second: tx_text(directory, second)?,
        },
        Err(CloseRefusal::Full) => CloseText::Full,
        Err(CloseRefusal::Down | CloseRefusal::KeepFault | CloseRefusal::OutOfMemory) => {
            CloseText::Down
        }
    })
}

/// The ending of an `end` line for the member's answer.
pub fn end_text(
    directory: &Directory,
    answer: &Result<Sealed, EndRefusal>,
) -> Result<EndText, OutOfMemory>
    ensures { IfOk result (λ text. text ≡ end_answered (world_with directory.now) (stated_as answer.now)) }
{
    Ok(match answer {
        Ok(_) => EndText::Said,
        Err(EndRefusal::NotClosed) => EndText::NotClosed,
        Err(EndRefusal::Waits { tx }) => EndText::Waits {
            tx: tx_text(directory, tx)?,
        },
        Err(EndRefusal::Halted { first, second }) => EndText::Halted {
            first: tx_text(directory, first)?,
            second: tx_text(directory, second)?,
        },
        Err(EndRefusal::Down | EndRefusal::OutOfMemory) => EndText::Down,
    })
}

/// The ending of an `ack` line for the member's answer.
pub fn ack_text(
    directory: &Directory,
    answer: &Result<Sealed, AckRefusal>,
) -> Result<AckText, OutOfMemory>
    ensures { IfOk result (λ text. text ≡ ack_answered (world_with directory.now) (stated_as answer.now)) }
{
    Ok(match answer {
        Ok(_) => AckText::Said,
        Err(AckRefusal::NotExecuted) => AckText::NotExecuted,
        Err(AckRefusal::Halted { first, second }) => AckText::Halted {
            first: tx_text(directory, first)?,
            second: tx_text(directory, second)?,
        },
        Err(AckRefusal::Down | AckRefusal::OutOfMemory) => AckText::Down,
    })
}

/// Adds the lines of transactions that a turn reverted.
fn add_reverted(
    directory: &Directory,
    lines: &mut Seq<Line>,
    txs: &[Digest],
) -> Result<(), OutOfMemory>
    ensures { OnOk result (lines.new ≡ each_pushed (reverted_line (world_with directory.now)) lines.old txs.now) }
{
    for tx in txs {
        let tx = tx_text(directory, tx)?;
        lines.push(Line::Reverted { tx })?;
    }
    Ok(())
}

/// The lines for a turn out of this epoch: one with the next epoch and the number of reverted transactions, then one
/// for each of these.
#[tactic(auto, using(crate::proofs::Pushed::one_behind))]
fn turned_lines(
    directory: &Directory,
    member: u32,
    epoch: u64,
    reverted: &[Digest],
) -> Result<Seq<Line>, OutOfMemory>
    ensures { IfOk result (λ lines. lines ≡ turn_answered (world_with directory.now) member (member_in epoch) (Ok reverted.now)) }
{
    let Some(next) = epoch.checked_add(1) else {
        return Err(OutOfMemory);
    };
    let text = TurnText::Turned {
        epoch: next,
        reverted: reverted.len() as u64,
    };
    let head = Line::Turn {
        member: member as u64,
        text,
    };
    let mut lines = one_line(directory.allocator(), head)?;
    add_reverted(directory, &mut lines, reverted)?;
    Ok(lines)
}

/// The line for a turn that was refused.
fn no_turn_line(
    directory: &Directory,
    member: u32,
    refusal: &TurnRefusal,
) -> Result<Line, OutOfMemory>
    ensures { IfOk result (λ line. (line ∷ []) ≡ turn_answered (world_with directory.now) member (member_in 0) (Err refusal.now)) }
{
    let text = match refusal {
        TurnRefusal::NotEnded => TurnText::NotEnded,
        TurnRefusal::Waits { tx } => TurnText::Waits {
            tx: tx_text(directory, tx)?,
        },
        TurnRefusal::Halted { first, second } => TurnText::Halted {
            first: tx_text(directory, first)?,
            second: tx_text(directory, second)?,
        },
        TurnRefusal::Full => TurnText::Full,
        TurnRefusal::Down | TurnRefusal::KeepFault | TurnRefusal::OutOfMemory => TurnText::Down,
    };
    Ok(Line::Turn {
        member: member as u64,
        text,
    })
}

/// The lines for the answer to `turn` of a member that was in this epoch before: the first line, and one for each
/// transaction that it reverted. A turn out of epoch 2^64 - 1, which has no next one, is reported as out of memory.
#[tactic(auto, using(crate::proofs::TurnTexts::refused_in))]
pub fn turn_lines(
    directory: &Directory,
    member: u32,
    epoch: u64,
    answer: &Result<Seq<Digest>, TurnRefusal>,
) -> Result<Seq<Line>, OutOfMemory>
    ensures { IfOk result (λ lines. lines ≡ turn_answered (world_with directory.now) member (member_in epoch) answer.now) }
{
    match answer {
        Ok(reverted) => turned_lines(directory, member, epoch, reverted.as_slice()),
        Err(refusal) => {
            let line = no_turn_line(directory, member, refusal)?;
            one_line(directory.allocator(), line)
        }
    }
}
