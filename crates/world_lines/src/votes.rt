//! The `vote` lines: what a member answered to a signed transaction.

ghost use Rattle.std.specs.Prelude.{◌≡◌, Err, IfOk};
ghost use Rattle.world_spec.specs.Report.{vote_answered, voted_text};
ghost use Rattle.world_spec.specs.Known.{setting_with, world_with};
ghost use Rattle.world_lines.specs.Answers.{vote_as};

use crate::Directory;
use crate::words::{origin_names, tx_text, version_text};
use chain_messages::Statement;
use protocol_spec::{VoteRefusal, Voted};
use report_text::VoteText;
use wire_bcs::OutOfMemory;

/// The ending of a `vote` line for a vote, which is new or was given before.
fn voted_text(
    directory: &Directory,
    fresh: bool,
    statement: &Statement,
) -> Result<VoteText, OutOfMemory>
    ensures { IfOk result (λ text. text ≡ voted_text (world_with directory.now) fresh statement.now) }
{
    match statement {
        Statement::Vote { origins, .. } => {
            let origins = origin_names(directory, origins.as_slice())?;
            if fresh {
                Ok(VoteText::Voted { origins })
            } else {
                Ok(VoteText::Again { origins })
            }
        }
        Statement::End { .. } | Statement::Checkpoint { .. } | Statement::Ack { .. } => {
            Ok(VoteText::Down)
        }
    }
}

/// The ending of a `vote` line for a refusal to vote.
fn refusal_text(directory: &Directory, refusal: &VoteRefusal) -> Result<VoteText, OutOfMemory>
    ensures { IfOk result (λ text. text ≡ vote_answered (setting_with directory.now) (world_with directory.now) (Err refusal.now)) }
{
    Ok(match refusal {
        VoteRefusal::Halted { first, second } => VoteText::Halted {
            first: tx_text(directory, first)?,
            second: tx_text(directory, second)?,
        },
        VoteRefusal::Malformed(fault) => VoteText::Malformed {
            at: fault.at,
            why: fault.why as u64,
        },
        VoteRefusal::WrongEpoch { had, want } => VoteText::WrongEpoch {
            had: *had,
            want: *want,
        },
        VoteRefusal::Closed => VoteText::Closed,
        VoteRefusal::Invalid(number) => VoteText::Invalid {
            number: *number as u64,
        },
        VoteRefusal::Unsealed => VoteText::Unsealed,
        VoteRefusal::Absent(key) => VoteText::Absent {
            key: version_text(directory, key)?,
        },
        VoteRefusal::Consumed { key, by } => VoteText::Consumed {
            key: version_text(directory, key)?,
            by: tx_text(directory, by)?,
        },
        VoteRefusal::WrongDigest(key) => VoteText::WrongDigest {
            key: version_text(directory, key)?,
        },
        VoteRefusal::WrongOwner(key) => VoteText::WrongOwner {
            key: version_text(directory, key)?,
        },
        VoteRefusal::WrongKind(key) => VoteText::WrongKind {
            key: version_text(directory, key)?,
        },
        VoteRefusal::PoorGas { had, want } => VoteText::PoorGas {
            had: *had,
            want: *want,
        },
        VoteRefusal::Locked { key, by } => VoteText::Locked {
            key: version_text(directory, key)?,
            by: tx_text(directory, by)?,
        },
        VoteRefusal::Full => VoteText::Full,
        VoteRefusal::Down | VoteRefusal::KeepFault | VoteRefusal::OutOfMemory => VoteText::Down,
    })
}

/// The ending of a `vote` line for the member's answer.
pub fn vote_text(
    directory: &Directory,
    answer: &Result<Voted, VoteRefusal>,
) -> Result<VoteText, OutOfMemory>
    ensures { IfOk result (λ text. text ≡ vote_answered (setting_with directory.now) (world_with directory.now) (vote_as answer.now)) }
{
    match answer {
        Ok(voted) => voted_text(directory, voted.fresh, &voted.sealed.statement),
        Err(refusal) => refusal_text(directory, refusal),
    }
}
