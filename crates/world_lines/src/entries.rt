//! The `see` lines: what a member made of the entries of its sequence.

ghost use Rattle.std.specs.Prelude.{◌≡◌, ◌++◌, [], Err, IfOk, Ok, OnOk};
ghost use Rattle.world_spec.specs.Report.{entry_lines, ignored_text, what_text};
ghost use Rattle.world_spec.specs.Known.{setting_staked, world_with};
ghost use Rattle.world_spec.specs.Posts.{list_of};

use crate::Directory;
use crate::runs::add_checkpoints;
use crate::words::{object_text, tx_names, tx_text, version_text};
use protocol_spec::{Ignore, SeeRefusal, Seen, SeenWhat};
use quorum_core::Committee;
use report_text::{EntryText, Line, SeeText};
use wire_bcs::{OutOfMemory, Seq};

/// The ending of the line for an entry that is ignored. Takes no memory.
fn ignored_text(cause: Ignore) -> EntryText
    ensures { result ≡ ignored_text cause }
{
    match cause {
        Ignore::Malformed => EntryText::IgnoredMalformed,
        Ignore::Statement => EntryText::IgnoredStatement,
        Ignore::Epoch => EntryText::IgnoredEpoch,
        Ignore::Cert => EntryText::IgnoredCertificate,
        Ignore::Seal => EntryText::IgnoredSeal,
        Ignore::Repeat => EntryText::IgnoredRepeat,
    }
}

/// The ending of the line for what a member made of an entry; the weight of Ends is shown with the stake of this
/// committee.
pub(crate) fn what_text(
    directory: &Directory,
    committee: &Committee,
    what: &SeenWhat,
) -> Result<EntryText, OutOfMemory>
    ensures { IfOk result (λ text. text ≡ what_text (setting_staked committee.now directory.now) (world_with directory.now) what.now) }
{
    Ok(match what {
        SeenWhat::Taken { admitted, dropped } => EntryText::Taken {
            admitted: tx_names(directory, admitted.as_slice())?,
            dropped: tx_names(directory, dropped.as_slice())?,
        },
        SeenWhat::Pending { tx, origin } => EntryText::Pending {
            tx: tx_text(directory, tx)?,
            origin: tx_text(directory, origin)?,
        },
        SeenWhat::Deferred { tx, id } => EntryText::Deferred {
            tx: tx_text(directory, tx)?,
            object: object_text(directory, id)?,
        },
        SeenWhat::Commit { admitted, dropped } => EntryText::Commit {
            admitted: tx_names(directory, admitted.as_slice())?,
            dropped: tx_names(directory, dropped.as_slice())?,
        },
        SeenWhat::Counted { member, weight } => EntryText::EndOf {
            member: *member as u64,
            weight: *weight,
            total: committee.total(),
            ended: false,
        },
        SeenWhat::Ended { member, weight } => EntryText::EndOf {
            member: *member as u64,
            weight: *weight,
            total: committee.total(),
            ended: true,
        },
        SeenWhat::Ignored(cause) => ignored_text(*cause),
    })
}

/// Adds the lines for an entry of this number that a member took: what it made of it, and the checkpoints that it
/// completed.
#[tactic(auto, using(crate::proofs::EntryTexts::taken_lines))]
fn add_taken(
    directory: &Directory,
    committee: &Committee,
    lines: &mut Seq<Line>,
    member: u32,
    number: u64,
    seen: &Seen,
) -> Result<(), OutOfMemory>
    ensures { OnOk result (lines.new ≡ lines.old ++ (entry_lines (setting_staked committee.now directory.now) (world_with directory.now) member number (Ok seen.now)).0) }
{
    let text = what_text(directory, committee, &seen.what)?;
    lines.push(Line::SeeEntry {
        member: member as u64,
        entry: number,
        text,
    })?;
    add_checkpoints(directory, lines, seen.built.as_slice())
}

/// The line for an entry of this number that a member refused; none if it is after the end of the epoch, or not the
/// next.
fn refusal_line(
    directory: &Directory,
    member: u32,
    number: u64,
    refusal: &SeeRefusal,
) -> Result<Option<Line>, OutOfMemory>
    ensures { IfOk result (λ line. list_of line ≡ (entry_lines (setting_staked [] directory.now) (world_with directory.now) member number (Err refusal.now)).0) }
{
    let member = member as u64;
    let text = match refusal {
        SeeRefusal::Halted { first, second } => SeeText::Halted {
            first: tx_text(directory, first)?,
            second: tx_text(directory, second)?,
        },
        SeeRefusal::Full => SeeText::Full,
        SeeRefusal::Over | SeeRefusal::Gap { .. } => return Ok(None),
        SeeRefusal::Fork { key, first, second } => {
            let text = EntryText::Fork {
                key: version_text(directory, key)?,
                first: tx_text(directory, first)?,
                second: tx_text(directory, second)?,
            };
            return Ok(Some(Line::SeeEntry {
                member,
                entry: number,
                text,
            }));
        }
        SeeRefusal::Down | SeeRefusal::KeepFault | SeeRefusal::OutOfMemory => SeeText::Down,
    };
    Ok(Some(Line::See { member, text }))
}

/// Adds the lines for a member's answer to the entry of this number, and says whether a member that is handed several
/// entries goes on after it.
#[tactic(auto, using(crate::proofs::EntryTexts::refused_lines, crate::proofs::EntryTexts::none_lines, crate::proofs::EntryTexts::refused_ends))]
pub fn add_entry_lines(
    directory: &Directory,
    committee: &Committee,
    lines: &mut Seq<Line>,
    member: u32,
    number: u64,
    answer: &Result<Seen, SeeRefusal>,
) -> Result<bool, OutOfMemory>
    ensures lines { OnOk result (lines.new ≡ lines.old ++ (entry_lines (setting_staked committee.now directory.now) (world_with directory.now) member number answer.now).0) }
    ensures goes { IfOk result (λ goes. goes ≡ (entry_lines (setting_staked committee.now directory.now) (world_with directory.now) member number answer.now).1) }
{
    match answer {
        Ok(seen) => {
            add_taken(directory, committee, lines, member, number, seen)?;
            Ok(true)
        }
        Err(refusal) => {
            if let Some(line) = refusal_line(directory, member, number, refusal)? {
                lines.push(line)?;
            }
            Ok(false)
        }
    }
}
