//! The first line of a process.

ghost use Rattle.std.specs.Prelude.{◌≡◌, ◌++◌, ◌∷◌, [], OnOk, codes, decimal};
ghost use Rattle.std.specs.List.{concat};
ghost use Rattle.process_lines.specs.Texts.{ready_text, start_text};

use crate::pieces::{Piece, print};
use digest_core::Digest;
use wire_bcs::{OutOfMemory, Seq};

/// How a process starts, or why not.
#[derive(Clone, Copy, Debug, PartialEq, Eq)]
pub enum StartLine {
    /// The member is up, in this state.
    Ready {
        member: u32,
        epoch: u64,
        seen: u64,
        checkpoints: u64,
        records: u64,
    },
    /// The journal of the member was made, for the set-up of this digest.
    Made {
        member: u32,
        genesis: Digest,
    },
    /// The set-up is not a schedule.
    NoSchedule {
        line: u64,
        cause: u8,
    },
    /// The set-up has event lines.
    HasEvents,
    /// The set-up has no honest member of this number.
    NoMember {
        member: u32,
    },
    /// The file is not a journal: it was not made, or the making was cut off.
    NotMade,
    OtherMember,
    OtherGenesis,
    /// A journal was to be made, and the file has something already.
    NotEmpty,
    /// The first record from which the member does not start, counted from 0.
    BadRecord {
        place: u64,
    },
}

/// The member, its epoch, and how many entries it has seen.
fn print_seat(out: &mut Seq<u8>, member: u32, epoch: u64, seen: u64) -> Result<(), OutOfMemory>
    ensures { OnOk result (out.new ≡ out.old ++ concat (codes "ready " ∷ decimal member ∷ codes " epoch " ∷ decimal epoch ∷ codes " seen " ∷ decimal seen ∷ [])) }
{
    print(
        out,
        &[
            Piece::Text(b"ready "),
            Piece::Number(member as u64),
            Piece::Text(b" epoch "),
            Piece::Number(epoch),
            Piece::Text(b" seen "),
            Piece::Number(seen),
        ],
    )
}

/// How much the member has built and kept.
fn print_amounts(out: &mut Seq<u8>, checkpoints: u64, records: u64) -> Result<(), OutOfMemory>
    ensures { OnOk result (out.new ≡ out.old ++ concat (codes " checkpoints " ∷ decimal checkpoints ∷ codes " records " ∷ decimal records ∷ [])) }
{
    print(
        out,
        &[
            Piece::Text(b" checkpoints "),
            Piece::Number(checkpoints),
            Piece::Text(b" records "),
            Piece::Number(records),
        ],
    )
}

/// Prints `ready`, the member, and the state that it starts from.
fn print_ready(
    out: &mut Seq<u8>,
    member: u32,
    epoch: u64,
    seen: u64,
    checkpoints: u64,
    records: u64,
) -> Result<(), OutOfMemory>
    ensures { OnOk result (out.new ≡ out.old ++ ready_text member epoch seen checkpoints records) }
{
    print_seat(out, member, epoch, seen)?;
    print_amounts(out, checkpoints, records)
}

/// Prints why the set-up is not a schedule: the line and the cause.
fn print_no_schedule(out: &mut Seq<u8>, line: u64, cause: u8) -> Result<(), OutOfMemory>
    ensures { OnOk result (out.new ≡ out.old ++ concat (codes "refused line " ∷ decimal line ∷ codes " cause " ∷ decimal cause ∷ [])) }
{
    print(
        out,
        &[
            Piece::Text(b"refused line "),
            Piece::Number(line),
            Piece::Text(b" cause "),
            Piece::Number(cause as u64),
        ],
    )
}

/// The first line of a process, without its end.
#[tactic(auto, unfolding(crate::specs::Texts::start_text))]
pub fn print_start(out: &mut Seq<u8>, start: &StartLine) -> Result<(), OutOfMemory>
    ensures { OnOk result (out.new ≡ out.old ++ start_text start.now) }
{
    match start {
        StartLine::Ready {
            member,
            epoch,
            seen,
            checkpoints,
            records,
        } => print_ready(out, *member, *epoch, *seen, *checkpoints, *records),
        StartLine::Made { member, genesis } => print(
            out,
            &[
                Piece::Text(b"made "),
                Piece::Number(*member as u64),
                Piece::Text(b" genesis "),
                Piece::Id(*genesis),
            ],
        ),
        StartLine::NoSchedule { line, cause } => print_no_schedule(out, *line, *cause),
        StartLine::HasEvents => out.extend(b"genesis: has events"),
        StartLine::NoMember { member } => print(
            out,
            &[
                Piece::Text(b"genesis: no honest member "),
                Piece::Number(*member as u64),
            ],
        ),
        StartLine::NotMade => out.extend(b"journal: not made"),
        StartLine::OtherMember => print(out, &[Piece::Text(b"journal: of another member")]),
        StartLine::OtherGenesis => print(out, &[Piece::Text(b"journal: of another genesis")]),
        StartLine::NotEmpty => out.extend(b"journal: not empty"),
        StartLine::BadRecord { place } => print(
            out,
            &[Piece::Text(b"journal: bad record "), Piece::Number(*place)],
        ),
    }
}
