//! The answers to `run`.

ghost use Rattle.std.specs.Prelude.{◌≡◌, ◌++◌, OnOk};
ghost use Rattle.std.specs.List.{flat_map};
ghost use Rattle.process_lines.specs.Texts.{executed_text, left_text, ran_text, run_refusal_text};

use crate::checkpoints::print_built;
use crate::faults::print_halted;
use crate::pieces::{Piece, print};
use effects_core::HashedEffects;
use protocol_spec::{Left, Ran, RunRefusal};
use wire_bcs::{OutOfMemory, Seq};

/// ` ID EFFECTS_DIGEST`
fn print_executed_one(out: &mut Seq<u8>, effects: &HashedEffects) -> Result<(), OutOfMemory>
    ensures { OnOk result (out.new ≡ out.old ++ executed_text effects.now) }
{
    print(
        out,
        &[
            Piece::Text(b" "),
            Piece::Id(effects.effects().tx),
            Piece::Text(b" "),
            Piece::Id(effects.digest()),
        ],
    )
}

/// What was executed.
fn print_executed(out: &mut Seq<u8>, executed: &[HashedEffects]) -> Result<(), OutOfMemory>
    ensures { OnOk result (out.new ≡ out.old ++ flat_map executed_text executed.now) }
{
    for effects in executed {
        print_executed_one(out, effects)?;
    }
    Ok(())
}

/// ` left ID absent KEY`, or ` left ID unfit`
fn print_left_one(out: &mut Seq<u8>, left: &Left) -> Result<(), OutOfMemory>
    ensures { OnOk result (out.new ≡ out.old ++ left_text left.now) }
{
    match left.key {
        Some(key) => print(
            out,
            &[
                Piece::Text(b" left "),
                Piece::Id(left.tx),
                Piece::Text(b" absent "),
                Piece::Key(key),
            ],
        ),
        None => print(
            out,
            &[
                Piece::Text(b" left "),
                Piece::Id(left.tx),
                Piece::Text(b" unfit"),
            ],
        ),
    }
}

/// What was left.
fn print_left(out: &mut Seq<u8>, all: &[Left]) -> Result<(), OutOfMemory>
    ensures { OnOk result (out.new ≡ out.old ++ flat_map left_text all.now) }
{
    for left in all {
        print_left_one(out, left)?;
    }
    Ok(())
}

/// `ran ..`: what was executed, what was left, and the checkpoints that were built.
#[tactic(auto, unfolding(crate::specs::Texts::ran_text))]
pub fn print_ran(out: &mut Seq<u8>, ran: &Ran) -> Result<(), OutOfMemory>
    ensures { OnOk result (out.new ≡ out.old ++ ran_text ran.now) }
{
    out.extend(b"ran")?;
    print_executed(out, ran.executed.as_slice())?;
    print_left(out, ran.left.as_slice())?;
    print_built(out, ran.built.as_slice())
}

/// `refused ..`. A fault has no line.
#[tactic(auto, unfolding(crate::specs::Texts::run_refusal_text))]
pub fn print_run_refusal(out: &mut Seq<u8>, refusal: &RunRefusal) -> Result<(), OutOfMemory>
    ensures { OnOk result (out.new ≡ out.old ++ run_refusal_text refusal.now) }
{
    match refusal {
        RunRefusal::Down | RunRefusal::KeepFault | RunRefusal::OutOfMemory => Ok(()),
        RunRefusal::Halted { first, second } => print_halted(out, first, second),
        RunRefusal::Full => out.extend(b"refused full"),
    }
}
