//! The `run` lines: what a run executed and left, and the checkpoints that it completed.

ghost use Rattle.std.specs.Prelude.{◌≡◌, ◌∷◌, [], Err, IfOk, Ok, OnOk, map};
ghost use Rattle.checkpoint_core.specs.declared.checkpoints.Item.{Item};
ghost use Rattle.world_spec.specs.Names.{tx_name};
ghost use Rattle.world_spec.specs.Report.{checkpoint_line, effects_line, left_line, run_answered, status_line};
ghost use Rattle.world_spec.specs.Known.{setting_with, world_with};
ghost use Rattle.world_lines.specs.Pushed.{each_pushed};

use crate::Directory;
use crate::words::{tx_text, version_text};
use checkpoint_core::{Checkpoint, HashedCheckpoint, Item};
use effects_core::{Effects, HashedEffects, Status};
use protocol_spec::{Left, Ran, RunRefusal};
use report_text::{Line, RunText};
use std::alloc::Global;
use wire_bcs::{OutOfMemory, Seq};

/// The line for how a block ended. Takes no memory.
fn status_line(tx: Seq<u8>, version: u64, gas: u64, status: &Status) -> Line
    ensures { result ≡ status_line tx version gas status.now }
{
    match status {
        Status::Done => Line::Done { tx, version, gas },
        Status::Failed { command, cause } => Line::Failed {
            tx,
            command: *command as u64,
            cause: *cause as u64,
            version,
            gas,
        },
        Status::Aborted { command, code } => Line::Aborted {
            tx,
            command: *command as u64,
            code: *code as u64,
            version,
            gas,
        },
    }
}

/// The line for an executed transaction.
pub(crate) fn effects_line(directory: &Directory, effects: &Effects) -> Result<Line, OutOfMemory>
    ensures { IfOk result (λ line. line ≡ effects_line (world_with directory.now) effects.now) }
{
    let tx = tx_text(directory, &effects.tx)?;
    Ok(status_line(tx, effects.version, effects.gas, &effects.status))
}

/// The line for a transaction that was left: absent, or unfit.
pub(crate) fn left_line(directory: &Directory, left: &Left) -> Result<Line, OutOfMemory>
    ensures { IfOk result (λ line. line ≡ left_line (setting_with directory.now) (world_with directory.now) left.now) }
{
    let tx = tx_text(directory, &left.tx)?;
    match &left.key {
        Some(key) => {
            let key = version_text(directory, key)?;
            Ok(Line::Absent { tx, key })
        }
        None => Ok(Line::Unfit { tx }),
    }
}

/// Adds the names of a checkpoint's transactions.
fn add_items(
    directory: &Directory,
    names: &mut Seq<Seq<u8>>,
    items: &[Item],
) -> Result<(), OutOfMemory>
    ensures { OnOk result (names.new ≡ each_pushed (λ (i : Item). tx_name (world_with directory.now) i.tx) names.old items.now) }
{
    for item in items {
        let name = tx_text(directory, &item.tx)?;
        names.push(name)?;
    }
    Ok(())
}

/// The line for a checkpoint.
#[tactic(auto, using(crate::proofs::Pushed::from_none))]
pub(crate) fn checkpoint_line(
    directory: &Directory,
    checkpoint: &Checkpoint,
) -> Result<Line, OutOfMemory>
    ensures { IfOk result (λ line. line ≡ checkpoint_line (world_with directory.now) checkpoint.now) }
{
    let mut txs = Seq::with_room(directory.allocator(), checkpoint.items.len())?;
    add_items(directory, &mut txs, checkpoint.items.as_slice())?;
    Ok(Line::Checkpoint {
        number: checkpoint.number,
        txs,
        last: checkpoint.last,
    })
}

/// Adds the lines of executed transactions.
fn add_effects(
    directory: &Directory,
    lines: &mut Seq<Line>,
    executed: &[HashedEffects],
) -> Result<(), OutOfMemory>
    ensures { OnOk result (lines.new ≡ each_pushed (effects_line (world_with directory.now)) lines.old executed.now) }
{
    for effects in executed {
        let line = effects_line(directory, effects.effects())?;
        lines.push(line)?;
    }
    Ok(())
}

/// Adds the lines of transactions that were left.
fn add_left(directory: &Directory, lines: &mut Seq<Line>, left: &[Left]) -> Result<(), OutOfMemory>
    ensures { OnOk result (lines.new ≡ each_pushed (left_line (setting_with directory.now) (world_with directory.now)) lines.old left.now) }
{
    for one in left {
        let line = left_line(directory, one)?;
        lines.push(line)?;
    }
    Ok(())
}

/// Adds the lines of checkpoints.
pub(crate) fn add_checkpoints(
    directory: &Directory,
    lines: &mut Seq<Line>,
    built: &[HashedCheckpoint],
) -> Result<(), OutOfMemory>
    ensures { OnOk result (lines.new ≡ each_pushed (checkpoint_line (world_with directory.now)) lines.old built.now) }
{
    for checkpoint in built {
        let line = checkpoint_line(directory, checkpoint.checkpoint())?;
        lines.push(line)?;
    }
    Ok(())
}

/// A list of one line.
pub fn one_line(alloc: Global, line: Line) -> Result<Seq<Line>, OutOfMemory>
    ensures { IfOk result (λ lines. lines ≡ line ∷ []) }
{
    let mut lines = Seq::with_room(alloc, 1)?;
    lines.push(line)?;
    Ok(lines)
}

/// The lines for what a run did: how many it executed, each of these, what it left, and the checkpoints.
#[tactic(auto, using(crate::proofs::Pushed::three_behind))]
fn ran_lines(directory: &Directory, member: u32, ran: &Ran) -> Result<Seq<Line>, OutOfMemory>
    ensures { IfOk result (λ lines. lines ≡ run_answered (setting_with directory.now) (world_with directory.now) member (Ok ran.now)) }
{
    let text = RunText::Executed {
        count: ran.executed.len(),
    };
    let head = Line::Run {
        member: member as u64,
        text,
    };
    let mut lines = one_line(directory.allocator(), head)?;
    add_effects(directory, &mut lines, ran.executed.as_slice())?;
    add_left(directory, &mut lines, ran.left.as_slice())?;
    add_checkpoints(directory, &mut lines, ran.built.as_slice())?;
    Ok(lines)
}

/// The ending of the line for a run that was refused.
fn refusal_line(
    directory: &Directory,
    member: u32,
    refusal: &RunRefusal,
) -> Result<Line, OutOfMemory>
    ensures { IfOk result (λ line. (line ∷ []) ≡ run_answered (setting_with directory.now) (world_with directory.now) member (Err refusal.now)) }
{
    let text = match refusal {
        RunRefusal::Halted { first, second } => RunText::Halted {
            first: tx_text(directory, first)?,
            second: tx_text(directory, second)?,
        },
        RunRefusal::Full => RunText::Full,
        RunRefusal::Down | RunRefusal::KeepFault | RunRefusal::OutOfMemory => RunText::Down,
    };
    Ok(Line::Run {
        member: member as u64,
        text,
    })
}

/// The lines for a member's answer to `run`.
pub fn run_lines(
    directory: &Directory,
    member: u32,
    answer: &Result<Ran, RunRefusal>,
) -> Result<Seq<Line>, OutOfMemory>
    ensures { IfOk result (λ lines. lines ≡ run_answered (setting_with directory.now) (world_with directory.now) member answer.now) }
{
    match answer {
        Ok(ran) => ran_lines(directory, member, ran),
        Err(refusal) => {
            let line = refusal_line(directory, member, refusal)?;
            one_line(directory.allocator(), line)
        }
    }
}
