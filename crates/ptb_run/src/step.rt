//! One command of a block.

ghost use Rattle.std.specs.Prelude.{◌≡◌, ◌+◌, ◌<◌, ◌≤◌, [], length, map, OnOk, true, false};
ghost use Rattle.std.specs.List.{list_all};
ghost use Rattle.protocol_spec.specs.Block.Commands as commands;
ghost use Rattle.protocol_spec.specs.Block.Commands.{command_step, needs_of, performed, wrong_count};
ghost use Rattle.protocol_spec.specs.Chain.Shape.{arguments_of, is_no_native};
ghost use Rattle.ptb_run.specs.Blocks.{block_of, rows_of};
ghost use Rattle.ptb_run.specs.Needs.{wanted_of};
ghost use Rattle.ptb_run.specs.Outcomes.{Steps};
ghost use Rattle.ptb_run.specs.Takes.{is_taken};

use crate::block::Block;
use crate::calls::call_native;
use crate::causes::arguments_cause;
use crate::commands::{Site, make_vector, merge, split, transfer};
use crate::halt::{Cause, Fault, Halt};
use crate::needs::{Wanted, needs_of};
use chain_types::{Command, Transaction};
use native_calls::parameter_count;
use std::alloc::Global;

/// Whether a call has more or fewer arguments than its native has parameters.
fn wrong_count(command: &Command) -> bool
    requires { is_no_native command.now ≡ false }
    ensures { result ≡ wrong_count command.now }
{
    match command {
        Command::Call { native, args } => args.len() != parameter_count(*native),
        Command::Transfer { .. }
        | Command::Split { .. }
        | Command::Merge { .. }
        | Command::MakeVec { .. } => false,
    }
}

/// What a command does whose arguments may be taken.
fn perform(
    alloc: Global,
    block: &mut Block,
    tx: &Transaction,
    site: &Site,
    command: &Command,
    wanted: &[Wanted],
) -> Result<(), Halt>
    requires known { is_no_native command.now ≡ false }
    requires few { length (arguments_of command.now) ≤ 512 }
    requires room { (block_of block.old).made < 2147483136 }
    requires counted { wrong_count command.now ≡ false }
    requires wanted { map wanted_of wanted.now ≡ needs_of command.now }
    requires taken { list_all (is_taken (block_of block.old)) (needs_of command.now) ≡ true }
    ensures steps { Steps result (performed tx.now site.now.tx site.now.version (rows_of block.old) (block_of block.old) command.now) (block_of block.new) }
    ensures rows { OnOk result (rows_of block.new ≡ rows_of block.old + 1) }
{
    match command {
        Command::Call { native, args: _ } => call_native(alloc, block, site, *native, wanted),
        Command::Transfer { values, to } => {
            transfer(alloc, block, values.as_slice(), to)?;
            Ok(())
        }
        Command::Split { coin, amounts } => split(alloc, block, site, coin, amounts.as_slice()),
        Command::Merge { target, sources } => {
            merge(alloc, block, tx, target, sources.as_slice())
        }
        Command::MakeVec { kind, values } => {
            make_vector(alloc, block, *kind, values.as_slice())?;
            Ok(())
        }
    }
}

/// One command: the first cause of its arguments, its own causes, or what it does.
#[tactic(auto, using(crate::proofs::Stepping::miscounted, crate::proofs::Stepping::caused, crate::proofs::Stepping::free_step, crate::proofs::Stepping::all_taken, crate::proofs::Stepping::said_some, crate::proofs::Stepping::said_none))]
pub(crate) fn step(
    alloc: Global,
    block: &mut Block,
    tx: &Transaction,
    site: &Site,
    command: &Command,
) -> Result<(), Halt>
    requires known { is_no_native command.now ≡ false }
    requires few { length (arguments_of command.now) ≤ 512 }
    requires room { (block_of block.old).made < 2147483136 }
    ensures steps { Steps result (command_step tx.now site.now.tx site.now.version (rows_of block.old) (block_of block.old) command.now) (block_of block.new) }
    ensures rows { OnOk result (rows_of block.new ≡ rows_of block.old + 1) }
{
    if wrong_count(command) {
        return Err(Halt::Fault(Fault::Cause(Cause::WrongCount)));
    }
    let wanted = needs_of(alloc, command)?;
    if let Some(cause) = arguments_cause(alloc, block, tx, command, wanted.as_slice())? {
        return Err(Halt::Fault(Fault::Cause(cause)));
    }
    perform(alloc, block, tx, site, command, wanted.as_slice())
}
