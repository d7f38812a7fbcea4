//! The commands of a block, one after the other.

ghost use Rattle.std.specs.Prelude.{◌≡◌, ◌+◌, ◌*◌, ◌<◌, ◌≤◌, ◌∷◌, length, OnOk, false};
ghost use Rattle.std.specs.List.{list_any};
ghost use Rattle.protocol_spec.specs.Block.Commands.{command_step};
ghost use Rattle.protocol_spec.specs.Block.Execution.{commands_from, outcome};
ghost use Rattle.protocol_spec.specs.Chain.Keys.{version_of};
ghost use Rattle.protocol_spec.specs.Chain.Shape.{is_no_native};
ghost use Rattle.ptb_run.specs.Blocks.{block_of, rows_of};
ghost use Rattle.ptb_run.specs.Ends.{Ends};
ghost use Rattle.ptb_run.specs.Outcomes.{Runs, StepsAt, is_wide};

use crate::block::Block;
use crate::commands::Site;
use crate::halt::{Cause, Failed, Fault, Halt};
use crate::opening::first_block;
use crate::step::step;
use chain_types::{Command, Object, Transaction};
use std::alloc::Global;

/// Runs the command of this number; a fault names it.
#[tactic(auto, using(crate::proofs::Drawing::few_arguments))]
fn step_at(
    alloc: Global,
    block: &mut Block,
    tx: &Transaction,
    site: &Site,
    command: &Command,
    number: u16,
) -> Result<(), Failed>
    requires known { is_no_native command.now ≡ false }
    requires few { is_wide command.now ≡ false }
    requires room { (block_of block.old).made < 2147483136 }
    requires rows { rows_of block.old ≡ number }
    ensures steps { StepsAt result number (command_step tx.now site.now.tx site.now.version number (block_of block.old) command.now) (block_of block.new) }
    ensures rows { OnOk result (rows_of block.new ≡ number + 1) }
    ensures made { OnOk result ((block_of block.new).made ≤ (block_of block.old).made + 512) }
{
    match step(alloc, block, tx, site, command) {
        Ok(()) => Ok(()),
        Err(Halt::Fault(fault)) => Err(Failed::At {
            command: number,
            fault,
        }),
        Err(Halt::OutOfMemory) => Err(Failed::OutOfMemory),
    }
}

/// The commands in order, up to the first that fails.
pub(crate) fn run_commands(
    alloc: Global,
    block: &mut Block,
    tx: &Transaction,
    site: &Site,
    commands: &[Command],
) -> Result<(), Failed>
    requires known { list_any is_no_native commands.now ≡ false }
    requires few { list_any is_wide commands.now ≡ false }
    requires short { length commands.now ≤ 1024 }
    requires rows { rows_of block.old ≡ 0 }
    requires made { (block_of block.old).made ≡ 0 }
    ensures runs { Runs result (commands_from tx.now site.now.tx site.now.version 0 commands.now (block_of block.old)) (block_of block.new) }
    ensures made { OnOk result ((block_of block.new).made ≤ 524288) }
{
    let mut number = 0;
    let mut rest = commands;
    while let [command, after @ ..] = rest {
        step_at(alloc, block, tx, site, command, number)?;
        number += 1;
        rest = after;
    }
    Ok(())
}

/// The block after its commands, or why it failed.
#[tactic(auto, unfolding(protocol_spec::specs::Block::Execution::outcome))]
pub(crate) fn outcome(
    alloc: Global,
    tx: &Transaction,
    site: &Site,
    gas: &Object,
    others: &[Object],
) -> Result<Block, Failed>
    requires known { list_any is_no_native tx.now.commands ≡ false }
    requires few { list_any is_wide tx.now.commands ≡ false }
    requires short { length tx.now.commands ≤ 1024 }
    requires version { site.now.version ≡ version_of (gas.now ∷ others.now) }
    ensures { Ends result (outcome tx.now site.now.tx (gas.now ∷ others.now)) }
{
    let mut block = first_block(alloc, tx, &site.tx, gas, others)?;
    run_commands(alloc, &mut block, tx, site, tx.commands.as_slice())?;
    if block.any_unused() {
        return Err(Failed::At {
            command: tx.commands.len() as u16,
            fault: Fault::Cause(Cause::Unused),
        });
    }
    Ok(block)
}
