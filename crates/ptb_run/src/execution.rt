//! The execution of a transaction: its effects, and the objects that it writes.

ghost use Rattle.std.specs.Prelude.{◌≡◌, ◌≤◌, ◌∷◌, None, Ok, Err, IfOk, length, nat_lt, true, false};
ghost use Rattle.std.specs.List.{list_any};
ghost use Rattle.protocol_spec.specs.Block.Execution.{executed_as, executed_by, execution, failed_status, outcome};
ghost use Rattle.protocol_spec.specs.Chain.Keys.{fits, version_limit, version_of};
ghost use Rattle.protocol_spec.specs.Chain.Shape.{is_empty_list, is_no_native, shape_fault};
ghost use Rattle.chain_types.specs.Digests.{transaction_digest};
ghost use Rattle.ptb_run.specs.Blocks.{block_of};
ghost use Rattle.ptb_run.specs.Outcomes.{fault_of, is_wide};

use crate::block::Block;
use crate::commands::Site;
use crate::fitting::greatest_version;
use crate::halt::{Failed, Fault};
use crate::left::firsts_of;
use crate::remains::{cost, done_objects, drop_each, failed_objects, list_all};
use crate::run::outcome;
use crate::written::written_places;
use chain_types::{Object, ObjectId, Transaction};
use digest_core::Digest;
use effects_core::{Effects, Status};
use protocol_spec::Executed;
use std::alloc::Global;
use wire_bcs::{OutOfMemory, Seq};

/// The status of a block that fails at the command of this number.
fn failed_status(command: u16, fault: Fault) -> Status
    ensures { result ≡ failed_status (command, fault_of fault) }
{
    match fault {
        Fault::Cause(cause) => Status::Failed {
            command,
            cause: cause.number(),
        },
        Fault::Abort(code) => Status::Aborted { command, code },
    }
}

/// The effects with this status and these lists, and the objects that they list.
fn executed_as(
    alloc: Global,
    tx: &Transaction,
    site: &Site,
    status: Status,
    made: u32,
    objects: Seq<Object>,
    deleted: Seq<ObjectId>,
) -> Result<Executed, OutOfMemory>
    requires { length tx.now.commands ≤ 1024 }
    ensures { IfOk result (λ executed. executed ≡ executed_as tx.now site.now.tx site.now.version status made objects deleted) }
{
    let written = list_all(alloc, objects.as_slice())?;
    Ok(Executed {
        effects: Effects {
            tx: site.tx,
            status,
            version: site.version,
            gas: cost(tx),
            created: made,
            written,
            deleted,
        },
        objects,
    })
}

/// Effects and objects of a transaction whose block succeeded.
fn executed_done(
    alloc: Global,
    tx: &Transaction,
    site: &Site,
    gas: &Object,
    others: &[Object],
    block: &Block,
) -> Result<Executed, OutOfMemory>
    requires commands { length tx.now.commands ≤ 1024 }
    requires inputs { length tx.now.inputs ≤ 256 }
    requires version { site.now.version ≡ version_of (gas.now ∷ others.now) }
    ensures { IfOk result (λ executed. executed ≡ executed_by tx.now site.now.tx (gas.now ∷ others.now) (Ok (block_of block.now))) }
{
    let moved = written_places(alloc, tx, gas, others)?;
    let left = firsts_of(alloc, block.placed.as_slice())?;
    let objects = done_objects(alloc, tx, site, &left, block, moved.as_slice())?;
    let deleted = drop_each(alloc, site.version, &left, block, moved.as_slice())?;
    executed_as(
        alloc,
        tx,
        site,
        Status::Done,
        block.made(),
        objects,
        deleted,
    )
}

/// Effects and objects of a transaction whose block failed.
fn executed_failed(
    alloc: Global,
    tx: &Transaction,
    site: &Site,
    gas: &Object,
    others: &[Object],
    command: u16,
    fault: Fault,
) -> Result<Executed, OutOfMemory>
    requires commands { length tx.now.commands ≤ 1024 }
    requires inputs { length tx.now.inputs ≤ 256 }
    requires version { site.now.version ≡ version_of (gas.now ∷ others.now) }
    ensures { IfOk result (λ executed. executed ≡ executed_by tx.now site.now.tx (gas.now ∷ others.now) (Err (command, fault_of fault))) }
{
    let moved = written_places(alloc, tx, gas, others)?;
    let objects = failed_objects(alloc, tx, site.version, moved.as_slice())?;
    let status = failed_status(command, fault);
    executed_as(alloc, tx, site, status, 0, objects, Seq::new(alloc))
}

/// Runs the block, and gives the effects and objects of its success or failure.
fn run_block(
    alloc: Global,
    tx: &Transaction,
    site: &Site,
    gas: &Object,
    others: &[Object],
) -> Result<Executed, OutOfMemory>
    requires known { list_any is_no_native tx.now.commands ≡ false }
    requires few { list_any is_wide tx.now.commands ≡ false }
    requires commands { length tx.now.commands ≤ 1024 }
    requires inputs { length tx.now.inputs ≤ 256 }
    requires version { site.now.version ≡ version_of (gas.now ∷ others.now) }
    ensures { IfOk result (λ executed. executed ≡ executed_by tx.now site.now.tx (gas.now ∷ others.now) (outcome tx.now site.now.tx (gas.now ∷ others.now))) }
{
    match outcome(alloc, tx, site, gas, others) {
        Ok(block) => executed_done(alloc, tx, site, gas, others, &block),
        Err(Failed::At { command, fault }) => {
            executed_failed(alloc, tx, site, gas, others, command, fault)
        }
        Err(Failed::OutOfMemory) => Err(OutOfMemory),
    }
}

/// Executes a transaction on these objects, of which the first is the gas coin.
fn run_objects(
    alloc: Global,
    tx: &Transaction,
    site: &Site,
    objects: &[Object],
) -> Result<Executed, OutOfMemory>
    requires known { list_any is_no_native tx.now.commands ≡ false }
    requires few { list_any is_wide tx.now.commands ≡ false }
    requires commands { length tx.now.commands ≤ 1024 }
    requires inputs { length tx.now.inputs ≤ 256 }
    requires version { site.now.version ≡ version_of objects.now }
    requires some { is_empty_list objects.now ≡ false }
    ensures { IfOk result (λ executed. executed ≡ executed_by tx.now site.now.tx objects.now (outcome tx.now site.now.tx objects.now)) }
{
    match objects {
        [gas, others @ ..] => run_block(alloc, tx, site, gas, others),
        [] => unreachable!(),
    }
}

/// The digest of a transaction and the version at which it writes on these objects.
#[tactic(auto, using(crate::proofs::Executing::version_low, crate::proofs::Executing::version_is))]
fn site_of(digest: &Digest, objects: &[Object]) -> Site
    requires { nat_lt (version_of objects.now) version_limit ≡ true }
    ensures tx { result.tx ≡ digest.now }
    ensures version { result.version ≡ version_of objects.now }
{
    Site {
        tx: *digest,
        version: greatest_version(objects) + 1,
    }
}

/// Executes a transaction on objects that fit it.
#[tactic(auto, unfolding(protocol_spec::specs::Block::Execution::execution), using(crate::proofs::Executing::few_commands, protocol_spec::proofs::Checked::few_inputs, crate::proofs::Executing::known_natives, crate::proofs::Executing::none_wide, crate::proofs::Executing::fits_low, crate::proofs::Executing::fits_some))]
fn execute_fitting(
    alloc: Global,
    tx: &Transaction,
    digest: &Digest,
    objects: &[Object],
) -> Result<Executed, OutOfMemory>
    requires shape { shape_fault tx.now ≡ None }
    requires fit { fits tx.now objects.now ≡ true }
    requires digest { digest.now ≡ transaction_digest tx.now }
    ensures { IfOk result (λ executed. executed ≡ execution tx.now objects.now) }
{
    let site = site_of(digest, objects);
    run_objects(alloc, tx, &site, objects)
}

/// The effects of a transaction of valid shape on the objects that fit it, and the objects that it
/// writes; `digest` is the transaction's (Sui documentation, programmable transaction blocks). What
/// fails in the block is said by the status, and the only error is that memory is refused.
pub fn execute(
    alloc: Global,
    tx: &Transaction,
    digest: &Digest,
    inputs: &Seq<Object>,
) -> Result<Executed, OutOfMemory>
    requires shape { shape_fault tx.now ≡ None }
    requires fit { fits tx.now inputs.now ≡ true }
    requires digest { digest.now ≡ transaction_digest tx.now }
    ensures { IfOk result (λ executed. executed ≡ execution tx.now inputs.now) }
{
    execute_fitting(alloc, tx, digest, inputs.as_slice())
}
