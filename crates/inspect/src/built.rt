//! What a member has built, copied out of it.

ghost use Rattle.std.specs.Prelude.{◌≡◌, ◌<◌, IfOk, Some, length, slice_get};
ghost use Rattle.checkpoint_core.specs.Checkpoints.{checkpoint as codec};
ghost use Rattle.light_check.specs.Chains as codecs;
ghost use Rattle.protocol_spec.specs.Member.Member.{built};

use checkpoint_core::Checkpoint;
use std::alloc::Global;
use validator_core::Validator;
use wire_bcs::{Duplicate, OutOfMemory, Seq};

/// Lists of this many items or more have no encoding.
const TOO_LONG: u64 = 2_147_483_648;

/// A copy of a checkpoint that can be encoded. One of more than 2147483647 items counts as running out of memory.
fn copy_short(checkpoint: &Checkpoint) -> Result<Checkpoint, OutOfMemory>
    ensures value { IfOk result (λ c. c ≡ checkpoint.now) }
    ensures short { IfOk result codec.short }
{
    if !checkpoint.is_short() {
        return Err(OutOfMemory);
    }
    checkpoint.copy()
}

/// A copy of the checkpoint of this number.
#[tactic(auto, using(crate::proofs::Copies::something_there))]
fn copy_at(validator: &Validator, number: u64) -> Result<Checkpoint, OutOfMemory>
    requires { number < length (built validator.now.state) }
    ensures value { IfOk result (λ c. slice_get (built validator.now.state) number ≡ Some c) }
    ensures short { IfOk result codec.short }
{
    match validator.checkpoint(number) {
        Some(checkpoint) => copy_short(checkpoint),
        None => unreachable!(),
    }
}

/// The checkpoints that the member has built, over all its epochs. More than 2147483647 of them, or a checkpoint with
/// more items, counts as running out of memory.
pub(crate) fn built_by(alloc: Global, validator: &Validator) -> Result<Seq<Checkpoint>, OutOfMemory>
    ensures value { IfOk result (λ cs. cs ≡ built validator.now.state) }
    ensures short { IfOk result codecs.checkpoints.short }
{
    let count = validator.checkpoints();
    if count >= TOO_LONG {
        return Err(OutOfMemory);
    }
    let mut checkpoints = Seq::new(alloc);
    for number in 0..count {
        checkpoints.push(copy_at(validator, number)?)?;
    }
    Ok(checkpoints)
}
