//! What a member has built and holds, in numbers.

ghost use Rattle.std.specs.Prelude.{◌≡◌, IfOk, slice_get};
ghost use Rattle.world_core.specs.Sums as sums;

use crate::world::World;
use effects_core::currency_sum;
use validator_core::Validator;
use wire_bcs::OutOfMemory;

/// The currency of gas.
const GAS_CURRENCY: u64 = 0;

/// What a member has built and holds.
#[derive(Clone, Copy, Debug, PartialEq, Eq)]
pub struct Sums {
    /// How many transactions stand in the checkpoints that it has built, over all its epochs.
    pub transactions: u64,
    /// How many checkpoints it has built.
    pub checkpoints: u64,
    /// How many live objects it holds.
    pub objects: u64,
    /// What the live objects hold of currency 0, the currency of gas.
    pub sum: u128,
}

/// The sums of a member.
fn sums_of(validator: &Validator) -> Result<Sums, OutOfMemory>
    ensures { IfOk result (λ told. told ≡ sums.sums_of validator.now.state) }
{
    let objects = validator.live_list()?;
    Ok(Sums {
        transactions: validator.checkpointed(),
        checkpoints: validator.checkpoints(),
        objects: objects.len(),
        sum: currency_sum(&objects, GAS_CURRENCY),
    })
}

impl World {
    /// The sums of a member; none exactly if it is faulty, down or not there. The only error is running out of memory.
    pub fn sums(&self, member: u32) -> Result<Option<Sums>, OutOfMemory>
        ensures { IfOk result (λ told. told ≡ sums.sums_at (slice_get self.now.posts member)) }
    {
        match self.seats.honest(member) {
            Some(validator) => Ok(Some(sums_of(validator)?)),
            None => Ok(None),
        }
    }
}
