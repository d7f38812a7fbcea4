//! A member as it starts from records that were kept before.

ghost use Rattle.std.specs.Prelude.{◌≡◌, ◌<◌, ◌≤◌, ℕ, IfOk, IsErrOf};
ghost use Rattle.outside.specs.Causes.{Rose};
ghost use Rattle.outside.specs.Lists.{KeepsJournals};
ghost use Rattle.world_spec.specs.Scene.{rules_in};
ghost use Rattle.world_core.specs.Replays.{IsReplayed};
ghost use Rattle.world_core.specs.SeatRestarts.{HasBadRecord};
ghost use Rattle.world_core.specs.declared.reply.RestartFault.TheVariants as fault;

use crate::RestartFault;
use crate::starts::records_of;
use crate::world::World;
use outside::{Keeper, OutFault};
use quorum_core::Sealer;
use validator_core::{StartRefusal, Validator};

/// A member, and from how many records it started.
#[derive(Drop)]
pub struct Replayed {
    pub validator: Validator,
    pub count: u64,
}

impl World {
    /// Starts a member of this committee from the records that a keeper has of it, in an epoch 0 that opens with the
    /// set-up's objects. The world and the keeper's lists stay as they are. `BadRecord` comes exactly at the first
    /// record that does not decode, or that no call would have appended; `KeepFault` only if the keeper's count of
    /// faults rose.
    pub fn replay<D: Keeper, S: Sealer>(
        &self,
        keeper: &mut D,
        sealer: &S,
        member: u32,
    ) -> Result<Replayed, RestartFault>
        requires known { member < D.width keeper.old }
        ensures ok { IfOk result (IsReplayed (rules_in (S.accepts sealer.now) self.now) self.now.opening (D.lists keeper.old) self.now.terms member) }
        ensures bad { (place : ℕ) → IsErrOf result (fault.BadRecord place) → HasBadRecord (rules_in (S.accepts sealer.now) self.now) self.now.opening (D.lists keeper.old) member place }
        ensures lists { KeepsJournals (D.lists keeper.old) (D.lists keeper.new) }
        ensures width { D.width keeper.new ≡ D.width keeper.old }
        ensures later { D.failed keeper.old ≤ D.failed keeper.new }
        ensures fault { IsErrOf result fault.KeepFault → Rose (D.failed keeper.old) (D.failed keeper.new) }
    {
        let kept = match records_of(self.alloc, keeper, member) {
            Ok(kept) => kept,
            Err(OutFault::Failed) => return Err(RestartFault::KeepFault),
            Err(OutFault::OutOfMemory) => return Err(RestartFault::OutOfMemory),
        };
        match self
            .seats
            .start_one(self.alloc, member, &self.opening, &kept, sealer)
        {
            Ok(validator) => Ok(Replayed {
                validator,
                count: kept.len(),
            }),
            Err(StartRefusal::BadRecord { place, why: _ }) => Err(RestartFault::BadRecord {
                place,
            }),
            Err(StartRefusal::OutOfMemory) => Err(RestartFault::OutOfMemory),
        }
    }
}
