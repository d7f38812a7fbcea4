//! A member as it starts from its journal.

ghost use Rattle.std.specs.Prelude.{◌≡◌, ◌<◌, ◌≤◌, Err, IfOk, true};
ghost use Rattle.outside.specs.Causes.{Rose};
ghost use Rattle.outside.specs.Lists.{KeepsJournals};
ghost use Rattle.validator_process.specs.declared.reading.Unstarted.TheVariants as unstarted;
ghost use Rattle.validator_process.specs.declared.stop.Stop.TheVariants as stop;
ghost use Rattle.validator_process.specs.Genesis.{ready_line};
ghost use Rattle.validator_process.specs.Starting.{StartsAs};

use crate::reading::Unstarted;
use crate::stop::Stop;
use outside::Keeper;
use process_lines::StartLine;
use quorum_core::Sealer;
use validator_core::Validator;
use world_core::{Replayed, RestartFault, World};

/// Starts the member from the records that the keeper has of it.
#[tactic(auto, using(crate::proofs::Started::replayed_starts, crate::proofs::Started::bad_starts))]
pub(crate) fn open_member<D: Keeper, S: Sealer>(
    world: &World,
    member: u32,
    sealer: &S,
    keeper: &mut D,
) -> Result<Validator, Unstarted>
    requires known { member < D.width keeper.old }
    ensures starts { StartsAs (S.accepts sealer.now) world.now member (D.lists keeper.old) result }
    ensures member { IfOk result (λ v. (v.member ≡ member) × (v.up ≡ true)) }
    ensures lists { KeepsJournals (D.lists keeper.old) (D.lists keeper.new) }
    ensures width { D.width keeper.new ≡ D.width keeper.old }
    ensures later { D.failed keeper.old ≤ D.failed keeper.new }
    ensures fault { result ≡ Err (unstarted.Stopped stop.KeepFault) → Rose (D.failed keeper.old) (D.failed keeper.new) }
{
    match world.replay(keeper, sealer, member) {
        Ok(replayed) => {
            let Replayed {
                validator,
                count: _count,
            } = replayed;
            Ok(validator)
        }
        Err(RestartFault::BadRecord { place }) => {
            Err(Unstarted::Refused(StartLine::BadRecord { place }))
        }
        Err(RestartFault::KeepFault) => Err(Unstarted::Stopped(Stop::KeepFault)),
        Err(RestartFault::OutOfMemory) => Err(Unstarted::Stopped(Stop::OutOfMemory)),
    }
}

/// The line that says where the member starts from. Takes no memory.
pub(crate) fn ready(member: u32, validator: &Validator) -> StartLine
    requires { validator.now.member ≡ member }
    ensures { result ≡ ready_line validator.now }
{
    StartLine::Ready {
        member,
        epoch: validator.epoch(),
        seen: validator.seen(),
        checkpoints: validator.checkpoints(),
        records: validator.records(),
    }
}
