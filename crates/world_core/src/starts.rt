//! How members start: fresh at the set-up, or from the records of a keeper.

ghost use Rattle.std.specs.Prelude.{◌≡◌, ◌<◌, ◌≤◌, [], IfOk, IsErrOf, true};
ghost use Rattle.outside.specs.Causes.{Rose};
ghost use Rattle.outside.specs.Lists.{KeepsJournals};
ghost use Rattle.outside.specs.declared.faults.OutFault.TheVariants as out;
ghost use Rattle.protocol_spec.specs.Member.Member.{fresh};
ghost use Rattle.world_spec.specs.Starts.{AreApart};
ghost use Rattle.world_spec.specs.Posts.{seat_at};
ghost use Rattle.world_core.specs.SeatRestarts.{IsJournal};

use crate::terms::Terms;
use chain_types::Object;
use outside::{Keeper, OutFault};
use quorum_core::Sealer;
use std::alloc::Global;
use validator_core::{StartRefusal, Validator};
use wire_bcs::{OutOfMemory, Seq};

/// A member of this number in a fresh epoch 0 that opens with these objects, without records.
#[tactic(auto, unfolding(world_spec::specs::Starts::started))]
pub(crate) fn start_new<S: Sealer>(
    alloc: Global,
    member: u32,
    terms: &Terms,
    opening: &Seq<Object>,
    sealer: &S,
) -> Result<Validator, OutOfMemory>
    requires { AreApart opening.now }
    ensures { IfOk result (λ seat. seat ≡ seat_at terms.now member (fresh opening.now)) }
{
    let none = Seq::new(alloc);
    match terms.start(alloc, member, opening, &none, sealer) {
        Ok(validator) => Ok(validator),
        Err(StartRefusal::BadRecord { .. }) => unreachable!(),
        Err(StartRefusal::OutOfMemory) => Err(OutOfMemory),
    }
}

/// The records of a member, oldest first.
#[tactic(auto, using(crate::proofs::Reading::none_read, crate::proofs::Reading::one_read, crate::proofs::Reading::same_then, crate::proofs::Reading::all_read))]
pub(crate) fn records_of<D: Keeper>(
    alloc: Global,
    keeper: &mut D,
    member: u32,
) -> Result<Seq<Seq<u8>>, OutFault>
    requires known { member < D.width keeper.old }
    ensures told { IfOk result (IsJournal (D.lists keeper.old) member) }
    ensures lists { KeepsJournals (D.lists keeper.old) (D.lists keeper.new) }
    ensures width { D.width keeper.new ≡ D.width keeper.old }
    ensures later { D.failed keeper.old ≤ D.failed keeper.new }
    ensures fault { IsErrOf result out.Failed → Rose (D.failed keeper.old) (D.failed keeper.new) }
{
    let mut kept = Seq::new(alloc);
    let count = keeper.count(member);
    for place in 0..count {
        let record = keeper.read(member, place)?;
        kept.push(record)?;
    }
    Ok(kept)
}
