//! The end of a member's epoch, and the beginning of the next one.

ghost use Rattle.std.specs.Prelude.{◌≡◌, ◌+◌, [], IfOk, IfSome, OnOk};
ghost use Rattle.validator_core.specs.Courses.{IsSound, begun, coursed, reverted_in, turned_in};

use crate::epoch_state::EpochState;
use digest_core::Digest;
use epoch_turn::{CheckpointBuilder, EndCount, renew, revert_uncut};
use exec_plan::DependencyIndex;
use std::alloc::Global;
use std::mem::replace;
use version_assign::Admission;
use version_store::Store;
use vote_rules::CertificateStore;
use wire_bcs::{OutOfMemory, Seq};

/// The next epoch; none exactly after the last of its type.
fn next_of(epoch: u64) -> Option<u64>
    ensures { IfSome result (λ next. next ≡ epoch + 1) }
{
    if epoch == u64::MAX {
        return None;
    }
    Some(epoch + 1)
}

impl EpochState {
    /// Epoch 0 of a member that has nothing and opened with nothing, under this limit of writers. Takes no memory.
    pub(crate) fn empty(alloc: Global, writers: Option<u32>) -> EpochState
        ensures sound { IsSound result }
        ensures value { coursed result ≡ begun [] writers }
        ensures limit { result.admission.writers ≡ writers }
        ensures seen { result.seen ≡ 0 }
    {
        EpochState {
            epoch: 0,
            store: Store::empty(alloc),
            held: CertificateStore::new(alloc),
            waiting: DependencyIndex::new(alloc),
            admission: Admission::empty(alloc, writers),
            chain: CheckpointBuilder::new(alloc),
            seen: 0,
            ends: EndCount::new(),
            ended: false,
            alloc,
        }
    }

    /// Replaces the course by an empty one, after memory was refused as the epoch changed; the member is down then.
    /// Takes no memory.
    pub(crate) fn abandon(&mut self)
        ensures sound { IsSound self.new }
        ensures limit { self.new.admission.writers ≡ self.old.admission.writers }
        ensures seen { self.new.seen ≡ 0 }
    {
        let empty = EpochState::empty(self.alloc, self.admission.writers());
        drop(replace(self, empty));
    }

    /// Goes to the next epoch (epoch change of Sui Lutris): undoes what was executed and stands in no cut, opens with the
    /// live objects, and forgets all else but the checkpoints. Answers the undone transactions, oldest first. An epoch
    /// past its type counts as running out of memory; then the course is not to be used. Time grows with what the epoch executed,
    /// wrote and deleted, and not with what is held.
    pub(crate) fn turn(&mut self) -> Result<Seq<Digest>, OutOfMemory>
        requires { IsSound self.old }
        ensures sound { OnOk result (IsSound self.new) }
        ensures value { OnOk result (coursed self.new ≡ turned_in (coursed self.old)) }
        ensures reverted { IfOk result (λ txs. txs ≡ reverted_in (coursed self.old)) }
        ensures limit { self.new.admission.writers ≡ self.old.admission.writers }
        ensures seen { OnOk result (self.new.seen ≡ 0) }
    {
        let Some(next) = next_of(self.epoch) else {
            return Err(OutOfMemory);
        };
        let reverted = revert_uncut(&self.chain, &mut self.store)?;
        renew(self.alloc, &self.store, &mut self.admission)?;
        self.store.turn()?;
        self.chain.turn();
        drop(replace(&mut self.held, CertificateStore::new(self.alloc)));
        drop(replace(&mut self.waiting, DependencyIndex::new(self.alloc)));
        self.seen = 0;
        self.ends = EndCount::new();
        self.ended = false;
        self.epoch = next;
        Ok(reverted)
    }
}
