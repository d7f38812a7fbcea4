//! The votes of a member in an epoch, with the locks that they make.

ghost use Rattle.std.specs.Prelude.{◌≡◌, ◌++◌, ◌∷◌, [], None, OnErr, OnOk, false, find, is_some, option_map};
ghost use Rattle.chain_types.specs.Equal.{digest_eq};
ghost use Rattle.protocol_spec.specs.Chain.Words.{first_of};
ghost use Rattle.lock_table.specs.Locks.{other_lock, with_locks};
ghost use Rattle.protocol_spec.specs.Member.Votes.{Cast, locked, vote_origins, vote_refusal};
ghost use Rattle.vote_rules.specs.Decide.{Decides};
ghost use Rattle.vote_rules.specs.Casts.{ballot_with, voted_as};

use chain_types::{DecideRefusal, ObjectKey, Transaction};
use digest_core::Digest;
use indexmap::IndexMap;
use lock_table::{LockRefusal, LockTable};
use std::alloc::Global;
use std::marker::Model;
use tables::insert_in_room;
use version_store::Store;
use wire_bcs::{OutOfMemory, Seq};

/// A vote that was given: the versions that its transaction consumes, and the origins that it named.
#[derive(Drop)]
struct Given {
    consumed: Seq<ObjectKey>,
    origins: Seq<Option<Digest>>,
}

/// Locks keys that no other transaction holds. A refusal changes nothing.
fn lock_free(locks: &mut LockTable, keys: &Seq<ObjectKey>, tx: &Digest) -> Result<(), OutOfMemory>
    requires { other_lock locks.old tx.now keys.now ≡ None }
    ensures ok { OnOk result (locks.new ≡ with_locks locks.old keys.now tx.now) }
    ensures err { OnErr result (locks.new ≡ locks.old) }
{
    match locks.lock_all(keys, tx) {
        Ok(()) => Ok(()),
        Err(LockRefusal::OutOfMemory) => Err(OutOfMemory),
        Err(LockRefusal::Locked { .. }) => unreachable!(),
    }
}

/// The votes of a member in one epoch. Contracts see them in the order of voting.
#[derive(Drop)]
pub struct VoteStore {
    given: IndexMap<Digest, Given>,
    locks: LockTable,
}

impl Model for VoteStore {
    ghost use Rattle.std.specs.Prelude.{List};
    ghost use Rattle.protocol_spec.specs.Member.Votes.{Cast};
    ghost use Rattle.vote_rules.specs.Decide.{StandFor};
    ghost use Rattle.vote_rules.specs.Casts.{casts};

    ghost Value = { List Cast };

    ghost view = { λ b. casts b.given.entries };

    ghost invariant = { λ b. StandFor b.locks (casts b.given.entries) };
}

impl VoteStore {
    /// No votes. Takes no memory.
    pub fn new(alloc: Global) -> VoteStore
        ensures { result ≡ [] }
    {
        VoteStore {
            given: IndexMap::new(alloc),
            locks: LockTable::new(alloc),
        }
    }

    /// The origins that the vote for this transaction names; none exactly if there was no vote for it. Takes no
    /// memory.
    pub fn origins(&self, tx: &Digest) -> Option<&Seq<Option<Digest>>>
        ensures { option_map (λ (o : _). o.now) result ≡ option_map (λ (v : Cast). v.origins) (find (λ (v : Cast). digest_eq v.digest tx.now) self.now) }
    {
        match self.given.get(tx) {
            Some(given) => Some(&given.origins),
            None => None,
        }
    }

    /// The origins that a vote for the transaction of this digest names, or the first case in which there is no vote,
    /// `Locked` if an earlier vote for another transaction consumes one of its versions (Sui Lutris).
    pub fn decide(
        &self,
        alloc: Global,
        store: &Store,
        tx: &Transaction,
        digest: &Digest,
    ) -> Result<Seq<Option<Digest>>, DecideRefusal>
        ensures { Decides (vote_refusal (ballot_with store.now self.now) tx.now digest.now) (vote_origins (ballot_with store.now self.now) tx.now) result }
    {
        crate::decide(alloc, store, &self.locks, tx, digest)
    }

    /// Adds a vote for a transaction that was not voted for, and that consumes no version which a vote for another
    /// transaction consumes. A refusal changes nothing.
    pub fn cast(
        &mut self,
        digest: Digest,
        consumed: Seq<ObjectKey>,
        origins: Seq<Option<Digest>>,
    ) -> Result<(), OutOfMemory>
        requires new { is_some (find (λ (v : Cast). digest_eq v.digest digest) self.old) ≡ false }
        requires free { first_of (locked self.old digest) consumed ≡ None }
        ensures ok { OnOk result (self.new ≡ self.old ++ voted_as digest consumed origins ∷ []) }
        ensures err { OnErr result (self.new ≡ self.old) }
    {
        self.given.reserve(1)?;
        lock_free(&mut self.locks, &consumed, &digest)?;
        insert_in_room(&mut self.given, digest, Given { consumed, origins });
        Ok(())
    }
}
