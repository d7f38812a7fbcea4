//! The places of the members' last statements in the list of all statements, found by maps.

ghost use Rattle.std.specs.Prelude.{◌≡◌, [], OnErr, OnOk, nat_eq};
ghost use Rattle.std.specs.Map.{lookup};
ghost use Rattle.indexmap.specs.IndexMap.{insert_entry};
ghost use Rattle.world_lines.specs.Keys.{AreLast, KeepsPlaces, Notes, ack_key, ack_key_eq, vote_key, vote_key_eq};

use chain_messages::Statement;
use digest_core::Digest;
use indexmap::IndexMap;
use std::alloc::Global;
use std::hash::Hash;
use wire_bcs::OutOfMemory;

/// A member, and a transaction of an epoch that it voted for.
#[derive(Clone, Copy, Debug, PartialEq, Eq, Hash)]
pub(crate) struct VoteKey {
    member: u64,
    epoch: u64,
    tx: Digest,
}

/// A member, and a transaction that it acknowledged in an epoch.
#[derive(Clone, Copy, Debug, PartialEq, Eq, Hash)]
pub(crate) struct AckKey {
    member: u32,
    epoch: u64,
    tx: Digest,
}

/// Puts a place under a key; it replaces an older one. A refusal changes nothing.
fn put<K: Hash + Eq + Drop>(
    places: &mut IndexMap<K, usize>,
    key: K,
    place: usize,
) -> Result<(), OutOfMemory>
    ensures ok { OnOk result (places.new.entries ≡ insert_entry K.eq places.old.entries key place) }
    ensures err { OnErr result (places.new.entries ≡ places.old.entries) }
{
    places.insert(key, place)?;
    Ok(())
}

/// Puts the place of a vote under its key. A refusal changes nothing.
fn put_vote(
    places: &mut IndexMap<VoteKey, usize>,
    key: VoteKey,
    place: usize,
) -> Result<(), OutOfMemory>
    ensures ok { OnOk result (places.new.entries ≡ insert_entry vote_key_eq places.old.entries key place) }
    ensures err { OnErr result (places.new.entries ≡ places.old.entries) }
{
    put(places, key, place)
}

/// Puts the place of an acknowledgement under its key. A refusal changes nothing.
fn put_ack(
    places: &mut IndexMap<AckKey, usize>,
    key: AckKey,
    place: usize,
) -> Result<(), OutOfMemory>
    ensures ok { OnOk result (places.new.entries ≡ insert_entry ack_key_eq places.old.entries key place) }
    ensures err { OnErr result (places.new.entries ≡ places.old.entries) }
{
    put(places, key, place)
}

/// The places of the last votes, Ends and acknowledgements in a list of statements.
#[derive(Drop)]
pub(crate) struct LastPlaces {
    votes: IndexMap<VoteKey, usize>,
    ends: IndexMap<u32, usize>,
    acks: IndexMap<AckKey, usize>,
}

impl LastPlaces {
    /// The tables for a list without statements. Takes no memory.
    pub(crate) fn new(alloc: Global) -> LastPlaces
        ensures { AreLast [] result }
    {
        LastPlaces {
            votes: IndexMap::new(alloc),
            ends: IndexMap::new(alloc),
            acks: IndexMap::new(alloc),
        }
    }

    /// Notes the place of a member's statement, which replaces that of an older one; the place of a checkpoint is not
    /// noted. A refusal changes nothing.
    pub(crate) fn note(
        &mut self,
        member: u32,
        statement: &Statement,
        place: usize,
    ) -> Result<(), OutOfMemory>
        ensures ok { OnOk result (Notes self.old member statement.now place self.new) }
        ensures err { OnErr result (KeepsPlaces self.old self.new) }
    {
        match statement {
            Statement::Vote { epoch, tx, .. } => {
                let key = VoteKey {
                    member: member as u64,
                    epoch: *epoch,
                    tx: *tx,
                };
                put_vote(&mut self.votes, key, place)
            }
            Statement::End { .. } => put(&mut self.ends, member, place),
            Statement::Checkpoint { .. } => Ok(()),
            Statement::Ack { epoch, tx, .. } => {
                let key = AckKey {
                    member,
                    epoch: *epoch,
                    tx: *tx,
                };
                put_ack(&mut self.acks, key, place)
            }
        }
    }

    /// The place of the member's last vote for the transaction of the epoch. Takes no memory.
    pub(crate) fn vote(&self, member: u64, epoch: u64, tx: &Digest) -> Option<usize>
        ensures { result ≡ lookup (vote_key_eq (vote_key member epoch tx.now)) self.now.votes.entries }
    {
        let key = VoteKey {
            member,
            epoch,
            tx: *tx,
        };
        self.votes.get(&key).copied()
    }

    /// The place of the member's last End. Takes no memory.
    pub(crate) fn end(&self, member: u32) -> Option<usize>
        ensures { result ≡ lookup (nat_eq member) self.now.ends.entries }
    {
        self.ends.get(&member).copied()
    }

    /// The place of the member's last acknowledgement of the transaction in the epoch. Takes no memory.
    pub(crate) fn ack(&self, member: u32, epoch: u64, tx: &Digest) -> Option<usize>
        ensures { result ≡ lookup (ack_key_eq (ack_key member epoch tx.now)) self.now.acks.entries }
    {
        let key = AckKey {
            member,
            epoch,
            tx: *tx,
        };
        self.acks.get(&key).copied()
    }
}
