//! What the history keeps of a call, and the room for it.

ghost use Rattle.std.specs.Prelude.{◌≡◌, ◌≤◌, [], IfOk, MatchResult, length, vec_capacity};
ghost use Rattle.validator_core.specs.Calls.{origins_in};

use chain_messages::{Sealed, Statement};
use digest_core::Digest;
use protocol_spec::{VoteRefusal, Voted};
use std::alloc::Global;
use wire_bcs::{OutOfMemory, Seq};

/// How many origins a vote names at most: those of 256 inputs and of the gas coin.
const MOST_ORIGINS: usize = 257;

/// A call of a vote desk: the bytes that were handed to the member, what it replied, and the keeper's count of faults
/// after the call.
#[derive(Debug, Drop)]
pub struct DeskEntry {
    pub bytes: Seq<u8>,
    pub reply: Result<Voted, VoteRefusal>,
    pub faults: u64,
}

/// Bytes to be voted for, with the room for the entry of the call.
#[derive(Drop)]
pub struct Asked {
    pub(crate) bytes: Seq<u8>,
    room: Vec<Option<Digest>>,
    ghost empty: { room.items ≡ [] },
    ghost wide: { 257 ≤ vec_capacity room },
}

impl Asked {
    // Takes the room for an entry: a copy of the bytes, and 257 origins.
    pub(crate) fn of(alloc: Global, bytes: &[u8]) -> Result<Asked, OutOfMemory>
        ensures { IfOk result (λ asked. asked.bytes ≡ bytes.now) }
    {
        Ok(Asked {
            bytes: Seq::from_slice(alloc, bytes)?,
            room: Vec::with_capacity(alloc, MOST_ORIGINS)?,
        })
    }

    // The entry of this reply. Takes no memory but that of the room.
    pub(crate) fn entry(self, reply: &Result<Voted, VoteRefusal>, faults: u64) -> DeskEntry
        requires { IfOk reply.now (λ v. length (origins_in v.sealed.statement) ≤ 257) }
        ensures { result ≡ record { bytes = self.bytes; reply = reply.now; faults = faults } }
    {
        let Asked { bytes, room } = self;
        DeskEntry {
            bytes,
            reply: reply_in(room, reply),
            faults,
        }
    }
}

// A copy of the origins in this room, which takes no memory.
fn origins_of(mut room: Vec<Option<Digest>>, origins: &[Option<Digest>]) -> Seq<Option<Digest>>
    requires empty { room.items ≡ [] }
    requires wide { 257 ≤ vec_capacity room }
    requires few { length origins.now ≤ 257 }
    ensures { result ≡ origins.now }
{
    match room.extend_from_slice(origins) {
        Ok(()) => Seq::from_vec(room),
        Err(_refused) => unreachable!(),
    }
}

// A copy of the statement, whose origins are put into this room; takes no memory.
fn statement_in(room: Vec<Option<Digest>>, statement: &Statement) -> Statement
    requires empty { room.items ≡ [] }
    requires wide { 257 ≤ vec_capacity room }
    requires few { length (origins_in statement.now) ≤ 257 }
    ensures { result ≡ statement.now }
{
    match statement {
        Statement::Vote { epoch, tx, origins } => Statement::Vote {
            epoch: *epoch,
            tx: *tx,
            origins: origins_of(room, origins.as_slice()),
        },
        Statement::End { epoch } => Statement::End { epoch: *epoch },
        Statement::Checkpoint {
            epoch,
            number,
            digest,
        } => Statement::Checkpoint {
            epoch: *epoch,
            number: *number,
            digest: *digest,
        },
        Statement::Ack { epoch, tx, effects } => Statement::Ack {
            epoch: *epoch,
            tx: *tx,
            effects: *effects,
        },
    }
}

// A copy of the reply, whose origins are put into this room; takes no memory.
fn reply_in(
    room: Vec<Option<Digest>>,
    reply: &Result<Voted, VoteRefusal>,
) -> Result<Voted, VoteRefusal>
    requires empty { room.items ≡ [] }
    requires wide { 257 ≤ vec_capacity room }
    requires few { IfOk reply.now (λ v. length (origins_in v.sealed.statement) ≤ 257) }
    ensures { result ≡ reply.now }
{
    match reply {
        Ok(voted) => Ok(Voted {
            sealed: Sealed {
                member: voted.sealed.member,
                statement: statement_in(room, &voted.sealed.statement),
                seal: voted.sealed.seal,
            },
            fresh: voted.fresh,
        }),
        Err(refusal) => Err(*refusal),
    }
}
