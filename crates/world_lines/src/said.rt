//! The [`StatementLog`]: what members stated in a run, and the last statement of each kind.

ghost use Rattle.std.specs.Prelude.{◌≡◌, ◌<◌, ◌++◌, ◌∷◌, [], OnErr, OnOk, map, option_and_then, option_copied, option_map, slice_get};
ghost use Rattle.std.specs.Vec.{vec_capacity, vec_len};
ghost use Rattle.world_spec.specs.World.{checkpoint_statement, kept_seal, said_by, said_under};
ghost use Rattle.world_spec.specs.Step.{ack_in, end_in, last_said, last_seal, the_seal};
ghost use Rattle.world_lines.specs.Pushed.{GrowsToward};
ghost use Rattle.world_lines.specs.Rows.{effects_in, origins_in, row_effects, row_end, row_origins, row_seal, row_statement, said_with};
ghost use Rattle.world_lines.specs.SaidVotes.{first_vote, vote_by, vote_if};

use crate::stated::LastPlaces;
use chain_messages::Statement;
use checkpoint_core::HashedCheckpoint;
use digest_core::Digest;
use std::alloc::Global;
use std::marker::Model;
use wire_bcs::{OutOfMemory, Seq};

/// A statement of a member, and if it is a vote the seal that the member put on it.
#[derive(Debug, Drop)]
pub(crate) struct SaidRow {
    member: u32,
    statement: Statement,
    seal: Option<Digest>,
}

/// Puts an item after the others; there is room.
pub(crate) fn push_in_room<T: Drop>(all: &mut Vec<T>, item: T)
    requires { vec_len all.old < vec_capacity all.old }
    ensures { all.new.items ≡ all.old.items ++ item ∷ [] }
{
    match all.push(item) {
        Ok(()) => {}
        Err(_) => unreachable!(),
    }
}

/// The origins that a vote names. Takes no memory.
fn origins_in(statement: &Statement) -> Option<&Seq<Option<Digest>>>
    ensures { option_copied result ≡ origins_in statement.now }
{
    match statement {
        Statement::Vote { origins, .. } => Some(origins),
        Statement::End { .. } | Statement::Checkpoint { .. } | Statement::Ack { .. } => None,
    }
}

/// The epoch of which a statement is the End. Takes no memory.
fn end_in(statement: &Statement) -> Option<u64>
    ensures { result ≡ end_in statement.now }
{
    match statement {
        Statement::End { epoch } => Some(*epoch),
        Statement::Vote { .. } | Statement::Checkpoint { .. } | Statement::Ack { .. } => None,
    }
}

/// The digest of the effects that a statement acknowledges. Takes no memory.
fn effects_in(statement: &Statement) -> Option<&Digest>
    ensures { option_copied result ≡ effects_in statement.now }
{
    match statement {
        Statement::Ack { effects, .. } => Some(effects),
        Statement::Vote { .. } | Statement::End { .. } | Statement::Checkpoint { .. } => None,
    }
}

/// The seal, if the statement is a vote. Takes no memory.
fn kept_seal(statement: &Statement, seal: Digest) -> Option<Digest>
    ensures { result ≡ kept_seal statement.now seal }
{
    match statement {
        Statement::Vote { .. } => Some(seal),
        Statement::End { .. } | Statement::Checkpoint { .. } | Statement::Ack { .. } => None,
    }
}

/// The statement of the row at a place. Takes no memory.
fn statement_at(rows: &[SaidRow], place: Option<usize>) -> Option<&Statement>
    ensures { option_copied result ≡ option_map row_statement (option_and_then (slice_get rows.now) place) }
{
    match place {
        Some(place) => match rows.get(place) {
            Some(row) => Some(&row.statement),
            None => None,
        },
        None => None,
    }
}

/// The origins of the vote at a place. Takes no memory.
fn origins_at(rows: &[SaidRow], place: Option<usize>) -> Option<&Seq<Option<Digest>>>
    ensures { option_copied result ≡ option_and_then row_origins (option_and_then (slice_get rows.now) place) }
{
    origins_in(statement_at(rows, place)?)
}

/// The epoch of the End at a place. Takes no memory.
fn end_at(rows: &[SaidRow], place: Option<usize>) -> Option<u64>
    ensures { result ≡ option_and_then row_end (option_and_then (slice_get rows.now) place) }
{
    end_in(statement_at(rows, place)?)
}

/// The effects of the acknowledgement at a place. Takes no memory.
fn effects_at(rows: &[SaidRow], place: Option<usize>) -> Option<&Digest>
    ensures { option_copied result ≡ option_and_then row_effects (option_and_then (slice_get rows.now) place) }
{
    effects_in(statement_at(rows, place)?)
}

/// The seal that was kept with the statement at a place. Takes no memory.
fn seal_at(rows: &[SaidRow], place: Option<usize>) -> Option<Digest>
    ensures { result ≡ option_and_then the_seal (option_and_then row_seal (option_and_then (slice_get rows.now) place)) }
{
    match place {
        Some(place) => match rows.get(place) {
            Some(row) => row.seal,
            None => None,
        },
        None => None,
    }
}

/// The statements of a run. Contracts see them with their members, oldest first.
#[derive(Drop)]
pub struct StatementLog {
    rows: Vec<SaidRow>,
    places: LastPlaces,
}

impl Model for StatementLog {
    ghost use Rattle.std.specs.Prelude.{List};
    ghost use Rattle.world_spec.specs.World.{Said};
    ghost use Rattle.world_lines.specs.Keys.{AreLast};
    ghost use Rattle.world_lines.specs.Rows.{said_list};

    ghost Value = { List Said };

    ghost view = { λ b. said_list b.rows.items };

    ghost invariant = { λ b. AreLast b.rows.items b.places };
}

impl StatementLog {
    /// A book without statements. Takes no memory.
    pub fn new(alloc: Global) -> StatementLog
        ensures { result ≡ [] }
    {
        StatementLog {
            rows: Vec::new(alloc),
            places: LastPlaces::new(alloc),
        }
    }

    /// Adds a statement, and the seal that is kept of it. A refusal changes nothing.
    fn add(
        &mut self,
        member: u32,
        statement: Statement,
        seal: Option<Digest>,
    ) -> Result<(), OutOfMemory>
        ensures ok { OnOk result (self.new ≡ self.old ++ said_with member statement seal ∷ []) }
        ensures err { OnErr result (self.new ≡ self.old) }
    {
        self.rows.reserve(1)?;
        let place = self.rows.as_slice().len();
        self.places.note(member, &statement, place)?;
        push_in_room(
            &mut self.rows,
            SaidRow {
                member,
                statement,
                seal,
            },
        );
        Ok(())
    }

    /// A member states this, which is not a vote. A refusal changes nothing.
    pub fn say(&mut self, member: u32, statement: Statement) -> Result<(), OutOfMemory>
        ensures ok { OnOk result (self.new ≡ self.old ++ said_by member statement ∷ []) }
        ensures err { OnErr result (self.new ≡ self.old) }
    {
        self.add(member, statement, None)
    }

    /// A member states this under its seal, which is kept if it is a vote. A refusal changes nothing.
    pub fn say_sealed(
        &mut self,
        member: u32,
        statement: Statement,
        seal: Digest,
    ) -> Result<(), OutOfMemory>
        ensures ok { OnOk result (self.new ≡ self.old ++ said_under seal member statement ∷ []) }
        ensures err { OnErr result (self.new ≡ self.old) }
    {
        let seal = kept_seal(&statement, seal);
        self.add(member, statement, seal)
    }

    /// Adds a member's statement of a checkpoint that it built. A refusal changes nothing.
    fn say_checkpoint(&mut self, member: u32, built: &HashedCheckpoint) -> Result<(), OutOfMemory>
        ensures ok { OnOk result (self.new ≡ self.old ++ said_by member (checkpoint_statement built.now) ∷ []) }
        ensures err { OnErr result (self.new ≡ self.old) }
    {
        let checkpoint = built.checkpoint();
        let statement = Statement::Checkpoint {
            epoch: checkpoint.epoch,
            number: checkpoint.number,
            digest: built.digest(),
        };
        self.say(member, statement)
    }

    /// Adds the statements of the checkpoints that a member built, in order. After a refusal only the first few are
    /// added, or none.
    #[tactic(auto, using(protocol_spec::proofs::ListLemmas::front_whole, crate::proofs::Growing::front_pushed, crate::proofs::Growing::some_added))]
    pub fn say_built(&mut self, member: u32, built: &[HashedCheckpoint]) -> Result<(), OutOfMemory>
        ensures ok { OnOk result (self.new ≡ self.old ++ map (said_by member) (map checkpoint_statement built.now)) }
        ensures err { OnErr result (GrowsToward self.old self.new (self.old ++ map (said_by member) (map checkpoint_statement built.now))) }
    {
        let mut rest = built;
        while let [checkpoint, after @ ..] = rest {
            self.say_checkpoint(member, checkpoint)?;
            rest = after;
        }
        Ok(())
    }

    /// The origins of the last vote for a transaction of an epoch of the member of this number. Takes no memory.
    fn vote_of(&self, member: u64, epoch: u64, tx: &Digest) -> Option<&Seq<Option<Digest>>>
        ensures { option_copied result ≡ vote_by self.now epoch tx.now member }
    {
        let place = self.places.vote(member, epoch, tx);
        origins_at(self.rows.as_slice(), place)
    }

    /// The origins of the member's last vote for the transaction of the epoch; none exactly if it stated no such vote.
    /// Takes no memory.
    pub(crate) fn last_vote(
        &self,
        member: u32,
        epoch: u64,
        tx: &Digest,
    ) -> Option<&Seq<Option<Digest>>>
        ensures { option_copied result ≡ vote_by self.now epoch tx.now member }
    {
        self.vote_of(member as u64, epoch, tx)
    }

    /// The seal that the member put on its last vote for the transaction of the epoch. Takes no memory.
    pub(crate) fn last_seal(&self, member: u32, epoch: u64, tx: &Digest) -> Option<Digest>
        ensures { result ≡ last_seal epoch tx.now member self.now }
    {
        let place = self.places.vote(member as u64, epoch, tx);
        seal_at(self.rows.as_slice(), place)
    }

    /// The epoch of the member's last End; none exactly if it stated none. Takes no memory.
    pub fn last_end(&self, member: u32) -> Option<u64>
        ensures { result ≡ last_said end_in member self.now }
    {
        let place = self.places.end(member);
        end_at(self.rows.as_slice(), place)
    }

    /// The digest of the effects in the member's last acknowledgement of the transaction in the epoch; none exactly if
    /// it stated no such acknowledgement. Takes no memory.
    pub(crate) fn last_ack(&self, member: u32, epoch: u64, tx: &Digest) -> Option<&Digest>
        ensures { option_copied result ≡ last_said (ack_in epoch tx.now) member self.now }
    {
        let place = self.places.ack(member, epoch, tx);
        effects_at(self.rows.as_slice(), place)
    }

    /// The origins of the member's last vote for the transaction of the epoch, if it is honest. Takes no memory.
    fn vote_if(
        &self,
        member: u64,
        honest: bool,
        epoch: u64,
        tx: &Digest,
    ) -> Option<&Seq<Option<Digest>>>
        ensures { option_copied result ≡ vote_if self.now epoch tx.now (member, honest) }
    {
        if honest {
            return self.vote_of(member, epoch, tx);
        }
        None
    }

    /// The origins of the last vote for the transaction of the epoch of the lowest-numbered honest member that has
    /// one, if a flag says of each member, from 0, whether it is honest; none exactly if none has one. Takes no memory.
    pub(crate) fn first_vote(
        &self,
        honest: &[bool],
        epoch: u64,
        tx: &Digest,
    ) -> Option<&Seq<Option<Digest>>>
        ensures { option_copied result ≡ first_vote self.now epoch tx.now honest.now }
    {
        let mut rest = honest;
        let mut member = 0;
        while let [flag, after @ ..] = rest {
            let vote = self.vote_if(member, *flag, epoch, tx);
            if vote.is_some() {
                return vote;
            }
            member += 1;
            rest = after;
        }
        None
    }
}
