//! Lookups in a world for its callers: the committee, members, checkpoints, and the transactions that lines made. They
//! change nothing.

ghost use Rattle.std.specs.Prelude.{◌≡◌, IfOk, IfSome, Some, option_copied, option_map, slice_get};
ghost use Rattle.chain_messages.specs.Messages as messages;
ghost use Rattle.chain_types.specs.Transactions as transactions;
ghost use Rattle.world_spec.specs.Starts.{AreApart};
ghost use Rattle.validator_core.specs.Calls.{vote_ended};
ghost use Rattle.validator_core.specs.Seats.{answered};
ghost use Rattle.world_core.specs.Crews.{IsPlaced, honest_at, honest_post};
ghost use Rattle.world_core.specs.Looks.{checkpoint_at, signed_at, transaction_of, vote_line_by};
ghost use Rattle.world_core.specs.Texts.{show_by};
ghost use Rattle.world_lines.specs.Answers.{vote_as};
ghost use Rattle.world_spec.specs.Names.{cert_in};

use crate::world::World;
use chain_types::{Object, SignedTx, Transaction};
use checkpoint_core::Checkpoint;
use digest_core::Digest;
use protocol_spec::{VoteRefusal, Voted};
use quorum_core::Committee;
use report_text::Line;
use validator_core::Validator;
use wire_bcs::{OutOfMemory, Seq};
use world_lines::{Directory, FormedCertificate, shown_lines, vote_text};

impl World {
    /// The committee, by the stakes of the set-up. Takes no memory.
    pub fn committee(&self) -> &Committee
        ensures { result.now ≡ self.now.terms.stakes }
    {
        self.seats.committee()
    }

    /// The objects with which epoch 0 opened, in the order of the set-up; no id stands there twice. Takes no memory.
    pub fn opening(&self) -> &Seq<Object>
        ensures value { result.now ≡ self.now.opening }
        ensures apart { AreApart result.now }
    {
        &self.opening
    }

    /// Whether the set-up makes the member honest. Takes no memory.
    pub fn is_honest(&self, member: u32) -> bool
        ensures { result ≡ honest_post (slice_get self.now.posts member) }
    {
        self.seats.is_honest(member)
    }

    /// A member, at its seat; none exactly if it is faulty, down or not there. Takes no memory.
    pub fn member(&self, member: u32) -> Option<&Validator>
        ensures value { option_copied result ≡ honest_at (slice_get self.now.posts member) }
        ensures placed { IsPlaced self.now.terms member (option_copied result) }
    {
        self.seats.honest(member)
    }

    /// The checkpoint of this number, counted from 0 over all epochs, that a member built; none exactly if the member
    /// is faulty, down or not there, or has not built it. Takes no memory.
    pub fn checkpoint(&self, member: u32, number: u64) -> Option<&Checkpoint>
        ensures { option_map (λ (c : _). c.now) result ≡ checkpoint_at (slice_get self.now.posts member) number }
    {
        match self.seats.honest(member) {
            Some(validator) => validator.checkpoint(number),
            None => None,
        }
    }

    /// The transaction of this digest, which can be encoded; none exactly if no `tx` line made it. Takes no memory.
    #[tactic(auto, using(crate::proofs::Asked::short_of))]
    pub fn transaction(&self, tx: &Digest) -> Option<&Transaction>
        ensures short { IfSome result (λ t. transactions.transaction.short t.now) }
        ensures value { option_map (λ (t : _). t.now) result ≡ transaction_of self.now.known tx.now }
    {
        match self.directory.made_of(tx) {
            Some(made) => Some(&made.signed.value().tx),
            None => None,
        }
    }

    /// The signed transaction of the `tx` line at this place, counted from 0 among the `tx` lines that ran, which can be
    /// encoded; none exactly if there is no such line. Takes no memory.
    #[tactic(auto, using(crate::proofs::Asked::short_at))]
    pub fn signed(&self, place: u32) -> Option<&SignedTx>
        ensures short { IfSome result (λ t. transactions.signed.short t.now) }
        ensures value { option_map (λ (t : _). t.now) result ≡ signed_at self.now.known place }
    {
        match self.directory.made_at(place as usize) {
            Some(made) => Some(made.signed.value()),
            None => None,
        }
    }

    /// What names denote: those of the set-up, and of the `tx` lines that ran. Takes no memory.
    pub fn names(&self) -> &Directory
        ensures { result.now ≡ self.now.known }
    {
        &self.directory
    }

    /// The certificate of the `cert` line at this place, counted from 0 among those that formed one, which can be encoded;
    /// none exactly if there is no such line. Takes no memory.
    #[tactic(auto, using(crate::proofs::Asked::formed_short))]
    pub fn certificate(&self, place: usize) -> Option<&FormedCertificate>
        ensures short { IfSome result (λ c. messages.certificate.short c.now) }
        ensures value { option_copied result ≡ option_map cert_in (slice_get self.now.certs place) }
    {
        self.certs.at(place)
    }

    /// The line of a `vote` of a member for this transaction, with this reply: the transaction goes by the name of the first
    /// `tx` line that made it, and by a question mark if none did. The reply is an answer: neither a fault of the keeper nor
    /// running out of memory.
    pub fn vote_line(
        &self,
        member: u32,
        tx: &Digest,
        reply: &Result<Voted, VoteRefusal>,
    ) -> Result<Line, OutOfMemory>
        requires { vote_ended reply.now ≡ answered }
        ensures { IfOk result (λ line. line ≡ vote_line_by self.now.known member tx.now (vote_as reply.now)) }
    {
        let text = vote_text(&self.directory, reply)?;
        let tx = Seq::from_slice(self.alloc, self.directory.tx_name(tx))?;
        Ok(Line::Vote {
            member: member as u64,
            tx,
            text,
        })
    }

    /// The lines of `show` for a member in this state: its epoch, and its live objects in the order of a report, by the
    /// names of the set-up lines and of the `tx` lines that ran.
    pub fn show_lines(&self, member: u32, shown: &Validator) -> Result<Seq<Line>, OutOfMemory>
        ensures { IfOk result (λ lines. lines ≡ show_by self.now.known member (Some shown.now)) }
    {
        let objects = shown.live_list()?;
        shown_lines(&self.directory, member, shown.epoch(), objects.as_slice())
    }
}
