//! Reading the next entry of the sequence: what it is to the member, before it does anything.

ghost use Rattle.std.specs.Prelude.{◌≡◌, ◌&&◌, IfOk, Ok, length, nat_lt};
ghost use Rattle.chain_messages.specs.Messages.{sealed, statement};
ghost use Rattle.chain_types.specs.Transactions.{transaction};
ghost use Rattle.chain_messages.specs.declared.messages.Entry.TheVariants as read;
ghost use Rattle.chain_messages.specs.declared.messages.Statement.TheVariants as statements;
ghost use Rattle.protocol_spec.specs.Chain.Certificates.{accepts_statement};
ghost use Rattle.protocol_spec.specs.Member.Sequence.{what_of, what_read, what_stated};
ghost use Rattle.world_spec.specs.Terms.{rules_for};
ghost use Rattle.validator_core.specs.Entries.{MayArrive, what_as};
ghost use Rattle.validator_core.specs.Limits.{terms_at};

use crate::state::State;
use cert_rules::check_cert;
use chain_messages::{Certificate, Entry, Sealed, Statement, decode_entry_with, encode_statement};
use chain_types::{CertRefusal, encoded_digest};
use protocol_spec::{Held, Ignore, SharedCertificate};
use quorum_core::{Committee, Sealer, Signer};
use wire_bcs::{OutOfMemory, Unread};

/// What an entry is to the member, before it does anything.
#[derive(Drop)]
pub(crate) enum EntryOutcome {
    /// A valid certificate whose transaction is not in the sequence.
    Takes(Held),
    /// The mark at which a checkpoint is cut.
    Commits,
    /// An accepted End of a member of which none was counted.
    Counts(u32),
    Ignores(Ignore),
}

impl State {
    /// Whether a member is known and its seal on its statement is accepted.
    fn is_accepted<S: Sealer>(
        &self,
        committee: &Committee,
        sealer: &S,
        said: &Sealed,
    ) -> Result<bool, OutOfMemory>
        requires { statement.short said.now.statement }
        ensures { IfOk result (λ accepted. accepted ≡ nat_lt said.now.member (length committee.now) && accepts_statement (rules_for (terms_at self.now committee.now) (S.accepts sealer.now)) said.now.member said.now.statement said.now.seal) }
    {
        if said.member >= committee.len() {
            return Ok(false);
        }
        let bytes = encode_statement(self.alloc, &said.statement)?;
        Ok(sealer.check(&Signer::Member(said.member), bytes.as_slice(), &said.seal))
    }

    /// An End of an epoch. Order of the causes: `Epoch`, `Seal`, `Repeat`.
    fn read_end<S: Sealer>(
        &self,
        committee: &Committee,
        sealer: &S,
        said: &Sealed,
        epoch: u64,
    ) -> Result<EntryOutcome, OutOfMemory>
        requires short { statement.short said.now.statement }
        requires end { said.now.statement ≡ statements.End epoch }
        ensures what { IfOk result (λ a. what_stated (rules_for (terms_at self.now committee.now) (S.accepts sealer.now)) self.now.member.epoch self.now.member.sequence said.now (statements.End epoch) ≡ what_as a) }
        ensures may { IfOk result (MayArrive committee.now self.now.member.sequence) }
    {
        if epoch != self.epoch() {
            return Ok(EntryOutcome::Ignores(Ignore::Epoch));
        }
        if !self.is_accepted(committee, sealer, said)? {
            return Ok(EntryOutcome::Ignores(Ignore::Seal));
        }
        if self.is_counted(said.member) {
            return Ok(EntryOutcome::Ignores(Ignore::Repeat));
        }
        Ok(EntryOutcome::Counts(said.member))
    }

    /// What a member stated: only an End counts.
    #[tactic(auto, unfolding(chain_messages::specs::Messages::sealed))]
    fn read_stated<S: Sealer>(
        &self,
        committee: &Committee,
        sealer: &S,
        said: &Sealed,
    ) -> Result<EntryOutcome, OutOfMemory>
        requires { sealed.short said.now }
        ensures what { IfOk result (λ a. what_stated (rules_for (terms_at self.now committee.now) (S.accepts sealer.now)) self.now.member.epoch self.now.member.sequence said.now said.now.statement ≡ what_as a) }
        ensures may { IfOk result (MayArrive committee.now self.now.member.sequence) }
    {
        match said.statement {
            Statement::End { epoch } => self.read_end(committee, sealer, said, epoch),
            Statement::Vote { .. } | Statement::Checkpoint { .. } | Statement::Ack { .. } => {
                Ok(EntryOutcome::Ignores(Ignore::Statement))
            }
        }
    }

    /// A certificate, whose transaction these bytes encode. Order of the causes: `Epoch`, `Cert`, `Repeat`.
    fn read_cert<S: Sealer>(
        &self,
        committee: &Committee,
        sealer: &S,
        cert: Certificate,
        tx_bytes: &[u8],
    ) -> Result<EntryOutcome, OutOfMemory>
        requires { tx_bytes.now ≡ transaction.spell cert.tx }
        ensures what { IfOk result (λ a. what_read (rules_for (terms_at self.now committee.now) (S.accepts sealer.now)) self.now.member.epoch self.now.member.sequence (Ok (read.Cert cert)) ≡ what_as a) }
        ensures may { IfOk result (MayArrive committee.now self.now.member.sequence) }
    {
        if cert.tx.epoch != self.epoch() {
            drop(cert);
            return Ok(EntryOutcome::Ignores(Ignore::Epoch));
        }
        let digest = encoded_digest(&cert.tx, tx_bytes);
        match check_cert(self.alloc, &cert, &digest, committee, sealer) {
            Ok(()) => {}
            Err(CertRefusal::OutOfMemory) => {
                drop(cert);
                return Err(OutOfMemory);
            }
            Err(_refusal) => {
                drop(cert);
                return Ok(EntryOutcome::Ignores(Ignore::Cert));
            }
        }
        if self.is_ordered(&digest) {
            drop(cert);
            return Ok(EntryOutcome::Ignores(Ignore::Repeat));
        }
        let cert = SharedCertificate::new(self.alloc, cert)?;
        Ok(EntryOutcome::Takes(Held { digest, cert }))
    }

    /// What the bytes of the next entry are to the member (Sui Lutris; the causes and their order are this profile's):
    /// bytes that encode no entry are ignored as `Malformed`.
    #[tactic(auto, unfolding(protocol_spec::specs::Member::Sequence::what_of, protocol_spec::specs::Chain::Certificates::read_entry, chain_messages::specs::Messages::entry))]
    pub(crate) fn read_entry<S: Sealer>(
        &self,
        committee: &Committee,
        sealer: &S,
        bytes: &[u8],
    ) -> Result<EntryOutcome, OutOfMemory>
        ensures what { IfOk result (λ a. what_of (rules_for (terms_at self.now committee.now) (S.accepts sealer.now)) self.now.member.epoch self.now.member.sequence bytes.now ≡ what_as a) }
        ensures may { IfOk result (MayArrive committee.now self.now.member.sequence) }
    {
        let (entry, tx_bytes) = match decode_entry_with(self.alloc, bytes) {
            Ok(read) => read,
            Err(Unread::Wire(_)) => return Ok(EntryOutcome::Ignores(Ignore::Malformed)),
            Err(Unread::OutOfMemory) => return Err(OutOfMemory),
        };
        match entry {
            Entry::Cert(cert) => self.read_cert(committee, sealer, cert, tx_bytes),
            Entry::End(said) => self.read_stated(committee, sealer, &said),
            Entry::Commit => Ok(EntryOutcome::Commits),
        }
    }
}
