//! Records that are read back.

ghost use Rattle.std.specs.Prelude.{◌≡◌, IfOk, OnOk, false, is_ok, map, nat_le, true};
ghost use Rattle.std.specs.Bool.{OnTrue};
ghost use Rattle.chain_types.specs.Transactions.{transaction};
ghost use Rattle.chain_messages.specs.Messages.{certificate};
ghost use Rattle.chain_types.specs.Equal.{digest_eq};
ghost use Rattle.protocol_spec.specs.Chain.Tests.{list_eq};
ghost use Rattle.journal_core.specs.declared.records.RanItem.{RanItem as Item};
ghost use Rattle.journal_core.specs.declared.records.Record.TheVariants as record_as;
ghost use Rattle.journal_core.specs.Records as journals;
ghost use Rattle.protocol_spec.specs.Member.Calls.{ran_items, record_limit, run_answer};
ghost use Rattle.protocol_spec.specs.Member.Member.{after, with_rounds};
ghost use Rattle.protocol_spec.specs.Member.Replay.{is_allowed, ran_item_eq};
ghost use Rattle.validator_core.specs.Answers.{OnTaken, bare, sealed_as};
ghost use Rattle.world_spec.specs.Terms.{rules_for};
ghost use Rattle.validator_core.specs.Limits.{terms_at};
ghost use Rattle.validator_core.specs.Steps.{closing, counted, holding, voted};

use crate::holds::CertificateOutcome;
use crate::runs::ran_items;
use crate::state::State;
use cert_rules::same_origins;
use chain_messages::Certificate;
use chain_types::{Transaction, tx_digest};
use digest_core::Digest;
use journal_core::{RanItem, Record};
use protocol_spec::{Held, HoldRefusal, SharedCertificate, VoteRefusal};
use quorum_core::{Committee, Sealer};
use wire_bcs::{OutOfMemory, Seq};

/// Whether two runs have the same items.
fn same_items(a: &[RanItem], b: &[RanItem]) -> bool
    ensures { result ≡ list_eq ran_item_eq a.now b.now }
{
    a == b
}

/// Whether these are the transactions of the items.
fn same_txs(txs: &[Digest], items: &[RanItem]) -> bool
    ensures { result ≡ list_eq digest_eq txs.now (map (λ (i : Item). i.tx) items.now) }
{
    let mut txs = txs;
    let mut items = items;
    while let [tx, txs_after @ ..] = txs {
        let [item, items_after @ ..] = items else {
            return false;
        };
        if *tx != item.tx {
            return false;
        }
        txs = txs_after;
        items = items_after;
    }
    items.is_empty()
}

impl State {
    /// Takes the record of a vote, if a request could bring it about in this state.
    #[tactic(auto, unfolding(protocol_spec::specs::Member::Replay::is_allowed))]
    pub(crate) fn take_vote_back<S: Sealer>(
        &mut self,
        sealer: &S,
        tx: &Transaction,
        origins: Seq<Option<Digest>>,
    ) -> Result<bool, OutOfMemory>
        requires { transaction.short tx.now }
        ensures taken { IfOk result (λ taken. taken ≡ is_allowed (sealed_as (S.accepts sealer.now)) self.old.member (record_as.Vote tx.now origins)) }
        ensures state { OnTaken result (self.new.member ≡ voted self.old.member tx.now origins) }
        ensures limit { self.new.writers ≡ self.old.writers }
    {
        if self.check_vote().is_err() {
            return Ok(false);
        }
        let digest = tx_digest(self.allocator(), tx)?;
        match self.vote_on(tx, digest, true) {
            Ok(decision) => {
                if !decision.fresh
                    || !same_origins(decision.origins.as_slice(), origins.as_slice())
                {
                    return Ok(false);
                }
                self.take_vote(tx, decision.digest, origins)?;
                Ok(true)
            }
            Err(VoteRefusal::OutOfMemory) => Err(OutOfMemory),
            Err(_) => Ok(false),
        }
    }

    /// Takes the record of a certificate, if handing it in could bring it about in this state.
    #[tactic(auto, unfolding(protocol_spec::specs::Member::Replay::is_allowed, chain_messages::specs::Messages::certificate))]
    pub(crate) fn take_hold_back<S: Sealer>(
        &mut self,
        committee: &Committee,
        sealer: &S,
        cert: Certificate,
    ) -> Result<bool, OutOfMemory>
        requires { certificate.short cert }
        ensures taken { IfOk result (λ taken. taken ≡ is_allowed (rules_for (terms_at self.old committee.now) (S.accepts sealer.now)) self.old.member (record_as.Hold cert)) }
        ensures state { OnTaken result (self.new.member ≡ holding self.old.member cert) }
        ensures limit { self.new.writers ≡ self.old.writers }
    {
        if self.check_hold().is_err() {
            drop(cert);
            return Ok(false);
        }
        let Ok(digest) = tx_digest(self.allocator(), &cert.tx) else {
            drop(cert);
            return Err(OutOfMemory);
        };
        match self.hold_on(committee, sealer, &cert, digest) {
            Ok(CertificateOutcome::Again) => {
                drop(cert);
                Ok(false)
            }
            Ok(CertificateOutcome::New(digest) | CertificateOutcome::Fork { digest, .. }) => {
                let cert = SharedCertificate::new(self.allocator(), cert)?;
                self.take_hold(Held { digest, cert })?;
                Ok(true)
            }
            Err(HoldRefusal::OutOfMemory) => {
                drop(cert);
                Err(OutOfMemory)
            }
            Err(
                HoldRefusal::Down
                | HoldRefusal::Halted { .. }
                | HoldRefusal::Full
                | HoldRefusal::Malformed(_)
                | HoldRefusal::WrongEpoch { .. }
                | HoldRefusal::Closed
                | HoldRefusal::Cert(_)
                | HoldRefusal::KeepFault
                | HoldRefusal::Fork { .. },
            ) => {
                drop(cert);
                Ok(false)
            }
        }
    }

    /// Takes the record of a close, if the member may close in this state.
    #[tactic(auto, unfolding(protocol_spec::specs::Member::Replay::is_allowed, protocol_spec::specs::Member::Calls::close_answer))]
    pub(crate) fn take_close_back(&mut self) -> bool
        ensures taken { result ≡ is_allowed bare self.old.member record_as.Close }
        ensures state { result ≡ true → self.new.member ≡ closing self.old.member }
        ensures limit { self.new.writers ≡ self.old.writers }
    {
        if self.check_close().is_err() {
            return false;
        }
        if self.is_closed() {
            return false;
        }
        self.take_close();
        true
    }

    /// Takes the record of an entry, if the member may see one in this state.
    #[tactic(auto, unfolding(protocol_spec::specs::Member::Replay::is_allowed), using(crate::proofs::Seeing::see_taken_back, crate::proofs::Seeing::see_not_taken, crate::proofs::Seeing::behind_seen))]
    pub(crate) fn take_see_back<S: Sealer>(
        &mut self,
        committee: &Committee,
        sealer: &S,
        bytes: &[u8],
    ) -> Result<bool, OutOfMemory>
        ensures taken { IfOk result (λ taken. taken ≡ is_allowed (rules_for (terms_at self.old committee.now) (S.accepts sealer.now)) self.old.member (record_as.See bytes.now)) }
        ensures state { OnTaken result (self.new.member ≡ after (rules_for (terms_at self.old committee.now) (S.accepts sealer.now)) self.old.member (record_as.See bytes.now)) }
        ensures limit { self.new.writers ≡ self.old.writers }
    {
        if self.check_see(self.seen()).is_err() {
            return Ok(false);
        }
        let arrival = self.read_entry(committee, sealer, bytes)?;
        self.take_entry(committee, arrival)?;
        Ok(true)
    }

    /// Whether a run may be asked for.
    #[tactic(auto, unfolding(protocol_spec::specs::Member::Calls::run_answer), using(crate::proofs::Cases::goes_alike))]
    fn may_run(&self) -> bool
        ensures value { result ≡ is_ok (run_answer bare self.now.member) }
        ensures room { result ≡ true → nat_le record_limit self.now.member.records ≡ false }
    {
        self.check_run().is_ok()
    }

    /// Runs once more, on the caller's thread: the items of the record of the run.
    fn rerun(&mut self) -> Result<Seq<RanItem>, OutOfMemory>
        ensures state { OnOk result (self.new.member ≡ with_rounds self.old.member) }
        ensures items { IfOk result (λ items. items ≡ ran_items self.old.member) }
        ensures limit { self.new.writers ≡ self.old.writers }
    {
        let (effects, _built) = self.execute()?;
        ran_items(self.alloc, effects.as_slice())
    }

    /// Takes the record of a run of these transactions, if a run executes them in this state.
    #[tactic(auto, unfolding(protocol_spec::specs::Member::Replay::is_allowed))]
    pub(crate) fn take_txs_back(&mut self, txs: &[Digest]) -> Result<bool, OutOfMemory>
        ensures taken { IfOk result (λ taken. taken ≡ is_allowed bare self.old.member (record_as.Ran txs.now)) }
        ensures state { OnTaken result (self.new.member ≡ counted (with_rounds self.old.member)) }
        ensures limit { self.new.writers ≡ self.old.writers }
    {
        if !self.may_run() || txs.is_empty() {
            return Ok(false);
        }
        let items = self.rerun()?;
        if !same_txs(txs, items.as_slice()) {
            return Ok(false);
        }
        self.count_run();
        Ok(true)
    }

    /// Takes the record of a run of these items, if a run has them in this state.
    #[tactic(auto, unfolding(protocol_spec::specs::Member::Replay::is_allowed))]
    pub(crate) fn take_items_back(&mut self, items: &[RanItem]) -> Result<bool, OutOfMemory>
        ensures taken { IfOk result (λ taken. taken ≡ is_allowed bare self.old.member (record_as.Ran2 items.now)) }
        ensures state { OnTaken result (self.new.member ≡ counted (with_rounds self.old.member)) }
        ensures limit { self.new.writers ≡ self.old.writers }
    {
        if !self.may_run() || items.is_empty() {
            return Ok(false);
        }
        let made = self.rerun()?;
        if !same_items(items, made.as_slice()) {
            return Ok(false);
        }
        self.count_run();
        Ok(true)
    }

    /// Takes a record that was read back, if a call would append it in this state; else false. If false is answered or memory is refused the
    /// state is not to be used.
    #[tactic(auto, unfolding(protocol_spec::specs::Member::Replay::is_allowed, protocol_spec::specs::Member::Calls::run_answer, protocol_spec::specs::Member::Calls::close_answer, protocol_spec::specs::Member::Calls::turn_answer, protocol_spec::specs::Member::Member::after, journal_core::specs::Records::journal_record))]
    pub(crate) fn take<S: Sealer>(
        &mut self,
        committee: &Committee,
        sealer: &S,
        kept: Record,
    ) -> Result<bool, OutOfMemory>
        requires { journals.journal_record.short kept }
        ensures taken { IfOk result (λ taken. taken ≡ is_allowed (rules_for (terms_at self.old committee.now) (S.accepts sealer.now)) self.old.member kept) }
        ensures state { OnTaken result (self.new.member ≡ after (rules_for (terms_at self.old committee.now) (S.accepts sealer.now)) self.old.member kept) }
        ensures limit { self.new.writers ≡ self.old.writers }
    {
        match kept {
            Record::Vote { tx, origins } => self.take_vote_back(sealer, &tx, origins),
            Record::Hold(cert) => self.take_hold_back(committee, sealer, cert),
            Record::See(bytes) => self.take_see_back(committee, sealer, bytes.as_slice()),
            Record::Ran(txs) => self.take_txs_back(txs.as_slice()),
            Record::Ran2(items) => self.take_items_back(items.as_slice()),
            Record::Close => Ok(self.take_close_back()),
            Record::Turn => self.take_turn_back(),
        }
    }
}
