//! Deciding what becomes of a certificate that is handed in, before anything is kept.

ghost use Rattle.std.specs.Prelude.{◌≡◌, None, false, is_some, nat_le, IfOk, IsErrOf};
ghost use Rattle.chain_types.specs.Transactions.{transaction};
ghost use Rattle.chain_types.specs.Digests.{transaction_digest};
ghost use Rattle.protocol_spec.specs.Chain.Words.{unless_refused};
ghost use Rattle.protocol_spec.specs.Member.Checkpoints.{held_of};
ghost use Rattle.protocol_spec.specs.declared.refusals.HoldRefusal.TheVariants as no_hold;
ghost use Rattle.chain_messages.specs.Messages.{certificate};
ghost use Rattle.protocol_spec.specs.Member.Member.{fork_of};
ghost use Rattle.protocol_spec.specs.Member.Calls.{due, hold_answer, hold_certificate, hold_stopped, holds, new_hold, record_limit};
ghost use Rattle.validator_core.specs.Answers.{HoldDue, HoldsAs, IsHeldAs, holding_in};
ghost use Rattle.world_spec.specs.Terms.{rules_for};
ghost use Rattle.validator_core.specs.Limits.{terms_at};

use crate::state::State;
use cert_rules::check_cert;
use chain_messages::{Certificate, decode_certificate_with};
use chain_types::{CertRefusal, ObjectKey, encoded_digest, owned_keys};
use digest_core::Digest;
use protocol_spec::HoldRefusal;
use quorum_core::{Committee, Sealer};
use wire_bcs::Unread;

/// What becomes of a certificate that is not refused.
#[derive(Clone, Copy)]
pub(crate) enum CertificateOutcome {
    /// Its transaction's certificate is held already.
    Again,
    /// It is to be held, under this digest of its transaction.
    New(Digest),
    /// It consumes this version, as the certificate of `first` does: it is to be kept as evidence.
    Fork {
        key: ObjectKey,
        first: Digest,
        digest: Digest,
    },
}

impl State {
    /// Whether a certificate may be handed in.
    pub(crate) fn check_hold(&self) -> Result<(), HoldRefusal>
        ensures value { result ≡ unless_refused (hold_stopped self.now.member) tt }
        ensures room { IfOk result (λ _. nat_le record_limit self.now.member.records ≡ false) }
        ensures calm { IfOk result (λ _. fork_of self.now.member ≡ None) }
        ensures never { IsErrOf result no_hold.KeepFault → ⊥ }
    {
        if let Some((first, second)) = self.fork() {
            return Err(HoldRefusal::Halted { first, second });
        }
        if self.is_full() {
            return Err(HoldRefusal::Full);
        }
        Ok(())
    }

    /// A certificate whose transaction is not held.
    fn new_hold<S: Sealer>(
        &self,
        committee: &Committee,
        sealer: &S,
        cert: &Certificate,
        digest: Digest,
    ) -> Result<CertificateOutcome, HoldRefusal>
        requires digest { digest ≡ transaction_digest cert.now.tx }
        requires new { is_some (held_of self.now.member.held digest) ≡ false }
        ensures answer { HoldsAs (new_hold (rules_for (terms_at self.now committee.now) (S.accepts sealer.now)) self.now.member cert.now) result }
        ensures held { IfOk result (λ h. IsHeldAs self.now.member cert.now h) }
        ensures never { IsErrOf result no_hold.KeepFault → ⊥ }
    {
        if self.is_closed() {
            return Err(HoldRefusal::Closed);
        }
        match check_cert(self.alloc, cert, &digest, committee, sealer) {
            Ok(()) => {}
            Err(CertRefusal::OutOfMemory) => return Err(HoldRefusal::OutOfMemory),
            Err(refusal) => return Err(HoldRefusal::Cert(refusal)),
        }
        let Ok(keys) = owned_keys(self.alloc, &cert.tx) else {
            return Err(HoldRefusal::OutOfMemory);
        };
        match self.consumed_by(keys.as_slice()) {
            Some((key, first)) => Ok(CertificateOutcome::Fork { key, first, digest }),
            None => Ok(CertificateOutcome::New(digest)),
        }
    }

    /// What becomes of a certificate of the transaction of this digest. Order of the refusals: `WrongEpoch`, `Closed`, `Cert`.
    pub(crate) fn hold_on<S: Sealer>(
        &self,
        committee: &Committee,
        sealer: &S,
        cert: &Certificate,
        digest: Digest,
    ) -> Result<CertificateOutcome, HoldRefusal>
        requires { digest ≡ transaction_digest cert.now.tx }
        ensures answer { HoldsAs (hold_certificate (rules_for (terms_at self.now committee.now) (S.accepts sealer.now)) self.now.member cert.now) result }
        ensures held { IfOk result (λ h. IsHeldAs self.now.member cert.now h) }
        ensures never { IsErrOf result no_hold.KeepFault → ⊥ }
    {
        let want = self.epoch();
        if cert.tx.epoch != want {
            return Err(HoldRefusal::WrongEpoch {
                had: cert.tx.epoch,
                want,
            });
        }
        if self.holds(&digest) {
            return Ok(CertificateOutcome::Again);
        }
        self.new_hold(committee, sealer, cert, digest)
    }

    /// The certificate that the bytes encode, and what becomes of it. Order of the refusals: `Halted`, `Full`,
    /// `Malformed`, then those of [`State::hold_on`].
    #[tactic(auto, unfolding(protocol_spec::specs::Member::Calls::hold_answer, protocol_spec::specs::Member::Calls::due, protocol_spec::specs::Chain::Certificates::read_certificate, chain_messages::specs::Messages::certificate))]
    pub(crate) fn hold<S: Sealer>(
        &self,
        committee: &Committee,
        sealer: &S,
        bytes: &[u8],
    ) -> Result<(Certificate, CertificateOutcome), HoldRefusal>
        ensures answer { HoldsAs (hold_answer (rules_for (terms_at self.now committee.now) (S.accepts sealer.now)) self.now.member bytes.now) (holding_in result) }
        ensures due { HoldDue (due (rules_for (terms_at self.now committee.now) (S.accepts sealer.now)) self.now.member (holds bytes.now)) result }
        ensures held { IfOk result (λ h. IsHeldAs self.now.member h.0 h.1) }
        ensures short { IfOk result (λ h. certificate.short h.0) }
        ensures encoded { IfOk result (λ h. bytes.now ≡ certificate.spell h.0) }
        ensures room { IfOk result (λ _. nat_le record_limit self.now.member.records ≡ false) }
        ensures calm { IfOk result (λ _. fork_of self.now.member ≡ None) }
        ensures never { IsErrOf result no_hold.KeepFault → ⊥ }
        ensures able { IsErrOf result no_hold.OutOfMemory → fork_of self.now.member ≡ None }
    {
        self.check_hold()?;
        let (cert, tx_bytes) = match decode_certificate_with(self.alloc, bytes) {
            Ok(cert) => cert,
            Err(Unread::Wire(fault)) => return Err(HoldRefusal::Malformed(fault)),
            Err(Unread::OutOfMemory) => return Err(HoldRefusal::OutOfMemory),
        };
        let digest = encoded_digest(&cert.tx, tx_bytes);
        let holding = self.hold_on(committee, sealer, &cert, digest)?;
        Ok((cert, holding))
    }
}
