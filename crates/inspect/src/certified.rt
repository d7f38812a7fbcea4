//! The valid certificates of a run, each once.

ghost use Rattle.std.specs.Prelude.{◌≡◌, ℕ, List, [], None, Some, IfOk, OnOk, fold, option_map, true};
ghost use Rattle.std.specs.List.{flat_map};
ghost use Rattle.chain_messages.specs.Messages.{certificate};
ghost use Rattle.quorum_core.specs.Committee.{is_roll};
ghost use Rattle.protocol_spec.specs.Chain.Certificates.{members_of, rules_of};
ghost use Rattle.inspect.specs.Certified.{handed_over, held_bytes, is_valid, spelled_by, with_valid};
ghost use Rattle.inspect.specs.Found.{AreFound};

use cert_rules::{CertRefusal, check_cert};
use chain_messages::{Certificate, decode_certificate, encode_certificate};
use chain_types::tx_digest;
use quorum_core::{Committee, Sealer};
use schedule_text::Event;
use std::alloc::Global;
use tables::NameMap;
use wire_bcs::{Duplicate, OutOfMemory, Seq, Unread};

/// Certificates, and the encoding of each.
#[derive(Drop)]
pub(crate) struct Found {
    pub(crate) certs: Seq<Certificate>,
    pub(crate) spelled: NameMap<()>,
}

/// Whether a certificate is valid. The limit of writers plays no part.
#[tactic(auto, unfolding(chain_messages::specs::Messages::certificate))]
fn is_valid<S: Sealer>(
    alloc: Global,
    committee: &Committee,
    sealer: &S,
    cert: &Certificate,
) -> Result<bool, OutOfMemory>
    requires { certificate.short cert.now }
    ensures value { IfOk result (λ valid. valid ≡ is_valid (rules_of committee.now None (S.accepts sealer.now)) cert.now) }
    ensures roll { IfOk result (λ valid. valid ≡ true → is_roll committee.now (members_of cert.now) ≡ true) }
{
    let digest = tx_digest(alloc, &cert.tx)?;
    match check_cert(alloc, cert, &digest, committee, sealer) {
        Ok(()) => Ok(true),
        Err(CertRefusal::Shape(_)) => Ok(false),
        Err(CertRefusal::Order) => Ok(false),
        Err(CertRefusal::ShortStake { .. }) => Ok(false),
        Err(CertRefusal::BadSeal { .. }) => Ok(false),
        Err(CertRefusal::OutOfMemory) => Err(OutOfMemory),
    }
}

/// The bytes that a line hands to a member as a certificate.
fn held_bytes(event: &Event) -> Option<&[u8]>
    ensures { option_map (λ (bytes : _). bytes.now) result ≡ held_bytes event.now }
{
    match event {
        Event::RawHold { bytes, .. } => Some(bytes.as_slice()),
        _ => None,
    }
}

impl Found {
    /// No certificates. Takes no memory.
    pub(crate) fn new(alloc: Global) -> Found
        ensures certs { result.certs ≡ [] }
        ensures found { (stakes : List ℕ) → AreFound stakes result.certs result.spelled }
    {
        Found {
            certs: Seq::new(alloc),
            spelled: NameMap::new(alloc),
        }
    }

    /// Adds a certificate, if it is valid and none with the same encoding is there.
    pub(crate) fn add<S: Sealer>(
        &mut self,
        alloc: Global,
        committee: &Committee,
        sealer: &S,
        cert: &Certificate,
    ) -> Result<(), OutOfMemory>
        requires short { certificate.short cert.now }
        requires found { AreFound committee.now self.old.certs self.old.spelled }
        ensures certs { OnOk result (self.new.certs ≡ with_valid (rules_of committee.now None (S.accepts sealer.now)) self.old.certs cert.now) }
        ensures found { OnOk result (AreFound committee.now self.new.certs self.new.spelled) }
    {
        if !is_valid(alloc, committee, sealer, cert)? {
            return Ok(());
        }
        let bytes = encode_certificate(alloc, cert)?;
        if self.spelled.has(bytes.as_slice()) {
            return Ok(());
        }
        let copy = cert.copy()?;
        self.spelled.add(bytes.as_slice(), ())?;
        self.certs.push(copy)
    }

    /// Adds the certificate that these bytes encode, if they encode a valid one that is new.
    #[tactic(auto, unfolding(protocol_spec::specs::Chain::Certificates::read_certificate))]
    fn add_spelled<S: Sealer>(
        &mut self,
        alloc: Global,
        committee: &Committee,
        sealer: &S,
        bytes: &[u8],
    ) -> Result<(), OutOfMemory>
        requires { AreFound committee.now self.old.certs self.old.spelled }
        ensures certs { OnOk result (self.new.certs ≡ fold (with_valid (rules_of committee.now None (S.accepts sealer.now))) self.old.certs (spelled_by (Some bytes.now))) }
        ensures found { OnOk result (AreFound committee.now self.new.certs self.new.spelled) }
    {
        match decode_certificate(alloc, bytes) {
            Ok(cert) => self.add(alloc, committee, sealer, &cert),
            Err(Unread::Wire(_)) => Ok(()),
            Err(Unread::OutOfMemory) => Err(OutOfMemory),
        }
    }

    /// Adds the certificate that a line hands over as bytes, if it is a `raw .. hold` line.
    fn add_held<S: Sealer>(
        &mut self,
        alloc: Global,
        committee: &Committee,
        sealer: &S,
        event: &Event,
    ) -> Result<(), OutOfMemory>
        requires { AreFound committee.now self.old.certs self.old.spelled }
        ensures certs { OnOk result (self.new.certs ≡ fold (with_valid (rules_of committee.now None (S.accepts sealer.now))) self.old.certs (handed_over event.now)) }
        ensures found { OnOk result (AreFound committee.now self.new.certs self.new.spelled) }
    {
        match held_bytes(event) {
            Some(bytes) => self.add_spelled(alloc, committee, sealer, bytes),
            None => Ok(()),
        }
    }

    /// Adds the certificates that lines hand over as bytes.
    pub(crate) fn add_handed<S: Sealer>(
        &mut self,
        alloc: Global,
        committee: &Committee,
        sealer: &S,
        events: &[Event],
    ) -> Result<(), OutOfMemory>
        requires { AreFound committee.now self.old.certs self.old.spelled }
        ensures certs { OnOk result (self.new.certs ≡ fold (with_valid (rules_of committee.now None (S.accepts sealer.now))) self.old.certs (flat_map handed_over events.now)) }
        ensures found { OnOk result (AreFound committee.now self.new.certs self.new.spelled) }
    {
        let mut rest = events;
        while let [event, after @ ..] = rest {
            self.add_held(alloc, committee, sealer, event)?;
            rest = after;
        }
        Ok(())
    }
}
