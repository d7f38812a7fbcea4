//! Look-ups in the tables of an admission.

ghost use Rattle.std.specs.Prelude.{◌≡◌, Some, None, option_map, position, slice_get};
ghost use Rattle.chain_types.specs.Equal.{digest_eq};
ghost use Rattle.protocol_spec.specs.Member.Admission.{assigned_of, deferred_by, deferred_on, digest_of_admitted, pending_certificate, pending_on};
ghost use Rattle.version_assign.specs.Books.{IsKept, admission_of, placed};
ghost use Rattle.version_assign.specs.Calls.{origins_of, version_of};

use crate::book::{AdmissionTables, PendingCertificate};
use crate::excerpt::Candidate;
use chain_types::ObjectId;
use digest_core::Digest;
use protocol_spec::Assigned;
use wire_bcs::Seq;

/// The certificate that waits at a place.
fn held_at(rows: &[Option<PendingCertificate>], place: Option<usize>) -> Option<&Candidate>
    ensures { option_map (λ (h : _). h.now) result ≡ placed rows.now place }
{
    match place {
        Some(place) => match rows.get(place) {
            Some(Some(row)) => Some(&row.held),
            Some(None) => None,
            None => None,
        },
        None => None,
    }
}

impl AdmissionTables {
    /// The place of a transaction's certificate, from 0; none exactly if it is not in the sequence.
    fn place_of(&self, tx: &Digest) -> Option<usize>
        ensures { result ≡ position (digest_eq tx.now) self.now.known.keys }
    {
        self.known.get_index_of(tx)
    }

    /// The certificate of a transaction that waits.
    fn waiting_held(&self, tx: &Digest) -> Option<&Candidate>
        requires { IsKept self.now }
        ensures { option_map (λ (h : _). h.now) result ≡ pending_certificate (admission_of self.now) tx.now }
    {
        let place = self.place_of(tx);
        held_at(self.rows.as_slice(), place)
    }

    /// The first origin that is not admitted, of a transaction that waits.
    #[tactic(auto, unfolding(protocol_spec::specs::Member::Admission::pending_on))]
    pub(crate) fn pending_on(&self, tx: &Digest) -> Option<Digest>
        requires { IsKept self.now }
        ensures { result ≡ pending_on (admission_of self.now) tx.now }
    {
        match self.waiting_held(tx) {
            Some(held) => self.missing(held.origins()),
            None => None,
        }
    }

    /// The first object that is full, of a transaction that waits and whose origins are admitted.
    #[tactic(auto, unfolding(protocol_spec::specs::Member::Admission::deferred_on))]
    pub(crate) fn deferred_on(&self, tx: &Digest) -> Option<ObjectId>
        requires { IsKept self.now }
        ensures { result ≡ deferred_on self.now.writers (admission_of self.now) tx.now }
    {
        match self.waiting_held(tx) {
            Some(held) => self.full_behind(held),
            None => None,
        }
    }

    /// The first object that a certificate writes and that is full, if all its origins are admitted.
    fn full_behind(&self, held: &Candidate) -> Option<ObjectId>
        requires { IsKept self.now }
        ensures { result ≡ deferred_by self.now.writers (admission_of self.now) (Some held.now) }
    {
        match self.missing(held.origins()) {
            Some(_) => None,
            None => self.full(held.writes()),
        }
    }

    /// The versions assigned to an admitted transaction's shared inputs.
    pub(crate) fn assigned(&self, tx: &Digest) -> Option<&Seq<Assigned>>
        ensures { option_map (λ (a : _). a.now) result ≡ assigned_of (admission_of self.now) tx.now }
    {
        match self.admitted.get(tx) {
            Some(admit) => Some(&admit.assigned),
            None => None,
        }
    }

    /// The version at which an admitted transaction writes.
    pub(crate) fn version(&self, tx: &Digest) -> Option<u64>
        ensures { result ≡ version_of (admission_of self.now) tx.now }
    {
        match self.admitted.get(tx) {
            Some(admit) => Some(admit.version),
            None => None,
        }
    }

    /// The admitted transaction at a place.
    pub(crate) fn admitted_at(&self, place: usize) -> Option<Digest>
        ensures { result ≡ option_map digest_of_admitted (slice_get (admission_of self.now).admitted place) }
    {
        match self.admitted.get_index(place) {
            Some((tx, _)) => Some(*tx),
            None => None,
        }
    }

    /// The origins of the certificate with which the transaction at a place was admitted.
    pub(crate) fn origins_at(&self, place: usize) -> Option<&[Option<Digest>]>
        ensures { option_map (λ (o : _). o.now) result ≡ option_map origins_of (slice_get (admission_of self.now).admitted place) }
    {
        match self.admitted.get_index(place) {
            Some((_, admit)) => Some(admit.cert.origins()),
            None => None,
        }
    }
}
