//! Reporting admitted transactions to a chain of checkpoints.

ghost use Rattle.std.specs.Prelude.{◌≡◌, ◌+◌, ◌<◌, ◌≤◌, IfOk, OnOk, Some, length, option_map, slice_get, take};
ghost use Rattle.protocol_spec.specs.Chain.Tests.{origins_eq};
ghost use Rattle.protocol_spec.specs.Member.Admission.{Admitted};
ghost use Rattle.epoch_turn.specs.Chains.{IsTold, StaysBehind};
ghost use Rattle.epoch_turn.specs.Dues.{due_of};

use crate::chain::CheckpointBuilder;
use crate::due::Due;
use cert_rules::same_origins;
use digest_core::Digest;
use version_assign::Admission;
use vote_rules::CertificateStore;
use wire_bcs::OutOfMemory;

/// Whether the certificate that is held of a transaction names these origins.
fn is_same(held: &CertificateStore, tx: &Digest, origins: &[Option<Digest>]) -> bool
    ensures { (a : Admitted) → a.digest ≡ tx.now → a.cert.origins ≡ origins.now → result ≡ (due_of held.now a).same }
{
    match held.get(tx) {
        Some(known) => same_origins(known.origins.as_slice(), origins),
        None => false,
    }
}

/// What a chain keeps of the transaction that was admitted at a place; none past the last.
fn due_at(held: &CertificateStore, admission: &Admission, place: usize) -> Option<Due>
    ensures { result ≡ option_map (due_of held.now) (slice_get admission.now.admission.admitted place) }
{
    let tx = admission.admitted_at(place)?;
    let origins = admission.origins_at(place)?;
    Some(Due {
        tx,
        same: is_same(held, &tx, origins),
    })
}

/// Reports to the chain the transaction that was admitted at a place.
fn tell_one(
    chain: &mut CheckpointBuilder,
    held: &CertificateStore,
    admission: &Admission,
    place: usize,
) -> Result<(), OutOfMemory>
    requires there { place < length admission.now.admission.admitted }
    requires told { IsTold held.now (take place admission.now.admission.admitted) chain.old }
    ensures told { OnOk result (IsTold held.now (take (place + 1) admission.now.admission.admitted) chain.new) }
    ensures marks { chain.new.marks ≡ chain.old.marks }
    ensures past { chain.new.past ≡ chain.old.past }
    ensures built { chain.new.built ≡ chain.old.built }
    ensures more { length chain.old.due ≤ length chain.new.due }
    ensures behind { StaysBehind chain.old chain.new }
{
    match due_at(held, admission, place) {
        Some(due) => chain.admit(due),
        None => unreachable!(),
    }
}

/// Reports to the chain the transactions that were admitted from a place on. If memory is refused it knows of some
/// of them.
pub fn tell(
    chain: &mut CheckpointBuilder,
    held: &CertificateStore,
    admission: &Admission,
    from: usize,
) -> Result<(), OutOfMemory>
    requires within { from ≤ length admission.now.admission.admitted }
    requires told { IsTold held.now (take from admission.now.admission.admitted) chain.old }
    ensures told { OnOk result (IsTold held.now admission.now.admission.admitted chain.new) }
    ensures marks { chain.new.marks ≡ chain.old.marks }
    ensures past { chain.new.past ≡ chain.old.past }
    ensures built { chain.new.built ≡ chain.old.built }
    ensures more { length chain.old.due ≤ length chain.new.due }
    ensures behind { StaysBehind chain.old chain.new }
{
    let mut place = from;
    while place < admission.admitted_count() {
        tell_one(chain, held, admission, place)?;
        place += 1;
    }
    Ok(())
}
