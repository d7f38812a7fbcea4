//! The command `check`, under the seals of the program.

ghost use Rattle.std.specs.Prelude.{◌≡◌, ◌⊎◌};
ghost use Rattle.std.specs.Io.KnownBytes.{Keeps};
ghost use Rattle.outside.specs.Causes.{Rose};
ghost use Rattle.light_check.specs.Said.{IsCheckCut, Says, SaysCertified, SaysRefused};
ghost use Rattle.committee_core.specs.Headline.{program_trust};

use crate::seals::program_sealer;
use digest_core::Digest;
use light_check::check_source;
use outside::{Sink, Source};
use quorum_core::Committee;
use std::alloc::Global;

/// Reads a chain from the source and says whether it is certified by the committee under the seals of the program, and
/// whether it has the transaction. Answers the status.
pub(crate) fn check<S: Source, K: Sink>(
    alloc: Global,
    committee: &Committee,
    tx: &Digest,
    source: &mut S,
    sink: &mut K,
) -> u8
    ensures known { (result ≡ 0) ⊎ (result ≡ 4) ⊎ (result ≡ 5) ⊎ (result ≡ 7) ⊎ (result ≡ 8) }
    ensures said { (result ≡ 0) ⊎ (result ≡ 8) → Says committee.now program_trust.accepts tx.now (S.left source.old) (S.left source.new) (K.held sink.old) (K.held sink.new) result }
    ensures certified { result ≡ 0 → SaysCertified committee.now program_trust.accepts tx.now (S.left source.old) (S.left source.new) (K.held sink.old) (K.held sink.new) }
    ensures refused { result ≡ 8 → SaysRefused committee.now program_trust.accepts tx.now (S.left source.old) (S.left source.new) (K.held sink.old) (K.held sink.new) }
    ensures read_fault { result ≡ 4 → Rose (S.faults source.old) (S.faults source.new) }
    ensures unwritten { result ≡ 4 → Keeps (K.held sink.old) (K.held sink.new) }
    ensures write_fault { result ≡ 5 → Rose (K.faults sink.old) (K.faults sink.new) }
    ensures cut { (result ≡ 5) ⊎ (result ≡ 7) → IsCheckCut committee.now program_trust.accepts tx.now (S.left source.old) (S.left source.new) (K.held sink.old) (K.held sink.new) }
{
    let sealer = program_sealer();
    check_source(alloc, committee, &sealer, tx, source, sink)
}
