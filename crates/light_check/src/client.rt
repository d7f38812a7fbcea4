//! The command `check`: what a client that trusts only the stakes says of a chain of checkpoints.

ghost use Rattle.std.specs.Prelude.{◌≡◌, ◌⊎◌, OnOk};
ghost use Rattle.std.specs.Io.KnownBytes.{Appends, Keeps};
ghost use Rattle.outside.specs.Causes.{Rose};
ghost use Rattle.light_check.specs.Said.{IsCheckCut, Says, SaysCertified, SaysRefused, WritesCertified, finding_on, finding_status, finding_text};
ghost use Rattle.outside.specs.Streams.{AppendsFront};

use crate::said::{LONGEST_CHAIN, find_in, finding_status, write_finding};
use digest_core::Digest;
use outside::{OutFault, Sink, Source, read_text};
use quorum_core::{Checker, Committee};
use std::alloc::Global;

/// Judges the bytes that were read (all of the source, or one byte more than a chain may have), and writes the line of
/// the finding. Answers the status.
#[tactic(auto, using(crate::proofs::Saying::status_known, crate::proofs::Saying::nothing_said, crate::proofs::Saying::never_cut, crate::proofs::Saying::never_five))]
fn check_read<C: Checker, K: Sink>(
    alloc: Global,
    bytes: &[u8],
    committee: &Committee,
    checker: &C,
    tx: &Digest,
    sink: &mut K,
) -> u8
    ensures known { (result ≡ 0) ⊎ (result ≡ 5) ⊎ (result ≡ 7) ⊎ (result ≡ 8) }
    ensures said { (result ≡ 0) ⊎ (result ≡ 8) → (result ≡ finding_status (finding_on committee.now (C.accepts checker.now) tx.now bytes.now)) × Appends (K.held sink.old) (K.held sink.new) (finding_text (finding_on committee.now (C.accepts checker.now) tx.now bytes.now)) }
    ensures certified { result ≡ 0 → WritesCertified committee.now (C.accepts checker.now) tx.now bytes.now (K.held sink.old) (K.held sink.new) }
    ensures write_fault { result ≡ 5 → Rose (K.faults sink.old) (K.faults sink.new) }
    ensures cut { (result ≡ 5) ⊎ (result ≡ 7) → AppendsFront (K.held sink.old) (K.held sink.new) (finding_text (finding_on committee.now (C.accepts checker.now) tx.now bytes.now)) }
{
    let Ok(finding) = find_in(alloc, bytes, committee, checker, tx) else {
        return 7;
    };
    match write_finding(alloc, finding, sink) {
        Ok(()) => finding_status(finding),
        Err(OutFault::Failed) => 5,
        Err(OutFault::OutOfMemory) => 7,
    }
}

/// Reads an encoded chain from the source, and says whether it is certified by the committee and whether it has the transaction.
/// Answers the status.
///
/// | Status | Comes | Written |
/// |---|---|---|
/// | 0 | only if the bytes encode a certified chain, and the line was written | `certified N included in K` with the number of links and the number of the first checkpoint that lists the transaction, or `certified N not included` |
/// | 4 | only if the source's count of faults rose | nothing |
/// | 5 | only if the sink's count of faults rose | a prefix of the line |
/// | 7 | if it ran out of memory | a prefix of the line |
/// | 8 | only if there are more bytes than 16777216, or they encode no chain, or one that is not certified, and the line was written | `refused too large`, `refused malformed at A why W`, `refused link P cause C` |
pub fn check_source<C: Checker, S: Source, K: Sink>(
    alloc: Global,
    committee: &Committee,
    checker: &C,
    tx: &Digest,
    source: &mut S,
    sink: &mut K,
) -> u8
    ensures known { (result ≡ 0) ⊎ (result ≡ 4) ⊎ (result ≡ 5) ⊎ (result ≡ 7) ⊎ (result ≡ 8) }
    ensures said { (result ≡ 0) ⊎ (result ≡ 8) → Says committee.now (C.accepts checker.now) tx.now (S.left source.old) (S.left source.new) (K.held sink.old) (K.held sink.new) result }
    ensures certified { result ≡ 0 → SaysCertified committee.now (C.accepts checker.now) tx.now (S.left source.old) (S.left source.new) (K.held sink.old) (K.held sink.new) }
    ensures refused { result ≡ 8 → SaysRefused committee.now (C.accepts checker.now) tx.now (S.left source.old) (S.left source.new) (K.held sink.old) (K.held sink.new) }
    ensures read_fault { result ≡ 4 → Rose (S.faults source.old) (S.faults source.new) }
    ensures unwritten { result ≡ 4 → Keeps (K.held sink.old) (K.held sink.new) }
    ensures write_fault { result ≡ 5 → Rose (K.faults sink.old) (K.faults sink.new) }
    ensures cut { (result ≡ 5) ⊎ (result ≡ 7) → IsCheckCut committee.now (C.accepts checker.now) tx.now (S.left source.old) (S.left source.new) (K.held sink.old) (K.held sink.new) }
{
    match read_text(alloc, LONGEST_CHAIN, source) {
        Ok(bytes) => check_read(alloc, bytes.as_slice(), committee, checker, tx, sink),
        Err(OutFault::Failed) => 4,
        Err(OutFault::OutOfMemory) => 7,
    }
}
