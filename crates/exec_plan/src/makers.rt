//! The transactions that a certificate waits for.

ghost use Rattle.std.specs.Prelude.{◌≡◌};
ghost use Rattle.exec_plan.specs.Makers.{awaited_of, unmade_by};

use crate::inputs::Wants;
use crate::past::PlannedView;
use chain_types::Producer;
use digest_core::Digest;
use protocol_spec::Held;
use version_assign::Admission;

/// The transaction that makes a version, if it is not executed.
fn unmade_by(past: &PlannedView<'_>, maker: &Option<Producer>) -> Option<Digest>
    ensures { result ≡ unmade_by past.now.executed maker.now }
{
    match maker {
        Some(Producer::Tx(tx)) => {
            if past.is_executed(tx) {
                return None;
            }
            Some(*tx)
        }
        Some(Producer::Opening) => None,
        None => None,
    }
}

/// The first transaction, not executed, that makes a version that the certificate wants; none if all are
/// executed. Takes no memory.
pub(crate) fn awaited(past: &PlannedView<'_>, admission: &Admission, held: &Held) -> Option<Digest>
    ensures { result ≡ awaited_of past.now.executed admission.now.admission held.now }
{
    let mut wants = Wants::of(admission, held);
    while let Some(want) = wants.take_next() {
        if let Some(tx) = unmade_by(past, &want.maker()) {
            return Some(tx);
        }
    }
    None
}
