//! The records of a journal, read one after the other.

ghost use Rattle.std.specs.Prelude.{◌≡◌, ◌<◌, ◌^◌, IfOk, length};
ghost use Rattle.sui_validator.specs.Journals.{AreAll, Stays};

use crate::journal::Journal;
use outside::OutFault;
use std::alloc::Global;
use wire_bcs::Seq;

/// The records, oldest first.
#[tactic(auto, using(crate::proofs::Reading::none_read, crate::proofs::Reading::one_read, crate::proofs::Reading::same_then, crate::proofs::Reading::all_read))]
pub(crate) fn records_of<J: Journal>(
    alloc: Global,
    journal: &mut J,
) -> Result<Seq<Seq<u8>>, OutFault>
    ensures told { IfOk result (AreAll (J.records journal.old)) }
    ensures count { IfOk result (λ kept. length kept < 2 ^ 64) }
    ensures stays { Stays (J.records journal.old) (J.records journal.new) }
{
    let mut kept = Seq::new(alloc);
    let count = journal.count();
    for place in 0..count {
        let record = journal.read(place)?;
        kept.push(record)?;
    }
    Ok(kept)
}
