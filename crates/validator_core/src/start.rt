//! The start of a member.

ghost use Rattle.std.specs.Prelude.{◌≡◌, ◌<◌, ◌^◌, length};
ghost use Rattle.world_spec.specs.Terms.{rules_for};
ghost use Rattle.validator_core.specs.Limits.{terms_at};
ghost use Rattle.validator_core.specs.Starts.{StateAs};
ghost use Rattle.world_spec.specs.Starts.{read_record, started_from, taken_at};

use crate::state::State;
use journal_core::decode_record;
use protocol_spec::StartRefusal;
use quorum_core::{Committee, Sealer};
use wire_bcs::{Seq, Unread};

/// A record is bad because its bytes do not decode.
const BROKEN: u8 = 1;

/// A record is bad because no call would have appended it.
const UNDUE: u8 = 2;

/// Takes the record at a place.
fn take_one<S: Sealer>(
    state: &mut State,
    committee: &Committee,
    sealer: &S,
    place: u64,
    bytes: &[u8],
) -> Result<(), StartRefusal>
    ensures state { StateAs (taken_at (rules_for (terms_at state.old committee.now) (S.accepts sealer.now)) state.old.member place (read_record bytes.now)) state.new.member result }
    ensures limit { state.new.writers ≡ state.old.writers }
{
    let record = match decode_record(state.allocator(), bytes) {
        Ok(record) => record,
        Err(Unread::Wire(_)) => return Err(StartRefusal::BadRecord { place, why: BROKEN }),
        Err(Unread::OutOfMemory) => return Err(StartRefusal::OutOfMemory),
    };
    match state.take(committee, sealer, record) {
        Ok(true) => Ok(()),
        Ok(false) => Err(StartRefusal::BadRecord { place, why: UNDUE }),
        Err(_) => Err(StartRefusal::OutOfMemory),
    }
}

/// Takes records, one after the other.
#[tactic(auto, using(crate::proofs::Starting::taken_on, crate::proofs::Starting::stopped_on))]
pub(crate) fn take_all<S: Sealer>(
    state: &mut State,
    committee: &Committee,
    sealer: &S,
    kept: &[Seq<u8>],
) -> Result<(), StartRefusal>
    requires { length kept.now < 2 ^ 64 }
    ensures state { StateAs (started_from (rules_for (terms_at state.old committee.now) (S.accepts sealer.now)) state.old.member 0 kept.now) state.new.member result }
    ensures limit { state.new.writers ≡ state.old.writers }
{
    let mut place = 0;
    let mut rest = kept;
    while let [bytes, after @ ..] = rest {
        take_one(state, committee, sealer, place, bytes.as_slice())?;
        place += 1;
        rest = after;
    }
    Ok(())
}
