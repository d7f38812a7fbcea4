//! Requests that a member answers without a record.

ghost use Rattle.std.specs.Prelude.{◌≡◌, IfOk, OnErr, is_ok, true};
ghost use Rattle.protocol_spec.specs.Member.Calls.{ack_answer, end_answer};
ghost use Rattle.world_spec.specs.Seats.{rules_of_seat};
ghost use Rattle.world_lines.specs.Answers.{stated_as};

use chain_messages::Sealed;
use digest_core::Digest;
use protocol_spec::{AckRefusal, EndRefusal};
use quorum_core::Sealer;
use validator_core::Validator;
use wire_bcs::OutOfMemory;

/// What a member that is up says of its End. Memory is needed only for an End.
pub(crate) fn ask_end<S: Sealer>(
    validator: &Validator,
    sealer: &S,
) -> Result<Result<Sealed, EndRefusal>, OutOfMemory>
    requires up { validator.now.up ≡ true }
    ensures answer { IfOk result (λ answer. stated_as answer ≡ end_answer (rules_of_seat validator.now (S.accepts sealer.now)) validator.now.state) }
    ensures able { OnErr result (is_ok (end_answer (rules_of_seat validator.now (S.accepts sealer.now)) validator.now.state) ≡ true) }
{
    match validator.end(sealer) {
        Err(EndRefusal::OutOfMemory) => Err(OutOfMemory),
        Ok(sealed) => Ok(Ok(sealed)),
        Err(EndRefusal::Down) => Ok(Err(EndRefusal::Down)),
        Err(EndRefusal::Halted { first, second }) => {
            Ok(Err(EndRefusal::Halted { first, second }))
        }
        Err(EndRefusal::NotClosed) => Ok(Err(EndRefusal::NotClosed)),
        Err(EndRefusal::Waits { tx }) => Ok(Err(EndRefusal::Waits { tx })),
    }
}

/// What a member that is up says of a transaction that it may have executed. Memory is needed only for an acknowledgement.
pub(crate) fn ask_ack<S: Sealer>(
    validator: &Validator,
    sealer: &S,
    tx: &Digest,
) -> Result<Result<Sealed, AckRefusal>, OutOfMemory>
    requires up { validator.now.up ≡ true }
    ensures answer { IfOk result (λ answer. stated_as answer ≡ ack_answer (rules_of_seat validator.now (S.accepts sealer.now)) validator.now.state tx.now) }
    ensures able { OnErr result (is_ok (ack_answer (rules_of_seat validator.now (S.accepts sealer.now)) validator.now.state tx.now) ≡ true) }
{
    match validator.ack(sealer, tx) {
        Err(AckRefusal::OutOfMemory) => Err(OutOfMemory),
        Ok(sealed) => Ok(Ok(sealed)),
        Err(AckRefusal::Down) => Ok(Err(AckRefusal::Down)),
        Err(AckRefusal::Halted { first, second }) => {
            Ok(Err(AckRefusal::Halted { first, second }))
        }
        Err(AckRefusal::NotExecuted) => Ok(Err(AckRefusal::NotExecuted)),
    }
}
