//! What an execution does to shared objects: a mutable shared input is written under its id and owner, and an object
//! becomes shared only by the transaction that creates it.
ghost use Rattle.block_law.specs.Shared.{SharedInputsAreWritten, WritesStayShared};

/// The object of a mutable shared input is written under its id and with its owner, in success and in failure.
pub fn shared_inputs_are_written()
    ensures { SharedInputsAreWritten }
{}

/// A written object that is shared stays shared since the same version, and a new one is shared since the version of the transaction,
/// if at all.
pub fn writes_stay_shared()
    ensures { WritesStayShared }
{}
