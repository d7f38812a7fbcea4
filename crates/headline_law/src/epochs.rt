//! What ends an epoch, and what its sequence holds.
ghost use Rattle.headline_law.specs.Ended.{CountedIsStated, EndsAreWhole, NothingFreeWaits};

/// In what a member has seen of a sequence no pending certificate is free: each waits for an origin that is not admitted,
/// or for room under the limit of writers.
pub fn nothing_free_waits()
    ensures { NothingFreeWaits }
{}

/// At the end of an epoch the checkpoints hold all that was admitted, and those whose End was counted are a quorum.
pub fn ends_are_whole()
    ensures { EndsAreWhole }
{}

/// If no statement is forged, each honest member whose End was counted stated it.
pub fn counted_is_stated()
    ensures { CountedIsStated }
{}
