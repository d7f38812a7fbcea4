//! Under the run assumptions, what a quorum acknowledged is never undone.
ghost use Rattle.headline_law.specs.Final.{FinalIsAgreed, FinalOnce, FinalStands, FinalStandsInSchedules};

/// A transaction whose effects a quorum acknowledged, which may include faulty members, stands with these effects in a
/// checkpoint of its epoch at every member that left the epoch, and no checkpoint of the epoch there has it with
/// others. It does not matter whether the quorum acknowledged it before the member left the epoch or after.
pub fn final_stands()
    ensures { FinalStands }
{}

/// [`final_stands`] for every run of every schedule.
pub fn final_stands_in_schedules()
    ensures { FinalStandsInSchedules }
{}

/// Every member that has executed a transaction whose effects a quorum acknowledged has it with these effects, in that
/// epoch already.
pub fn final_is_agreed()
    ensures { FinalIsAgreed }
{}

/// No two quorums acknowledged different effects of one transaction, nor one transaction in different epochs.
pub fn final_once()
    ensures { FinalOnce }
{}
