//! What a certified chain says of the checkpoints of honest members.
ghost use Rattle.headline_law.specs.Checked.{CertifiedAgrees, CertifiedAgreesInSchedules, CertifiedIsBuilt};

/// Each checkpoint of a certified chain is one that an honest member has built, if under a third of the stake is
/// faulty, no seal of an honest member in the chain is forged, and no digests of checkpoints collide.
pub fn certified_is_built()
    ensures { CertifiedIsBuilt }
{}

/// Under the run assumptions a certified chain never differs from what a member has built: at each place at which
/// both have a checkpoint, it is the same.
pub fn certified_agrees()
    ensures { CertifiedAgrees }
{}

/// [`certified_agrees`] for every run of every schedule.
pub fn certified_agrees_in_schedules()
    ensures { CertifiedAgreesInSchedules }
{}
