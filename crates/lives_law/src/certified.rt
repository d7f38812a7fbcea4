//! Two certificates over the lives of the members of a committee.
ghost use Rattle.lives_law.specs.Certified.{OneOwnerOverLives};

/// If less than a third of the stake is faulty, two valid certificates of one epoch that consume one version are of one
/// transaction, whatever the members were asked: each member that is not faulty answered the votes under its seals in one
/// of its lives, and voted for no other transaction with the digest of either.
pub fn one_owner_over_lives()
    ensures { OneOwnerOverLives }
{}
