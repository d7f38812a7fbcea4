//! What the sequence of an epoch gives to all members alike: in every run, of two members of one epoch that opened it
//! with equal objects, one has admitted and cut a prefix of what the other has.
ghost use Rattle.safety_law.specs.Alike.{ExecutionsAgree, OneTransaction};
ghost use Rattle.safety_law.specs.Explained.{ExecutionsExplained};
ghost use Rattle.safety_law.specs.Agreed.{EveryAdmission, HeldAsGiven, MembersFollowTheSequence, OneSequence};

/// What a member has of its sequence is what the first entries of the world's sequence of its epoch give.
pub fn members_follow_the_sequence()
    ensures { MembersFollowTheSequence }
{}

/// Of two members of one epoch with equal opening objects, the admitted transactions and the cuts of the one are
/// prefixes of those of the other.
pub fn one_sequence()
    ensures { OneSequence }
{}

/// What a member admitted is in order: distinct, each after its origins, with the versions that admission assigns
/// there; and each was delivered in the run, is valid and of the member's epoch.
pub fn every_admission()
    ensures { EveryAdmission }
{}

/// Each certificate that a member holds was delivered in the run, is valid and of the member's epoch.
pub fn held_as_given()
    ensures { HeldAsGiven }
{}

/// Each execution of a member is that of a certificate that it holds, on the objects that the certificate wants, which
/// were there and fit it.
pub fn executions_explained()
    ensures { ExecutionsExplained }
{}

/// If the certificates of one digest are alike, two members of one epoch that opened it with equal objects give the
/// same for each transaction that both executed, in whatever order they executed.
pub fn executions_agree()
    ensures { ExecutionsAgree }
{}

/// Under the run assumptions, certificates of one digest have one transaction, at whichever members they are held.
pub fn one_transaction()
    ensures { OneTransaction }
{}
