//! Every member that executed the transaction which made an owned or immutable input has that input: no held certificate
//! misses one whose origin was executed.
ghost use Rattle.headline_law.specs.Cast.{EveryVoteWasCast};
ghost use Rattle.headline_law.specs.Present.{CertificatesFit, OwnedInputsArePresent, OwnedInputsFit};

/// Each vote that stands in a journal was cast after some prefix of the run, in a state in which no case refused it, and
/// names the origins that the rule gives there.
pub fn every_vote_was_cast()
    ensures { EveryVoteWasCast }
{}

/// Under the run assumptions, each owned or immutable input of a held certificate is present at every member that
/// executed its origin.
pub fn owned_inputs_are_present()
    ensures { OwnedInputsArePresent }
{}

/// Under the run assumptions, the version that is found for an owned or immutable input of a held certificate is what
/// the input says: it has the id, version and digest, and is the sender's, or immutable.
pub fn owned_inputs_fit()
    ensures { OwnedInputsFit }
{}

/// Under the run assumptions, a held certificate without shared inputs, all of whose inputs are present, is not unfit.
pub fn certificates_fit()
    ensures { CertificatesFit }
{}
