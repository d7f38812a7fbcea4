//! The lives of one member on one file, however they end.
ghost use Rattle.lives_law.specs.Lives.{LivesLaw};

/// Over any lives of a member on one list of records, each ended by the end of its input, by a fault or by a crash:
/// the votes that were answered stand in the last file, no two of one epoch for different digests consume a common
/// version, and no End or acknowledgement is contradicted.
pub fn lives_law()
    ensures { LivesLaw }
{}
