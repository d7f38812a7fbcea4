//! Two quorums of one committee share a member outside any set of less than a third of the stake.
ghost use Rattle.safety_law.specs.Quorums.{TwoQuorumsMeet};

/// Two quorums share a member that is not faulty, if less than a third of the stake is.
pub fn two_quorums_meet()
    ensures { TwoQuorumsMeet }
{}
