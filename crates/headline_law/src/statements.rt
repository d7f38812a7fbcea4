//! The state in which an honest member acknowledged a transaction, or stated its End.
ghost use Rattle.headline_law.specs.Stated.{EveryAckWasExecuted, EveryEndWasSettled, EveryStatementWasMade, ExecutedIsAdmitted};

/// Each statement of an honest member was made by a call in a state in which the member was.
pub fn every_statement_was_made()
    ensures { EveryStatementWasMade }
{}

/// An honest member had executed what it acknowledged, with these effects.
pub fn every_ack_was_executed()
    ensures { EveryAckWasExecuted }
{}

/// An honest member that stated that its epoch is to end had closed, and all that it held was in the sequence.
pub fn every_end_was_settled()
    ensures { EveryEndWasSettled }
{}

/// Under the run assumptions, all that a member in such a state has executed it has admitted: so nothing that it
/// executed is lost when the epoch ends.
pub fn executed_is_admitted()
    ensures { ExecutedIsAdmitted }
{}
