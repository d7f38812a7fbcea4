//! What the plan of a run keeps and leaves: theorems over the definitions.

ghost use Rattle.exec_plan.specs.Planning.{KeepsTheRounds, LeavesTheLeft, TurnsAreRounds};

/// Going once over the planned certificates, in order, and executing each that is ready after those before it,
/// executes the rounds.
#[tactic(auto, using(crate::proofs::Layering::turns_are_rounds))]
pub fn layers_are_rounds()
    ensures { TurnsAreRounds }
{}

/// What is kept of the outputs of a run's plan is what the rounds execute, in the same order.
#[tactic(auto, using(crate::proofs::Carrying::keeps_rounds))]
pub fn plan_keeps_the_rounds()
    ensures { KeepsTheRounds }
{}

/// What is left of the outputs, after what is kept of them, is what the run leaves, in order of holding.
#[tactic(auto, using(crate::proofs::Remaining::leaves_left))]
pub fn plan_leaves_the_left()
    ensures { LeavesTheLeft }
{}
