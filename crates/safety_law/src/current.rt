//! What a member executes of its sequence, under the run assumptions, is what one thread executes when it goes over the
//! admitted transactions in order.
ghost use Rattle.safety_law.specs.Same.{ExecutionsSame};
ghost use Rattle.safety_law.specs.Steps.{ExecutedIsStep, VersionsSame};
ghost use Rattle.safety_law.specs.Orderly.{EpochsOpenApart, SetUpApart, StepsOrderly};
ghost use Rattle.safety_law.specs.Thread.{EffectsOfFold};
ghost use Rattle.safety_law.specs.Checkpointed.{CheckpointsOfFold, TurnsToFold};

/// Under the run assumptions, two members of one epoch that opened it with equal objects give the same for each
/// transaction that both executed.
pub fn executions_same()
    ensures { ExecutionsSame }
{}

/// An admitted transaction that a member executed was executed on the objects that its certificate wants.
pub fn executed_is_step()
    ensures { ExecutedIsStep }
{}

/// An admitted transaction that a member executed was executed at the version with which it was admitted.
pub fn versions_same()
    ensures { VersionsSame }
{}

/// The set-up of a schedule opens with objects of different ids.
pub fn set_up_apart()
    ensures { SetUpApart }
{}

/// From such a set-up every epoch of every member opens with objects of different ids, none of which a transaction of
/// that epoch can draw.
pub fn epochs_open_apart()
    ensures { EpochsOpenApart }
{}

/// A member's executions of the transactions that it admitted first, in the order of admission, are orderly steps.
pub fn steps_orderly()
    ensures { StepsOrderly }
{}

/// The effects of the transactions that a member admitted first and executed, and their items in checkpoints, are
/// those of one thread that executes them in order.
pub fn effects_of_fold()
    ensures { EffectsOfFold }
{}

/// So the effects and items in the checkpoints that a member has built are those of one thread that executes the
/// transactions of its cuts in order.
pub fn checkpoints_of_fold()
    ensures { CheckpointsOfFold }
{}

/// A member that turns with all its checkpoints built opens the next epoch with what that one thread leaves; what stands
/// in no checkpoint leaves no trace.
pub fn turns_to_fold()
    ensures { TurnsToFold }
{}
