//! Under the run assumptions a held certificate is ready once its inputs are present, or its origins and assigned writers
//! were executed, shared inputs included. So a run executes all that was admitted, and leaves nothing.
ghost use Rattle.headline_law.specs.Complete.{DueIsReady, NextRoundTakesAll, NextRoundTakesDue, NothingClashes, PresentIsReady, WritesNewKeys};
ghost use Rattle.headline_law.specs.Ready.{NoneIsUnfit, SharedInputsArePresent, SharedInputsFit};
ghost use Rattle.headline_law.specs.Runs.{NoRunLeavesAnything, NoTurnWaitsBehindARun, NothingIsLeft, NothingIsReadyBehindARun, RunsAreComplete, RunsBuildAll, RunsExecuteAdmitted, RunsExecuteAll, RunsExecuteReady, WhatIsReadyIsExecuted};
ghost use Rattle.headline_law.specs.Shared.{VersionsAreSharedAlike};

/// Under the run assumptions, all versions of one object in an epoch are shared since the same version, or none is, at
/// all members.
pub fn versions_are_shared_alike()
    ensures { VersionsAreSharedAlike }
{}

/// The version that admission assigned to a shared input is there, at each member that executed its writer.
pub fn shared_inputs_are_present()
    ensures { SharedInputsArePresent }
{}

/// What is found for a shared input of a held certificate has its id, and is shared since the version that it says.
pub fn shared_inputs_fit()
    ensures { SharedInputsFit }
{}

/// No held certificate is unfit: if all that it wants is there, and it is admitted if it has a shared input, the
/// objects fit its transaction.
pub fn none_is_unfit()
    ensures { NoneIsUnfit }
{}

/// Of a held certificate that was not executed, whose inputs are present, and that is admitted if it has a shared input,
/// no written key is there already, and none is written twice.
pub fn writes_new_keys()
    ensures { WritesNewKeys }
{}

/// Such a certificate is ready: a certified transaction waits for its inputs and its place in the sequence, and for
/// nothing else.
pub fn present_is_ready()
    ensures { PresentIsReady }
{}

/// A held certificate that was not executed, although all its origins and assigned writers were, has all its inputs, and
/// is ready.
pub fn due_is_ready()
    ensures { DueIsReady }
{}

/// No two certificates that have their inputs and their admission write one key, whether they were executed or not, so
/// that none waits for another's round.
pub fn nothing_clashes()
    ensures { NothingClashes }
{}

/// The next round executes each certificate that is ready.
pub fn next_round_takes_all()
    ensures { NextRoundTakesAll }
{}

/// The next round executes each certificate that is due: a transaction is executed one round after the last of those
/// that it comes from.
pub fn next_round_takes_due()
    ensures { NextRoundTakesDue }
{}

/// After the rounds of a run nothing is ready, whatever is held and was executed.
pub fn nothing_is_ready_behind_a_run()
    ensures { NothingIsReadyBehindARun }
{}

/// A run executes whatever is ready before it or after some of its rounds, except a certificate that writes a key which
/// an earlier held certificate writes in the same round. This is so whatever is held and was executed.
pub fn what_is_ready_is_executed()
    ensures { WhatIsReadyIsExecuted }
{}

/// A member that is not halted, and has room for a record, executes in a run all that is ready then or after some of
/// its rounds (except what is kept out as above), and its answer names it. No run assumption is needed.
pub fn runs_are_complete()
    ensures { RunsAreComplete }
{}

/// Under the run assumptions nothing is kept out of its round: a run executes all that is ready before it, or after some
/// of its rounds.
pub fn runs_execute_ready()
    ensures { RunsExecuteReady }
{}

/// Under the run assumptions, a member at which nothing is ready has nothing left to report.
pub fn nothing_is_left()
    ensures { NothingIsLeft }
{}

/// Under the run assumptions no run leaves anything, at any member and moment: no answer of a run says that a version
/// is absent, or that a certificate is unfit.
pub fn no_run_leaves_anything()
    ensures { NoRunLeavesAnything }
{}

/// A run executes every held certificate whose origins and assigned writers are executed by it, if it is admitted or has
/// no shared input; so no certified transaction is stuck.
pub fn runs_execute_all()
    ensures { RunsExecuteAll }
{}

/// So a run executes all that the member admitted: once a transaction is admitted there, its effects are known after the next
/// run of any honest member that has seen as much of the sequence.
pub fn runs_execute_admitted()
    ensures { RunsExecuteAdmitted }
{}

/// A run builds the checkpoint of every cut that the member has seen.
pub fn runs_build_all()
    ensures { RunsBuildAll }
{}

/// So after a run no turn is refused because a certificate waits: nothing that a member admitted keeps it in its epoch.
pub fn no_turn_waits_behind_a_run()
    ensures { NoTurnWaitsBehindARun }
{}
