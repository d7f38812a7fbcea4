//! First theorems of every run: each event is reported; a restart, or a call that appends no record, changes no member's
//! state; the number of workers changes neither report nor journals; older records are read as the present ones.
ghost use Rattle.run_law.specs.Laws.{EachEventIsReported, NoRecordNoChange, OlderRunsAreRead, RestartKeepsStates, WorkersChangeNothing};

/// A report has at least one line for each event.
pub fn each_event_is_reported()
    ensures { EachEventIsReported }
{}

/// A restart leaves the state of every member as it was.
pub fn restart_keeps_states()
    ensures { RestartKeepsStates }
{}

/// A call that appends no record leaves the state as it was.
pub fn no_record_no_change()
    ensures { NoRecordNoChange }
{}

/// The number of workers of each run changes neither the report nor a journal.
pub fn workers_change_nothing()
    ensures { WorkersChangeNothing }
{}

/// Run records of the older form, which name no effects, give the same state as those that name them.
pub fn older_runs_are_read()
    ensures { OlderRunsAreRead }
{}
