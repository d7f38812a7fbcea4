//! What the report says of finality and of runs, and what it never says.
ghost use Rattle.headline_law.specs.Alarms.{ReportsAreCalm};
ghost use Rattle.headline_law.specs.Executing.{ReadyIsAlwaysExecuted};
ghost use Rattle.headline_law.specs.Printed.{PrintedIsFinal, ReadReportsHold, ReportedStands};

/// If a `final` line of a schedule says that a transaction is final by some members, these acknowledged one effects
/// digest of it, in its epoch, and are a quorum.
pub fn printed_is_final()
    ensures { PrintedIsFinal }
{}

/// Under the run assumptions each `final by` line of the report holds for good, if its members ascend and are known.
pub fn reported_stands()
    ensures { ReportedStands }
{}

/// Under the run assumptions each `final by` line of the report of a schedule that a text says holds for good,
/// whatever its members are.
pub fn read_reports_hold()
    ensures { ReadReportsHold }
{}

/// Under the run assumptions no line of the report says that a member met two certificates that consume one version, that
/// it is halted, that a run left a version absent or a certificate unfit, or that a record that was read back is bad.
pub fn reports_are_calm()
    ensures { ReportsAreCalm }
{}

/// In every run, whichever members are faulty: a `run` line executes all that its member holds and that is ready before the
/// line or after some of its rounds, and the report has the effects. The exception is a certificate that writes a key
/// which an earlier held certificate writes in the same round.
pub fn ready_is_always_executed()
    ensures { ReadyIsAlwaysExecuted }
{}
