//! The lives of the processes of one member on one file.
ghost use Rattle.validator_process.specs.FirstStart.{MadeStarts};
ghost use Rattle.validator_process.specs.Handing.{KeptFirst};
ghost use Rattle.validator_process.specs.Living.{ProcessesLive};
ghost use Rattle.validator_process.specs.Staying.{HeadStays, MadeLeavesHead};

/// Processes of one member run one after the other on one file, each until the end of its input, a fault, or a crash
/// after its last call. The calls that they answered are those of lives of the member, so none of their answers is
/// taken back.
pub fn processes_live()
    ensures { ProcessesLive }
{}

/// After an `init` that ended with status 0, even if a crash followed it, the next process finds the journal of its
/// member and set-up, and no line refuses the start: it says `ready`, or a fault or running out of memory stops it.
pub fn made_starts()
    ensures { MadeStarts }
{}

/// Once the head of a member's journal is in the file for good, each later process of that member and set-up finds it
/// and leaves it there, even if a crash follows. An `init` that ended with status 0 leaves it, so no later start says
/// that the file is not a journal, or is another one.
pub fn head_stays()
    ensures made { MadeLeavesHead }
    ensures stays { HeadStays }
{}

/// When an answer is handed to the sink, the records on which it rests stand in each file that a crash may leave then.
/// The claim is stated for a process whose sink fails at that answer, at its first byte or later.
pub fn kept_first()
    ensures { KeptFirst }
{}
