//! What a member's journal gives back: a start from it finds no bad record, and gives the member's state.
ghost use Rattle.safety_law.specs.Replayed.{NoRecordIsBad};

/// In every run, a start from a member's records finds none that is bad, and gives the state in which the member was.
pub fn no_record_is_bad()
    ensures { NoRecordIsBad }
{}
