//! Schedules and their texts: a schedule is read back from its canonical text, so the grammar is neither empty nor
//! ambiguous; and the generator's text is the text of a schedule.
ghost use Rattle.run_law.specs.TextLaws.{CanonicalTextReadsBack, GeneratedTextIsASchedule, WhatIsReadCanBeSaid, WhatIsReadReadsBack};

/// A schedule that a text can say is read back from its canonical text.
pub fn canonical_text_reads_back()
    ensures { CanonicalTextReadsBack }
{}

/// A schedule that is read is one that a text can say: its words have their forms and ranges, and its lines may follow
/// one another.
pub fn what_is_read_can_be_said()
    ensures { WhatIsReadCanBeSaid }
{}

/// A schedule that is read from any text is read back from its canonical text too.
pub fn what_is_read_reads_back()
    ensures { WhatIsReadReadsBack }
{}

/// What the generator writes is a schedule, with the set-up and the events that it means.
pub fn generated_text_is_a_schedule()
    ensures { GeneratedTextIsASchedule }
{}
