//! Schedules that a text says: all that a run of one makes can be encoded, so without lines that hand over bytes as a
//! certificate no statement is forged.
ghost use Rattle.run_law.specs.HonestTexts.{NothingReadIsForged, ReadRunsAreSpellable, ReadTransactionsAreSpellable};

/// Each transaction that a read schedule makes is a value of its Rust type, and short enough to be encoded.
pub fn read_transactions_are_spellable()
    ensures { ReadTransactionsAreSpellable }
{}

/// Each certificate that the run of a read schedule forms, and each entry that it orders, is such a value too.
pub fn read_runs_are_spellable()
    ensures { ReadRunsAreSpellable }
{}

/// Without lines that hand over bytes as a certificate, no statement in the run of a read schedule is forged. It is said of
/// keyed seals, which have 32 bytes: a certificate that collects a seal of another length is not read back as itself.
pub fn nothing_read_is_forged()
    ensures { NothingReadIsForged }
{}
