//! Different transactions have different encodings, and so do statements and records: what is signed or kept
//! names one value.
ghost use Rattle.run_law.specs.Spellings.{TransactionsAreSpelledApart};

/// Different transactions, statements and records have different encodings.
pub fn transactions_are_spelled_apart()
    ensures { TransactionsAreSpelledApart }
{}
