//! The statuses with which the programs end.

/// The program did what its words say, and the sink took all that it wrote.
pub const DONE: u8 = 0;
/// The words are not a command.
pub const BAD_WORDS: u8 = 2;
/// The source holds no schedule; one line says why.
pub const NO_SCHEDULE: u8 = 3;
/// The source failed.
pub const READ_FAULT: u8 = 4;
/// The sink failed.
pub const WRITE_FAULT: u8 = 5;
/// The keeper failed, or gave a record that is bad.
pub const KEEP_FAULT: u8 = 6;
/// Memory was refused.
pub const OUT_OF_MEMORY: u8 = 7;
/// The answer is no; one line says why.
pub const NEGATIVE: u8 = 8;
