//! Why a line, or a whole text, is not a part of a schedule.

use wire_bcs::OutOfMemory;

/// The causes, in the order in which they are tried.
#[derive(Clone, Copy, Debug, PartialEq, Eq)]
pub enum Cause {
    /// 1: more than 16,777,216 bytes.
    TooLarge,
    /// 2: no line begins with `member` and a space.
    NoMembers,
    /// 3: a byte that is not a space and not printable.
    BadByte,
    /// 4: none of the forms, numbers taken as any digits.
    BadForm,
    /// 5: a number with a leading zero, or out of the range of its place.
    BadNumber,
    /// 6: a set-up line after an event line.
    LateSetup,
    /// 7: the 65th member.
    TooManyMembers,
    /// 8: the 65,536th transaction.
    TooManyTransactions,
    /// 9: an object's name twice, or a transaction's.
    RepeatedName,
    /// 10: a transaction or an object that no earlier line made.
    UnknownName,
    /// 11: a member that no earlier line made.
    UnknownMember,
    /// 12: a faulty member although an honest one is needed, or the reverse.
    WrongRole,
    /// 13: members that do not ascend, a currency twice, or a second limit of writers.
    BadOrder,
}

impl Cause {
    ghost use Rattle.std.specs.Prelude.{◌≡◌};
    ghost use Rattle.schedule_text.specs.Cause.{number_of_cause};

    /// The number of the cause, from 1 to 13.
    pub(crate) fn number(self) -> u8
        ensures { result ≡ number_of_cause self }
    {
        match self {
            Cause::TooLarge => 1,
            Cause::NoMembers => 2,
            Cause::BadByte => 3,
            Cause::BadForm => 4,
            Cause::BadNumber => 5,
            Cause::LateSetup => 6,
            Cause::TooManyMembers => 7,
            Cause::TooManyTransactions => 8,
            Cause::RepeatedName => 9,
            Cause::UnknownName => 10,
            Cause::UnknownMember => 11,
            Cause::WrongRole => 12,
            Cause::BadOrder => 13,
        }
    }
}

/// Why a line was not read.
#[derive(Clone, Copy, Debug, PartialEq, Eq)]
pub(crate) enum LineFault {
    /// The line is not part of a schedule, for this cause.
    Bad(Cause),
    /// Memory was refused.
    OutOfMemory,
}

impl From<OutOfMemory> for LineFault {
    ghost use Rattle.std.specs.Prelude.{◌≡◌};
    ghost use Rattle.schedule_text.specs.declared.cause.LineFault.{LineFault};
    ghost use Rattle.schedule_text.specs.declared.cause.LineFault.TheVariants as fault;

    ghost from_gives = { λ _ f. f ≡ fault.OutOfMemory };

    fn from(_error: OutOfMemory) -> Self {
        LineFault::OutOfMemory
    }
}

impl From<Cause> for LineFault {
    ghost use Rattle.std.specs.Prelude.{◌≡◌};
    ghost use Rattle.schedule_text.specs.declared.cause.LineFault.TheVariants as fault;

    ghost from_gives = { λ c f. f ≡ fault.Bad c };

    fn from(cause: Cause) -> Self {
        LineFault::Bad(cause)
    }
}
