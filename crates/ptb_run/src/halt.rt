//! Why a block stops.

ghost use Rattle.std.specs.Prelude.{◌≡◌};
ghost use Rattle.ptb_run.specs.declared.halt.Failed.TheVariants as failed;
ghost use Rattle.ptb_run.specs.declared.halt.Halt.TheVariants as halt;

use wire_bcs::OutOfMemory;

/// Why a command fails, if no native aborts it.
#[derive(Clone, Copy)]
pub(crate) enum Cause {
    /// 1: an earlier command used the value up.
    Spent,
    /// 2: there is no such result, or the command that is named did not give exactly one result.
    NoResult,
    /// 3: the length of bytes is not that of the number or the address that is needed.
    BadPure,
    /// 4: a value is not of the kind that is needed.
    WrongKind,
    /// 5: something that can only be lent is taken by value.
    OnlyLent,
    /// 6: something that can only be read would be changed.
    ReadOnly,
    /// 7: an earlier argument names the value.
    Aliased,
    /// 8: a split of more than the coin shows.
    TooLittle,
    /// 9: the sum of a merge is not an amount.
    Overflow,
    /// 10: a merge of coins of different currencies.
    OtherCurrency,
    /// 11: a call has more or fewer arguments than its native has parameters.
    WrongCount,
    /// 12: a result is left at the end.
    Unused,
}

impl Cause {
    ghost use Rattle.ptb_run.specs.Causes.{number_of_cause};

    /// The number of the cause, from 1 to 12.
    pub(crate) fn number(self) -> u8
        ensures { result ≡ number_of_cause self }
    {
        match self {
            Cause::Spent => 1,
            Cause::NoResult => 2,
            Cause::BadPure => 3,
            Cause::WrongKind => 4,
            Cause::OnlyLent => 5,
            Cause::ReadOnly => 6,
            Cause::Aliased => 7,
            Cause::TooLittle => 8,
            Cause::Overflow => 9,
            Cause::OtherCurrency => 10,
            Cause::WrongCount => 11,
            Cause::Unused => 12,
        }
    }
}

/// Why a command fails.
#[derive(Clone, Copy)]
pub(crate) enum Fault {
    Cause(Cause),
    /// The code with which a native aborts.
    Abort(u8),
}

/// Why a command does not go on.
#[derive(Clone, Copy)]
pub(crate) enum Halt {
    Fault(Fault),
    OutOfMemory,
}

impl From<OutOfMemory> for Halt {
    ghost from_gives = { λ _ given. given ≡ halt.OutOfMemory };

    fn from(_error: OutOfMemory) -> Self {
        Halt::OutOfMemory
    }
}

/// Why a block does not end well.
#[derive(Clone, Copy)]
pub(crate) enum Failed {
    /// The command of this number fails. A fault at the end of the block has the count of the commands as its number.
    At { command: u16, fault: Fault },
    OutOfMemory,
}

impl From<OutOfMemory> for Failed {
    ghost from_gives = { λ _ given. given ≡ failed.OutOfMemory };

    fn from(_error: OutOfMemory) -> Self {
        Failed::OutOfMemory
    }
}
