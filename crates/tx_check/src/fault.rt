//! What can be wrong with the shape of a transaction.

/// The faults that [`crate::ShapeRefusal::Invalid`] lists, in the order in which they are tried.
#[derive(Clone, Copy)]
pub(crate) enum ShapeFault {
    TooLong,
    NoCommands,
    TooManyCommands,
    TooManyInputs,
    RepeatedId,
    NoInput,
    LateResult,
    Idle,
    NoNative,
    Poor,
    BadVersion,
    TooManyArguments,
}

impl ShapeFault {
    ghost use Rattle.std.specs.Prelude.{◌≡◌};
    ghost use Rattle.tx_check.specs.Answers.{number_of_fault};

    /// The number of the fault, from 1 to 12.
    pub(crate) fn number(self) -> u8
        ensures { result ≡ number_of_fault self }
    {
        match self {
            ShapeFault::TooLong => 1,
            ShapeFault::NoCommands => 2,
            ShapeFault::TooManyCommands => 3,
            ShapeFault::TooManyInputs => 4,
            ShapeFault::RepeatedId => 5,
            ShapeFault::NoInput => 6,
            ShapeFault::LateResult => 7,
            ShapeFault::Idle => 8,
            ShapeFault::NoNative => 9,
            ShapeFault::Poor => 10,
            ShapeFault::BadVersion => 11,
            ShapeFault::TooManyArguments => 12,
        }
    }
}
