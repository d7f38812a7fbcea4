//! Why a link of a chain is bad.

/// The causes that [`crate::ChainRefusal::Bad`] lists, in the order in which they are tried.
#[derive(Clone, Copy, Debug)]
pub(crate) enum LinkCause {
    WrongNumber,
    WrongParent,
    WrongEpoch,
    Order,
    ShortStake,
    BadSeal,
}

impl LinkCause {
    ghost use Rattle.std.specs.Prelude.{◌≡◌};
    ghost use Rattle.light_check.specs.Causes.{number_of_cause};

    /// The number of the cause, from 1 to 6.
    pub(crate) fn number(self) -> u8
        ensures { result ≡ number_of_cause self }
    {
        match self {
            LinkCause::WrongNumber => 1,
            LinkCause::WrongParent => 2,
            LinkCause::WrongEpoch => 3,
            LinkCause::Order => 4,
            LinkCause::ShortStake => 5,
            LinkCause::BadSeal => 6,
        }
    }
}
