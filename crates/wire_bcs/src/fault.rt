//! Why bytes are not read.

ghost use Rattle.std.specs.Prelude.{◌≡◌};
ghost use Rattle.wire_bcs.specs.declared.fault.Unread.TheVariants as unread;

use crate::seq::OutOfMemory;
use std::{error, fmt};

/// What is wrong with an item. The definitions name the kinds by their numbers.
#[derive(Clone, Copy)]
pub enum FaultKind {
    /// 1: the input ends inside the item.
    Short,
    /// 2: a bool byte is neither 0 nor 1.
    BadBool,
    /// 3: a ULEB128 of more than one byte ends in a zero byte.
    LongUleb,
    /// 4: the fifth byte of a ULEB128 is above `0x0f`.
    LargeUleb,
    /// 5: a length is above 2147483647.
    LargeLength,
    /// 6: there is no variant of this number.
    NoVariant,
    /// 7: bytes are left over.
    LeftOver,
    /// 8: the bytes of a text are not UTF-8.
    NotUtf8,
}

impl FaultKind {
    ghost use Rattle.wire_bcs.specs.Place.{number_of_kind};

    /// The number of the kind, from 1 to 8.
    pub(crate) fn number(self) -> u8
        ensures { result ≡ number_of_kind self }
    {
        match self {
            FaultKind::Short => 1,
            FaultKind::BadBool => 2,
            FaultKind::LongUleb => 3,
            FaultKind::LargeUleb => 4,
            FaultKind::LargeLength => 5,
            FaultKind::NoVariant => 6,
            FaultKind::LeftOver => 7,
            FaultKind::NotUtf8 => 8,
        }
    }
}

/// The first fault of bytes that are not an encoding: `at` is the offset of its item's first byte, `why` the number of
/// its [`FaultKind`].
#[derive(Clone, Copy, Debug, PartialEq, Eq)]
pub struct WireFault {
    pub at: u64,
    pub why: u8,
}

/// Why a value was not read.
#[derive(Clone, Copy, Debug, PartialEq, Eq)]
pub enum Unread {
    Wire(WireFault),
    OutOfMemory,
}

impl fmt::Display for WireFault {
    fn fmt<W: fmt::Write>(&self, f: &mut fmt::Formatter<W>) -> fmt::Result {
        write!(
            f,
            "the bytes are wrong at offset {} (kind {})",
            self.at, self.why
        )
    }
}

impl fmt::Display for Unread {
    fn fmt<W: fmt::Write>(&self, f: &mut fmt::Formatter<W>) -> fmt::Result {
        match *self {
            Unread::Wire(fault) => write!(f, "{fault}"),
            Unread::OutOfMemory => write!(f, "{OutOfMemory}"),
        }
    }
}

impl error::Error for WireFault {}

impl error::Error for Unread {}

impl From<WireFault> for Unread {
    ghost from_gives = { λ fault error. error ≡ unread.Wire fault };

    fn from(fault: WireFault) -> Self {
        Unread::Wire(fault)
    }
}

impl From<OutOfMemory> for Unread {
    ghost from_gives = { λ _ error. error ≡ unread.OutOfMemory };

    fn from(_error: OutOfMemory) -> Self {
        Unread::OutOfMemory
    }
}
