//! Where a native is called.

ghost use Rattle.std.specs.Prelude.{◌<◌};

use digest_core::Digest;

/// Where a native is called: the transaction, the version at which it writes, and the number of the
/// next creation, which is far below the greatest u32.
#[derive(Clone, Copy)]
pub(crate) struct Place {
    pub(crate) tx: Digest,
    pub(crate) version: u64,
    pub(crate) made: u32,
    ghost few: { made < 2147483648 },
}
