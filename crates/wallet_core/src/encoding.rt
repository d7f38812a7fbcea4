//! Encoding values whose lists may be too long.

ghost use Rattle.wallet_core.specs.Lengths.{Encodes};

use crate::lengths::Measured;
use crate::refusals::EncodeRefusal;
use std::alloc::Global;
use wire_bcs::Seq;

/// The bytes of a value, which `decode_` functions read; or that one of its lists is too long.
pub fn encode<T: Measured>(alloc: Global, value: &T) -> Result<Seq<u8>, EncodeRefusal>
    ensures { Encodes result (T.too_long value.now) (T.codec.spell value.now) }
{
    if value.is_too_long() {
        return Err(EncodeRefusal::TooLong);
    }
    Ok(wire_bcs::encode(alloc, value)?)
}
