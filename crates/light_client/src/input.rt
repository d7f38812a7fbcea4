//! Bytes that are handed in.

ghost use Rattle.std.specs.Prelude.{◌≡◌, IfOk};
ghost use Rattle.light_client.specs.Input.{Answers, input};

use crate::refusal::Refusal;
use std::alloc::Global;
use wire_bcs::{Unread, Wire, decode};

/// The most bytes of one input.
const MOST_BYTES: usize = 16_777_216;

/// The value that the bytes encode, or why they encode none.
#[tactic(auto, unfolding(crate::specs::Input::input))]
pub(crate) fn read_input<T: Wire>(alloc: Global, bytes: &[u8]) -> Result<T, Refusal>
    ensures exact { Answers result (input T.codec bytes.now) }
    // What is read is encoded so, and is a value of its type.
    ensures found { IfOk result (λ x. (bytes.now ≡ T.codec.spell x) × T.codec.fits x) }
    ensures short { IfOk result T.codec.short }
{
    if bytes.len() > MOST_BYTES {
        return Err(Refusal::TooLarge);
    }
    match decode(alloc, bytes) {
        Ok(value) => Ok(value),
        Err(Unread::Wire(fault)) => Err(Refusal::Malformed {
            at: fault.at,
            why: fault.why,
        }),
        Err(Unread::OutOfMemory) => Err(Refusal::OutOfMemory),
    }
}
