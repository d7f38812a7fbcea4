//! Pieces of the program's own lines, which are not lines of a report.

ghost use Rattle.std.specs.Prelude.{◌≡◌, ◌++◌, IfOk, decimal};

use itoa::Buffer;
use std::alloc::Global;
use wire_bcs::{OutOfMemory, Seq};

/// A number between two texts.
pub(crate) fn text_with_number(
    alloc: Global,
    front: &[u8],
    number: u64,
    back: &[u8],
) -> Result<Seq<u8>, OutOfMemory>
    ensures { IfOk result (λ text. text ≡ front.now ++ decimal number ++ back.now) }
{
    let mut text = Seq::from_slice(alloc, front)?;
    let mut buffer = Buffer::new();
    text.extend(buffer.format(number).as_bytes())?;
    text.extend(back)?;
    Ok(text)
}
