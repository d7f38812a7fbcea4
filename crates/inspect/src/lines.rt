//! The lines that say why there is no chain.

ghost use Rattle.std.specs.Prelude.{◌≡◌, ◌++◌, IfOk, OnOk, decimal};
ghost use Rattle.inspect.specs.Chain.{nobody_text, unsealed_text};

use itoa::Buffer;
use std::alloc::Global;
use wire_bcs::{OutOfMemory, Seq};

/// Adds the decimal digits of a number.
pub(crate) fn add_number(text: &mut Seq<u8>, number: u64) -> Result<(), OutOfMemory>
    ensures { OnOk result (text.new ≡ text.old ++ decimal number) }
{
    let mut buffer = Buffer::new();
    text.extend(buffer.format(number).as_bytes())
}

/// `inspect chain M: no honest member that is up`
pub(crate) fn nobody_line(alloc: Global, member: u64) -> Result<Seq<u8>, OutOfMemory>
    ensures { IfOk result (λ text. text ≡ nobody_text member) }
{
    let mut text = Seq::from_slice(alloc, b"inspect chain ".as_slice())?;
    add_number(&mut text, member)?;
    text.extend(b": no honest member that is up".as_slice())?;
    text.extend(b"\n".as_slice())?;
    Ok(text)
}

/// `inspect chain M: no seal of member K on checkpoint N`
pub(crate) fn unsealed_line(
    alloc: Global,
    member: u64,
    sealer: u64,
    number: u64,
) -> Result<Seq<u8>, OutOfMemory>
    ensures { IfOk result (λ text. text ≡ unsealed_text member sealer number) }
{
    let mut text = Seq::from_slice(alloc, b"inspect chain ".as_slice())?;
    add_number(&mut text, member)?;
    text.extend(b": no seal of member ".as_slice())?;
    add_number(&mut text, sealer)?;
    text.extend(b" on checkpoint ".as_slice())?;
    add_number(&mut text, number)?;
    text.extend(b"\n".as_slice())?;
    Ok(text)
}
