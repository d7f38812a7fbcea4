//! Lines, part by part.

ghost use Rattle.std.specs.Prelude.{◌≡◌, ◌++◌, OnOk, decimal};
ghost use Rattle.std.specs.List.{flat_map};
ghost use Rattle.schedule_make.specs.Parts.{part_text};

use itoa::Buffer;
use wire_bcs::{OutOfMemory, Seq};

/// A part of a line: bytes as they stand, or a number in decimal digits.
#[derive(Clone, Copy)]
pub(crate) enum Part<'a> {
    Text(&'a [u8]),
    Number(u32),
}

fn print_part(out: &mut Seq<u8>, part: Part<'_>) -> Result<(), OutOfMemory>
    ensures { OnOk result (out.new ≡ out.old ++ part_text part.entry) }
{
    match part {
        Part::Text(text) => out.extend(text),
        Part::Number(number) => {
            let mut buffer = Buffer::new();
            out.extend(buffer.format(number).as_bytes())
        }
    }
}

/// Appends the parts, one after another.
pub(crate) fn print(out: &mut Seq<u8>, parts: &[Part<'_>]) -> Result<(), OutOfMemory>
    ensures { OnOk result (out.new ≡ out.old ++ flat_map part_text parts.now) }
{
    for part in parts {
        print_part(out, *part)?;
    }
    Ok(())
}
