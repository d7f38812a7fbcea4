//! The lines of members and of their objects.

ghost use Rattle.std.specs.Prelude.{◌≡◌, ◌++◌, IfOk, OnOk};
ghost use Rattle.inspect.specs.StateLines.{absent_text, down_line, faulty_line, no_line_text, shown_line, standing_line};

use crate::lines::add_number;
use chain_types::Object;
use report_text::print_line;
use std::alloc::Global;
use wire_bcs::{OutOfMemory, Seq};
use world_lines::{Directory, object_line};

/// `member M: down`
fn down_line(alloc: Global, member: u32) -> Result<Seq<u8>, OutOfMemory>
    ensures { IfOk result (λ text. text ≡ down_line member) }
{
    let mut text = Seq::from_slice(alloc, b"member ".as_slice())?;
    add_number(&mut text, u64::from(member))?;
    text.extend(b": down".as_slice())?;
    text.extend(b"\n".as_slice())?;
    Ok(text)
}

/// `member M: faulty`
fn faulty_line(alloc: Global, member: u32) -> Result<Seq<u8>, OutOfMemory>
    ensures { IfOk result (λ text. text ≡ faulty_line member) }
{
    let mut text = Seq::from_slice(alloc, b"member ".as_slice())?;
    add_number(&mut text, u64::from(member))?;
    text.extend(b": faulty".as_slice())?;
    text.extend(b"\n".as_slice())?;
    Ok(text)
}

/// The line of a member that is not honest and up, by whether it is honest.
pub(crate) fn absent_line(alloc: Global, member: u32, honest: bool) -> Result<Seq<u8>, OutOfMemory>
    ensures { IfOk result (λ text. text ≡ absent_text member honest) }
{
    if honest {
        down_line(alloc, member)
    } else {
        faulty_line(alloc, member)
    }
}

/// `member M: epoch E entries N checkpoints C objects K`
pub(crate) fn standing_line(
    alloc: Global,
    member: u32,
    epoch: u64,
    entries: u64,
    checkpoints: u64,
    objects: u64,
) -> Result<Seq<u8>, OutOfMemory>
    ensures { IfOk result (λ text. text ≡ standing_line member epoch entries checkpoints objects) }
{
    let mut text = Seq::from_slice(alloc, b"member ".as_slice())?;
    add_number(&mut text, u64::from(member))?;
    text.extend(b": epoch ".as_slice())?;
    add_number(&mut text, epoch)?;
    text.extend(b" entries ".as_slice())?;
    add_number(&mut text, entries)?;
    text.extend(b" checkpoints ".as_slice())?;
    add_number(&mut text, checkpoints)?;
    text.extend(b" objects ".as_slice())?;
    add_number(&mut text, objects)?;
    text.extend(b"\n".as_slice())?;
    Ok(text)
}

/// Adds the line of an object, as `show` writes it.
pub(crate) fn add_shown(
    text: &mut Seq<u8>,
    names: &Directory,
    object: &Object,
) -> Result<(), OutOfMemory>
    ensures { OnOk result (text.new ≡ text.old ++ shown_line names.now object.now) }
{
    let line = object_line(names, object)?;
    let printed = print_line(&line, text);
    drop(line);
    printed
}

/// `inspect states L: no such line`
pub(crate) fn no_line_text(alloc: Global, line: u64) -> Result<Seq<u8>, OutOfMemory>
    ensures { IfOk result (λ text. text ≡ no_line_text line) }
{
    let mut text = Seq::from_slice(alloc, b"inspect states ".as_slice())?;
    add_number(&mut text, line)?;
    text.extend(b": no such line".as_slice())?;
    text.extend(b"\n".as_slice())?;
    Ok(text)
}
