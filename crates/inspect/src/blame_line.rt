//! The line that says who is to blame for two certificates.

ghost use Rattle.std.specs.Prelude.{◌≡◌, ◌∷◌, ◌++◌, IfOk, OnOk, decimal};
ghost use Rattle.inspect.specs.Blame.{blame_line, members_text};

use crate::lines::add_number;
use std::alloc::Global;
use wire_bcs::{OutOfMemory, Seq};

/// Adds ` M`.
fn add_member(text: &mut Seq<u8>, member: u32) -> Result<(), OutOfMemory>
    ensures { OnOk result (text.new ≡ text.old ++ 32 ∷ decimal member) }
{
    text.extend(b" ".as_slice())?;
    add_number(text, u64::from(member))
}

/// Adds ` M` for each of the members.
fn add_members(text: &mut Seq<u8>, members: &[u32]) -> Result<(), OutOfMemory>
    ensures { OnOk result (text.new ≡ text.old ++ members_text members.now) }
{
    for member in members {
        add_member(text, *member)?;
    }
    Ok(())
}

/// `blame T1 T2: members M .. stake S of T`
pub(crate) fn blame_line(
    alloc: Global,
    one: &[u8],
    other: &[u8],
    members: &[u32],
    stake: u64,
    total: u64,
) -> Result<Seq<u8>, OutOfMemory>
    ensures { IfOk result (λ text. text ≡ blame_line one.now other.now members.now stake total) }
{
    let mut text = Seq::from_slice(alloc, b"blame ".as_slice())?;
    text.extend(one)?;
    text.extend(b" ".as_slice())?;
    text.extend(other)?;
    text.extend(b": members".as_slice())?;
    add_members(&mut text, members)?;
    text.extend(b" stake ".as_slice())?;
    add_number(&mut text, stake)?;
    text.extend(b" of ".as_slice())?;
    add_number(&mut text, total)?;
    text.extend(b"\n".as_slice())?;
    Ok(text)
}
