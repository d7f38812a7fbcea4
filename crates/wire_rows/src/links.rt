//! Whether a checkpoint goes on from the one before it.

ghost use Rattle.std.specs.Prelude.{IfSome};
ghost use Rattle.checkpoint_core.specs.Links.{HasNext};

use crate::bytes::bytes_of;
use crate::values::tell_fault;
use checkpoint_core::{Checkpoint, check_link};
use digest_core::Digest;
use std::io;
use wire_bcs::{Unread, decode};

/// What stands before a checkpoint: `none`, or a number and the byte that its digest has everywhere. The number is not
/// the greatest u64.
fn before_of(words: &str) -> Option<Option<(u64, Digest)>>
    ensures { IfSome result HasNext }
{
    if words == "none" {
        return Some(None);
    }
    let (number, byte) = words.split_once(' ')?;
    let number = number.parse::<u64>().ok()?;
    let byte = u8::from_str_radix(byte, 16).ok()?;
    if number == u64::MAX {
        return None;
    }
    Some(Some((number, Digest([byte; 32]))))
}

/// Says whether a checkpoint goes on from the one before it, or else what it had and what was wanted. A row is
/// `check_link 0 11 of BYTES` after number 0 and a digest whose bytes are 11, `check_link none of BYTES` after none.
pub(crate) fn link_of(rt: &HostRuntime, words: &str) -> io::Result<()> {
    let (before, bytes) = words.split_once(" of ").unwrap_or((words, ""));
    let (Some(before), Some(bytes)) = (before_of(before), bytes_of(rt.alloc(), bytes, &[])) else {
        return println!(rt; "no checkpoint before");
    };
    let read: Result<Checkpoint, Unread> = decode(rt.alloc(), bytes.as_slice());
    match read {
        Ok(next) => {
            let linked = check_link(before, &next);
            drop(next);
            println!(rt; "{linked:?}")
        }
        Err(why) => tell_fault(rt, why),
    }
}
