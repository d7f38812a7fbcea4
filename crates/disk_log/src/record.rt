//! A record in the file.

ghost use Rattle.std.specs.Prelude.{◌≡◌, ◌+◌, ◌<◌, ◌≤◌, ◌^◌, length, IfOk, OnOk};
ghost use Rattle.outside.specs.Causes.{KeepCause};
ghost use Rattle.disk_log.specs.Disk.{IfTold};
ghost use Rattle.disk_log.specs.Log.{IsAtGate, Recorded};
ghost use Rattle.disk_log.specs.Records.{body_of};

use crate::disk::Disk;
use crate::put::put;
use outside::OutFault;
use std::alloc::Global;
use wire_bcs::{OutOfMemory, Seq};

/// What stands after the gate of a record: the length of its bytes and the member, 4 bytes each
/// with the lowest first, the bytes, and the next gate, closed.
pub(crate) fn body(alloc: Global, member: u32, bytes: &[u8]) -> Result<Seq<u8>, OutOfMemory>
    requires { length bytes.now < 2 ^ 31 }
    ensures { IfOk result (λ body. body ≡ body_of member bytes.now) }
{
    let count = bytes.len() as u32;
    let mut body = Seq::from_slice(alloc, count.to_le_bytes().as_slice())?;
    body.extend(member.to_le_bytes().as_slice())?;
    body.extend(bytes)?;
    body.push(0)?;
    Ok(body)
}

/// Puts a record after the closed gate at `end`, and then opens the gate: four calls of the disk.
/// `body` is what stands after the gate.
pub(crate) fn add_record<K: Disk>(
    disk: &mut K,
    end: u64,
    member: u32,
    bytes: &[u8],
    body: &[u8],
) -> Result<(), OutFault>
    requires body { body.now ≡ body_of member bytes.now }
    requires gate { IfTold (K.history disk.old) (IsAtGate end) }
    requires within { end < K.extent disk.old }
    requires short { length bytes.now < 2 ^ 31 }
    requires room { end + 10 + length bytes.now < 2 ^ 63 }
    ensures recorded { Recorded (K.history disk.old) (K.history disk.new) end member bytes.now result }
    ensures extent { K.extent disk.old ≤ K.extent disk.new }
    ensures reach { OnOk result (end + 9 + length bytes.now < K.extent disk.new) }
    ensures cause { KeepCause (K.failed disk.old) (K.failed disk.new) result }
{
    match put(disk, end + 1, body) {
        Ok(()) => {}
        Err(fault) => return Err(fault),
    }
    put(disk, end, [1].as_slice())
}
