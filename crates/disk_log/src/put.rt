//! A write that is on the disk when it returns.

ghost use Rattle.std.specs.Prelude.{◌+◌, ◌<◌, ◌≤◌, ◌^◌, length};
ghost use Rattle.outside.specs.Causes.{KeepCause};
ghost use Rattle.disk_log.specs.Disk.{GrowsTo, IfTold, IsQuiet, Put};

use crate::disk::Disk;
use outside::{Failed, OutFault};

/// Writes the bytes from `at` on and syncs, on a disk whose bytes are all stable: two calls of it.
/// After `Failed` the range may have changed; if memory was refused nothing did.
pub(crate) fn put<K: Disk>(disk: &mut K, at: u64, bytes: &[u8]) -> Result<(), OutFault>
    requires quiet { IfTold (K.history disk.old) IsQuiet }
    requires at { at ≤ K.extent disk.old }
    requires end { at + length bytes.now < 2 ^ 63 }
    ensures put { Put (K.history disk.old) (K.history disk.new) at bytes.now result }
    ensures extent { GrowsTo (K.extent disk.old) (K.extent disk.new) (at + length bytes.now) result }
    ensures cause { KeepCause (K.failed disk.old) (K.failed disk.new) result }
{
    match disk.write_at(at, bytes) {
        Ok(()) => {}
        Err(fault) => return Err(fault),
    }
    match disk.sync() {
        Ok(()) => Ok(()),
        Err(Failed) => Err(OutFault::Failed),
    }
}
