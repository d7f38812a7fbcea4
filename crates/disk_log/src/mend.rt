//! The gate after the records that count.

ghost use Rattle.std.specs.Prelude.{◌≡◌, ◌⊎◌, ◌<◌, ◌≤◌, ◌^◌, IfOk, IsErr, OnOk, IsTrue};
ghost use Rattle.outside.specs.Causes.{KeepCause, Rose};
ghost use Rattle.disk_log.specs.Disk.{IfTold};
ghost use Rattle.disk_log.specs.Log.{ClosedIs, IsReadTo, Mended};

use crate::disk::Disk;
use crate::put::put;
use outside::{Failed, OutFault};

/// Whether the byte at a place is there and is not an open gate.
fn is_closed<K: Disk>(disk: &mut K, at: u64) -> Result<bool, Failed>
    requires { at ≤ K.extent disk.old }
    ensures closed { IfOk result (λ closed. IfTold (K.history disk.old) (λ h. ClosedIs at h.now.reads closed)) }
    ensures history { K.history disk.new ≡ K.history disk.old }
    ensures extent { K.extent disk.new ≡ K.extent disk.old }
    ensures below { K.extent disk.old < 2 ^ 63 }
    ensures inside { IfOk result (λ closed. IsTrue closed → at < K.extent disk.old) }
    ensures later { K.failed disk.old ≤ K.failed disk.new }
    ensures failed { IsErr result → Rose (K.failed disk.old) (K.failed disk.new) }
{
    if at >= disk.size() {
        return Ok(false);
    }
    let mut gate = [0; 1];
    match disk.read_at(at, gate.as_mut_slice()) {
        Ok(()) => Ok(gate[0] != 1),
        Err(Failed) => Err(Failed),
    }
}

/// Closes the gate after the records that count, if it is open or missing.
pub(crate) fn mend<K: Disk>(disk: &mut K, end: u64) -> Result<(), OutFault>
    requires within { end ≤ K.extent disk.old }
    requires gate { (end ≡ 0) ⊎ (end < K.extent disk.old) }
    requires read { IfTold (K.history disk.old) (IsReadTo end) }
    ensures mended { Mended (K.history disk.old) (K.history disk.new) end result }
    ensures inside { OnOk result (end < K.extent disk.new) }
    ensures limit { OnOk result (end < 2 ^ 63) }
    ensures cause { KeepCause (K.failed disk.old) (K.failed disk.new) result }
{
    match is_closed(disk, end) {
        Ok(true) => return Ok(()),
        Ok(false) => {}
        Err(Failed) => return Err(OutFault::Failed),
    }
    put(disk, end, [0].as_slice())
}
