//! A file as the journal sees it.

ghost use Rattle.std.specs.Prelude.{◌≡◌, ℕ, ◌+◌, ◌<◌, ◌≤◌, ◌^◌, length, IsErr, OnOk, Option};
ghost use Rattle.outside.specs.Causes.{KeepCause, Rose};
ghost use Rattle.disk_log.specs.Disk.{History, AreSeen, HasExtent, IfTold, IsGiven, Written, Synced, GrowsTo, moments};

use outside::{Failed, OutFault};

/// A file of bytes, which grows and never shrinks. What was written is safe from a crash once a
/// sync has succeeded after it.
pub trait Disk {
    /// The moments so far, if they are observable.
    ghost history: { Self → Option History };

    /// The size in bytes.
    ghost extent: { Self → ℕ };

    /// The count of faults, which never falls.
    ghost failed: { Self → ℕ };

    /// The size in bytes. Takes no memory.
    fn size(&self) -> u64
        ensures extent { result ≡ extent self.now }
        ensures below { result < 2 ^ 63 };

    /// The count of faults. Takes no memory.
    fn faults(&self) -> u64
        ensures { result ≡ failed self.now };

    /// Fills the buffer with the bytes from `at` on. Takes no memory. It is not a moment of its own.
    fn read_at(&mut self, at: u64, buffer: &mut [u8]) -> Result<(), Failed>
        requires { at + length buffer.old ≤ extent self.old }
        ensures given { OnOk result (IsGiven (history self.old) at buffer.new) }
        ensures history { history self.new ≡ history self.old }
        ensures extent { extent self.new ≡ extent self.old }
        ensures later { failed self.old ≤ failed self.new }
        ensures failed { IsErr result → Rose (failed self.old) (failed self.new) };

    /// Writes the bytes from `at` on, over what is there and past the end. Until a sync, a crash may
    /// leave any bytes there. After `Failed` what reads give may have changed there too; if
    /// memory was refused nothing changed.
    fn write_at(&mut self, at: u64, bytes: &[u8]) -> Result<(), OutFault>
        requires at { at ≤ extent self.old }
        requires end { at + length bytes.now < 2 ^ 63 }
        ensures written { Written (history self.old) (history self.new) at bytes.now result }
        ensures extent { GrowsTo (extent self.old) (extent self.new) (at + length bytes.now) result }
        ensures cause { KeepCause (failed self.old) (failed self.new) result };

    /// Makes what reads give safe from a crash. Takes no memory.
    fn sync(&mut self) -> Result<(), Failed>
        ensures synced { Synced (history self.old) (history self.new) result }
        ensures extent { extent self.new ≡ extent self.old }
        ensures later { failed self.old ≤ failed self.new }
        ensures failed { IsErr result → Rose (failed self.old) (failed self.new) };

    /// The observable bytes are as many as the size says.
    ghost sized: { (disk : Self) → HasExtent (history disk) (extent disk) };

    /// At each observable moment what reads give is one of the files that a crash may leave.
    ghost seen: { (disk : Self) → IfTold (history disk) (λ h. AreSeen (moments h)) };
}
