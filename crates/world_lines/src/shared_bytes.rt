//! Bytes with several owners.

ghost use Rattle.std.specs.Prelude.{◌≡◌, IfOk};

use std::alloc::Global;
use std::marker::Model;
use std::sync::Arc;
use wire_bcs::{OutOfMemory, Seq};

/// Bytes that stand once in memory: a certificate and the entries of a sequence that order it are owners of the same
/// bytes. Contracts see the bytes.
#[derive(Debug, Drop)]
pub(crate) struct SharedBytes {
    bytes: Arc<Seq<u8>, Global>,
}

impl Model for SharedBytes {
    ghost use Rattle.std.specs.Prelude.{ℕ, List};
    ghost use Rattle.std.specs.Arc.{arc_value};

    ghost Value = { List ℕ };

    ghost view = { λ s. arc_value s.bytes };
}

impl SharedBytes {
    /// These bytes, with one owner.
    pub(crate) fn new(alloc: Global, bytes: Seq<u8>) -> Result<SharedBytes, OutOfMemory>
        ensures { IfOk result (λ s. s ≡ bytes) }
    {
        let bytes = Arc::new(alloc, bytes)?;
        Ok(SharedBytes { bytes })
    }

    /// One more owner of them. Takes no memory; the only error is that they have 2^63 owners.
    pub(crate) fn share(&self) -> Result<SharedBytes, OutOfMemory>
        ensures { IfOk result (λ s. s ≡ self.now) }
    {
        let bytes = Arc::try_clone(&self.bytes)?;
        Ok(SharedBytes { bytes })
    }

    /// The bytes. Takes no memory.
    pub(crate) fn get(&self) -> &Seq<u8>
        ensures { result.now ≡ self.now }
    {
        &self.bytes
    }
}
