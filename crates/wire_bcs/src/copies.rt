//! Copies of values that own lists.

ghost use Rattle.std.specs.Prelude.{◌≡◌, IfOk};

use crate::seq::{OutOfMemory, Seq};

/// A type whose values can be copied; the only error is that memory is refused. The copy of a list takes its memory
/// from the list's allocator.
pub trait Duplicate: Drop {
    /// An equal value.
    fn copy(&self) -> Result<Self, OutOfMemory>
        ensures { IfOk result (λ copy. copy ≡ self.now) };
}

impl<T: Copy + Drop> Duplicate for T {
    fn copy(&self) -> Result<Self, OutOfMemory> {
        Ok(*self)
    }
}

impl<T: Duplicate> Duplicate for Seq<T> {
    fn copy(&self) -> Result<Self, OutOfMemory> {
        let mut copies = Seq::with_room(self.allocator(), self.len())?;
        for item in self.as_slice() {
            let copy = item.copy()?;
            copies.push(copy)?;
        }
        Ok(copies)
    }
}
