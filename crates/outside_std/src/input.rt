//! A source over a reader.

ghost use Rattle.std.specs.Prelude.{◌≡◌, ℕ};

use outside::{Failed, Source};
use std::io::Read;

/// A source over a reader, such as standard input.
#[derive(Drop)]
pub struct InSource<R: Read + Drop> {
    reader: R,
    faults: u64,
}

impl<R: Read + Drop> InSource<R> {
    /// A source of what the reader has left, with no faults yet.
    pub fn new(reader: R) -> InSource<R>
        ensures left { R.remaining result.reader ≡ R.remaining reader }
        ensures faults { result.faults ≡ 0 }
    {
        InSource { reader, faults: 0 }
    }
}

impl<R: Read + Drop> Source for InSource<R> {
    ghost left = { λ s. R.remaining s.reader };

    ghost faults = { λ s. s.faults };

    fn read(&mut self, buffer: &mut [u8]) -> Result<usize, Failed> {
        match self.reader.read(buffer) {
            Ok(count) => Ok(count),
            Err(_) => {
                self.faults = self.faults.saturating_add(1);
                Err(Failed)
            }
        }
    }
}
