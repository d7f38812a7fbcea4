//! A sink over a writer.

ghost use Rattle.std.specs.Prelude.{◌≡◌, ℕ, [], true, false};
ghost use Rattle.std.specs.Io.Buffered.{writer_buffer, writer_contents, writer_inner};
ghost use Rattle.std.specs.Io.KnownBytes.{Keeps};
ghost use Rattle.outside.specs.Causes.{Rose};

use outside::{OutFault, Sink};
use std::io::{BufWriter, Write};

/// A sink over a writer, such as standard output. A writer that takes nothing counts as a fault.
#[derive(Drop)]
pub struct OutSink<W: Write + Drop> {
    writer: W,
    faults: u64,
}

impl<W: Write + Drop> OutSink<W> {
    /// A sink into the writer, with no faults yet.
    pub fn new(writer: W) -> OutSink<W>
        ensures held { W.contents result.writer ≡ W.contents writer }
        ensures faults { result.faults ≡ 0 }
    {
        OutSink { writer, faults: 0 }
    }
}

impl<W: Write + Drop> OutSink<BufWriter<W>> {
    /// Hands on what the writer holds back. True only if nothing is held back any more, and all of it has arrived; else
    /// the count of faults has risen.
    #[tactic(auto, using(crate::proofs::Handing::handed_on))]
    pub fn finish(&mut self) -> bool
        ensures held { Keeps (writer_contents W.contents self.old.writer) (writer_contents W.contents self.new.writer) }
        ensures none { result ≡ true → writer_buffer self.new.writer ≡ [] }
        // So the writer below has all the bytes that were written.
        ensures handed { result ≡ true → Keeps (writer_contents W.contents self.old.writer) (W.contents (writer_inner self.new.writer)) }
        ensures well { result ≡ true → self.new.faults ≡ self.old.faults }
        ensures fault { result ≡ false → Rose self.old.faults self.new.faults }
    {
        match self.writer.flush() {
            Ok(()) => true,
            Err(_) => {
                self.faults = self.faults.saturating_add(1);
                false
            }
        }
    }
}

impl<W: Write + Drop> Sink for OutSink<W> {
    ghost held = { λ s. W.contents s.writer };

    ghost faults = { λ s. s.faults };

    fn write(&mut self, bytes: &[u8]) -> Result<usize, OutFault> {
        match self.writer.write(bytes) {
            Ok(0) => {
                self.faults = self.faults.saturating_add(1);
                Ok(0)
            }
            Ok(count) => Ok(count),
            Err(_) => {
                self.faults = self.faults.saturating_add(1);
                Err(OutFault::Failed)
            }
        }
    }
}
