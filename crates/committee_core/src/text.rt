//! The texts of schedules: the longest, and the line that says why a text is not a schedule.

ghost use Rattle.std.specs.Prelude.{◌≡◌, ◌⊎◌, ◌≤◌, OnOk, IsErrOf};
ghost use Rattle.std.specs.Io.KnownBytes.{Appends};
ghost use Rattle.outside.specs.Causes.{Rose};
ghost use Rattle.report_text.specs.declared.lines.Line.TheVariants as report_line;
ghost use Rattle.report_text.specs.Text.{text_of};
ghost use Rattle.outside.specs.Streams.{AppendsFront};
ghost use Rattle.outside.specs.declared.faults.OutFault.TheVariants as out_fault;

use crate::event::write_line;
use crate::status::{NO_SCHEDULE, OUT_OF_MEMORY, WRITE_FAULT};
use outside::{OutFault, Sink};
use report_text::Line;
use std::alloc::Global;

/// The most bytes of a schedule.
pub const LONGEST_TEXT: u32 = 16_777_216;

/// Writes the line of a refusal, `refused line L cause C`.
pub fn refuse<K: Sink>(alloc: Global, line: u64, cause: u8, sink: &mut K) -> Result<(), OutFault>
    ensures ok { OnOk result (Appends (K.held sink.old) (K.held sink.new) (text_of (report_line.Refused line cause))) }
    ensures some { AppendsFront (K.held sink.old) (K.held sink.new) (text_of (report_line.Refused line cause)) }
    ensures later { K.faults sink.old ≤ K.faults sink.new }
    ensures fault { IsErrOf result out_fault.Failed → Rose (K.faults sink.old) (K.faults sink.new) }
{
    let refused = Line::Refused {
        line,
        cause: u64::from(cause),
    };
    let written = write_line(alloc, &refused, sink);
    drop(refused);
    written
}

/// Writes why a text is not a schedule. Answers the status.
pub(crate) fn say_refused<K: Sink>(alloc: Global, line: u64, cause: u8, sink: &mut K) -> u8
    ensures known { (result ≡ 3) ⊎ (result ≡ 5) ⊎ (result ≡ 7) }
    ensures written { result ≡ 3 → Appends (K.held sink.old) (K.held sink.new) (text_of (report_line.Refused line cause)) }
    ensures write_fault { result ≡ 5 → Rose (K.faults sink.old) (K.faults sink.new) }
    ensures cut { (result ≡ 5) ⊎ (result ≡ 7) → AppendsFront (K.held sink.old) (K.held sink.new) (text_of (report_line.Refused line cause)) }
{
    match refuse(alloc, line, cause, sink) {
        Ok(()) => NO_SCHEDULE,
        Err(OutFault::Failed) => WRITE_FAULT,
        Err(OutFault::OutOfMemory) => OUT_OF_MEMORY,
    }
}
