//! The reader of a schedule.

ghost use Rattle.std.specs.Prelude.{◌≡◌, ◌∷◌, ◌==◌, ◌<◌, ◌≤◌, Ok, Err, IfOk, IfErr, OnOk, length, map};
ghost use Rattle.std.specs.List.{list_any, list_all};
ghost use Rattle.schedule_text.specs.Agrees.{Agrees, no_lines};
ghost use Rattle.schedule_text.specs.Bytes.{is_printable};
ghost use Rattle.schedule_text.specs.Cause.{ReadsInto};
ghost use Rattle.schedule_text.specs.Known.{add_line};
ghost use Rattle.schedule_text.specs.Lines.{words_of};
ghost use Rattle.schedule_text.specs.Schedule.{lines_of, is_skipped, begins_member, read_line, read_lines, schedule_of, refusal_of, RefusesWith};

use crate::bytes::{cut_part, parts_of};
use crate::cause::{Cause, LineFault};
use crate::lines::statement_of;
use crate::reading::Reading;
use crate::statement::Statement;
use crate::words::{Schedule, ScheduleRefusal};
use std::alloc::Global;

/// The most bytes of a schedule.
const LONGEST_TEXT: usize = 16_777_216;

fn is_skipped(line: &[u8]) -> bool
    ensures { result ≡ is_skipped line.now }
{
    match line {
        [] => true,
        [first, ..] => *first == b'#',
    }
}

fn is_printable(byte: u8) -> bool
    ensures { result ≡ is_printable byte }
{
    matches!(byte, b' '..=b'~')
}

fn are_printable(line: &[u8]) -> bool
    ensures { result ≡ list_all is_printable line.now }
{
    line.iter().all(|byte| is_printable(*byte))
}

fn begins_member(line: &[u8]) -> bool
    ensures { result ≡ begins_member line.now }
{
    line.starts_with(b"member ")
}

fn has_member_line(text: &[u8]) -> bool
    ensures { result ≡ list_any begins_member (lines_of text.now) }
{
    let mut left = Some(text);
    while let Some(text) = left {
        let (line, after) = cut_part(b'\n', text);
        if begins_member(line) {
            return true;
        }
        left = after;
    }
    false
}

#[tactic(auto, unfolding(crate::specs::Known::add_line))]
fn add_statement(
    alloc: Global,
    reading: &mut Reading,
    statement: Statement,
) -> Result<(), LineFault>
    requires { Agrees reading.old }
    ensures reads { ReadsInto result reading.new.schedule (add_line reading.old.schedule statement) }
    ensures agrees { OnOk result (Agrees reading.new) }
{
    match statement {
        Statement::Setup(setup) => reading.add_setup(alloc, setup),
        Statement::Event(event) => reading.add_event(alloc, event),
    }
}

#[tactic(auto, unfolding(crate::specs::Schedule::read_line))]
fn read_line(alloc: Global, reading: &mut Reading, line: &[u8]) -> Result<(), LineFault>
    requires { Agrees reading.old }
    ensures reads { ReadsInto result reading.new.schedule (read_line reading.old.schedule line.now) }
    ensures agrees { OnOk result (Agrees reading.new) }
{
    if is_skipped(line) {
        return Ok(());
    }
    if !are_printable(line) {
        return Err(LineFault::Bad(Cause::BadByte));
    }
    let words = parts_of(alloc, b' ', line)?;
    let statement = statement_of(alloc, words.as_slice())?;
    add_statement(alloc, reading, statement)
}

/// The refusal of a line.
fn refusal(line: u64, fault: LineFault) -> ScheduleRefusal
    ensures { result ≡ refusal_of line fault }
{
    match fault {
        LineFault::Bad(cause) => ScheduleRefusal::Refused {
            line,
            cause: cause.number(),
        },
        LineFault::OutOfMemory => ScheduleRefusal::OutOfMemory,
    }
}

/// Adds all lines of the text.
#[tactic(auto, unfolding(crate::specs::Schedule::read_lines))]
fn add_lines(alloc: Global, reading: &mut Reading, text: &[u8]) -> Result<(), ScheduleRefusal>
    requires agrees { Agrees reading.old }
    requires short { length text.now ≤ 16777216 }
    ensures ok { OnOk result (read_lines 1 reading.old.schedule (lines_of text.now) ≡ Ok reading.new.schedule) }
    ensures err { IfErr result (RefusesWith (read_lines 1 reading.old.schedule (lines_of text.now))) }
{
    let mut left = Some(text);
    let mut number = 1;
    while let Some(text) = left {
        let (line, after) = cut_part(b'\n', text);
        if let Err(fault) = read_line(alloc, reading, line) {
            return Err(refusal(number, fault));
        }
        left = after;
        number += 1;
    }
    Ok(())
}

/// Reads all lines, and gives back the schedule.
fn read_lines(alloc: Global, text: &[u8]) -> Result<Schedule, ScheduleRefusal>
    requires { length text.now ≤ 16777216 }
    ensures ok { IfOk result (λ s. read_lines 1 no_lines (lines_of text.now) ≡ Ok s) }
    ensures err { IfErr result (RefusesWith (read_lines 1 no_lines (lines_of text.now))) }
{
    let mut reading = Reading::new(alloc);
    match add_lines(alloc, &mut reading, text) {
        Ok(()) => Ok(reading.into_schedule()),
        Err(refusal) => {
            drop(reading);
            Err(refusal)
        }
    }
}

/// The schedule that the bytes are. `Refused` names the first bad line, counted from 1, and the
/// least cause that applies to it, or line 0 if the text is too long (1) or has no member (2).
#[tactic(auto, unfolding(crate::specs::Schedule::schedule_of))]
pub fn read_schedule(alloc: Global, bytes: &[u8]) -> Result<Schedule, ScheduleRefusal>
    ensures ok { IfOk result (λ s. schedule_of bytes.now ≡ Ok s) }
    ensures err { IfErr result (RefusesWith (schedule_of bytes.now)) }
{
    if bytes.len() > LONGEST_TEXT {
        return Err(refusal(0, LineFault::Bad(Cause::TooLarge)));
    }
    if !has_member_line(bytes) {
        return Err(refusal(0, LineFault::Bad(Cause::NoMembers)));
    }
    read_lines(alloc, bytes)
}
