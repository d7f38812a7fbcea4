//! Running one event: it is taken, and its lines are written as one piece.

ghost use Rattle.std.specs.Prelude.{◌≡◌, ◌≤◌, ℕ, length, IfOk, OnErr, OnOk, IsErrOf};
ghost use Rattle.std.specs.Io.KnownBytes.{Appends};
ghost use Rattle.outside.specs.Causes.{Rose};
ghost use Rattle.outside.specs.declared.faults.OutFault.TheVariants as out_fault;
ghost use Rattle.report_text.specs.Text.{text_of};
ghost use Rattle.world_spec.specs.Scene.{rules_in};
ghost use Rattle.world_spec.specs.SceneSteps.{MayAddLine, records_left, work_of};
ghost use Rattle.world_core.specs.Trusts.{trust_by};
ghost use Rattle.world_core.specs.declared.world.WorldFault.TheVariants as fault;
ghost use Rattle.committee_core.specs.Report.{lines_text};
ghost use Rattle.committee_core.specs.Steps.{IsBadRecord, IsCutAt, IsTaken, Passes, ReadsBad};
ghost use Rattle.outside.specs.Streams.{AppendsFront};
ghost use Rattle.committee_core.specs.Ways.{bad_record_text};
ghost use Rattle.committee_core.specs.declared.stop.Stop.TheVariants as stop;

use crate::stop::Stop;
use outside::{Keeper, OutFault, Sink, write_all};
use report_text::{Line, RestartText, print_line};
use schedule_text::Event;
use std::alloc::Global;
use std::thread::Threads;
use wire_bcs::{OutOfMemory, Seq};
use world_core::{World, WorldFault};
use world_lines::MakesSeals;

/// The bytes of lines.
pub(crate) fn print_lines(alloc: Global, lines: &Seq<Line>) -> Result<Seq<u8>, OutOfMemory>
    ensures { IfOk result (λ text. text ≡ lines_text lines.now) }
{
    let mut text = Seq::new(alloc);
    for line in lines.as_slice() {
        print_line(line, &mut text)?;
    }
    Ok(text)
}

/// Writes lines as one piece.
fn write_lines<K: Sink>(alloc: Global, lines: &Seq<Line>, sink: &mut K) -> Result<(), OutFault>
    ensures ok { OnOk result (Appends (K.held sink.old) (K.held sink.new) (lines_text lines.now)) }
    ensures some { AppendsFront (K.held sink.old) (K.held sink.new) (lines_text lines.now) }
    ensures later { K.faults sink.old ≤ K.faults sink.new }
    ensures fault { IsErrOf result out_fault.Failed → Rose (K.faults sink.old) (K.faults sink.new) }
{
    let text = print_lines(alloc, lines)?;
    write_all(sink, text.as_slice())
}

/// Writes one line.
pub(crate) fn write_line<K: Sink>(alloc: Global, line: &Line, sink: &mut K) -> Result<(), OutFault>
    ensures ok { OnOk result (Appends (K.held sink.old) (K.held sink.new) (text_of line.now)) }
    ensures some { AppendsFront (K.held sink.old) (K.held sink.new) (text_of line.now) }
    ensures later { K.faults sink.old ≤ K.faults sink.new }
    ensures fault { IsErrOf result out_fault.Failed → Rose (K.faults sink.old) (K.faults sink.new) }
{
    let mut text = Seq::new(alloc);
    print_line(line, &mut text)?;
    write_all(sink, text.as_slice())
}

/// Writes the line of a bad record.
pub(crate) fn write_bad_record<K: Sink>(
    alloc: Global,
    member: u32,
    place: u64,
    sink: &mut K,
) -> Result<(), OutFault>
    ensures ok { OnOk result (Appends (K.held sink.old) (K.held sink.new) (bad_record_text member place)) }
    ensures some { AppendsFront (K.held sink.old) (K.held sink.new) (bad_record_text member place) }
    ensures later { K.faults sink.old ≤ K.faults sink.new }
    ensures fault { IsErrOf result out_fault.Failed → Rose (K.faults sink.old) (K.faults sink.new) }
{
    let text = RestartText::BadRecord { place };
    let line = Line::Restart {
        member: u64::from(member),
        text,
    };
    let written = write_line(alloc, &line, sink);
    drop(line);
    written
}

/// Takes one event, and writes its lines. `room`: the keeper has a list for each member.
#[tactic(auto, using(crate::proofs::Taken::taken_as, crate::proofs::Taken::left_as, crate::proofs::Taken::bad_as, crate::proofs::Taken::stay_as, crate::proofs::Written::passes_as, crate::proofs::Written::cut_taken, crate::proofs::Written::cut_untaken, crate::proofs::Written::cut_bad, crate::proofs::Written::said_bad))]
pub(crate) fn run_event<R: Threads + Sync, S: MakesSeals, K: Sink, D: Keeper>(
    rt: &R,
    alloc: Global,
    world: &mut World,
    event: &Event,
    sealer: &S,
    sink: &mut K,
    keeper: &mut D,
) -> Result<(), Stop>
    requires room { length world.old.posts ≤ D.width keeper.old }
    ensures ok { OnOk result (Passes (trust_by (S.made sealer.now) (S.accepts sealer.now)) event.now world.old world.new (D.lists keeper.old) (D.lists keeper.new) (K.held sink.old) (K.held sink.new)) }
    ensures cut { OnErr result (IsCutAt (trust_by (S.made sealer.now) (S.accepts sealer.now)) event.now world.old (D.lists keeper.old) (D.lists keeper.new) (K.held sink.old) (K.held sink.new)) }
    ensures bad { IsErrOf result stop.BadRecord → IsBadRecord (trust_by (S.made sealer.now) (S.accepts sealer.now)) event.now world.old (D.lists keeper.old) Appends (K.held sink.old) (K.held sink.new) }
    ensures stay { OnOk result (length world.new.posts ≡ length world.old.posts) }
    ensures width { D.width keeper.new ≡ D.width keeper.old }
    ensures later { K.faults sink.old ≤ K.faults sink.new }
    ensures fault { IsErrOf result stop.WriteFault → Rose (K.faults sink.old) (K.faults sink.new) }
    ensures kept_later { D.failed keeper.old ≤ D.failed keeper.new }
    ensures keep_fault { IsErrOf result stop.KeepFault → Rose (D.failed keeper.old) (D.failed keeper.new) }
{
    match world.step(rt, keeper, sealer, event) {
        Ok(lines) => match write_lines(alloc, &lines, sink) {
            Ok(()) => Ok(()),
            Err(OutFault::Failed) => Err(Stop::WriteFault),
            Err(OutFault::OutOfMemory) => Err(Stop::OutOfMemory),
        },
        Err(WorldFault::KeepFault) => Err(Stop::KeepFault),
        Err(WorldFault::OutOfMemory) => Err(Stop::OutOfMemory),
        Err(WorldFault::BadRecord { member, place }) => {
            match write_bad_record(alloc, member, place, sink) {
                Ok(()) => Err(Stop::BadRecord),
                Err(OutFault::Failed) => Err(Stop::WriteFault),
                Err(OutFault::OutOfMemory) => Err(Stop::OutOfMemory),
            }
        }
    }
}
