//! The command `make`: runs a generated schedule, and writes a summary of the run.

ghost use Rattle.std.specs.Prelude.{◌≡◌, ◌⊎◌, ◌≤◌, Some, slice_get, IfOk, OnErr, OnOk, IsErrOf};
ghost use Rattle.std.specs.Io.KnownBytes.{Appends};
ghost use Rattle.outside.specs.Causes.{Rose};
ghost use Rattle.outside.specs.declared.faults.OutFault.TheVariants as out_fault;
ghost use Rattle.report_text.specs.declared.lines.Line.TheVariants as report_line;
ghost use Rattle.report_text.specs.Text.{text_of};
ghost use Rattle.world_core.specs.Sums.{sums_at};
ghost use Rattle.world_core.specs.declared.sums.Sums.{Sums as SumsOf};
ghost use Rattle.committee_core.specs.Journals.{AreEmpty};
ghost use Rattle.committee_core.specs.Make.{IsSummed, KeepsMade, MakesFront, MakesWhole, RunsMade};
ghost use Rattle.outside.specs.Streams.{AppendsFront};
ghost use Rattle.committee_core.specs.declared.make.Unmade.TheVariants as unmade;

use crate::event::write_line;
use crate::silent::{Unrun, world_behind};
use crate::status::{DONE, KEEP_FAULT, OUT_OF_MEMORY, WRITE_FAULT};
use outside::{Keeper, OutFault, Sink};
use report_text::Line;
use run_law::generated_text_is_a_schedule;
use schedule_make::make_text;
use std::alloc::Global;
use std::thread::Threads;
use wire_bcs::OutOfMemory;
use world_core::{Sums, World};

/// The number of workers on which the late member runs.
const WORKERS: u32 = 4;

/// Why the run of a generated schedule has no summary.
#[derive(Clone, Copy, Debug, PartialEq, Eq)]
enum Unmade {
    /// The keeper did not keep a record.
    KeepFault,
    OutOfMemory,
}

/// The world after the generator's schedule of this many transactions.
fn made_world<R: Threads + Sync, D: Keeper>(
    rt: &R,
    alloc: Global,
    number: u32,
    keeper: &mut D,
) -> Result<World, Unmade>
    requires low { 1 ≤ number }
    requires high { number ≤ 10000 }
    requires room { 64 ≤ D.width keeper.old }
    requires empty { AreEmpty (D.lists keeper.old) }
    ensures ok { IfOk result (RunsMade number (D.lists keeper.old) (D.lists keeper.new)) }
    ensures steady { IfOk result (λ _. Rose (D.failed keeper.old) (D.failed keeper.new) → ⊥) }
    ensures cut { OnErr result (KeepsMade number (D.lists keeper.old) (D.lists keeper.new)) }
    ensures keep_fault { IsErrOf result unmade.KeepFault → Rose (D.failed keeper.old) (D.failed keeper.new) }
{
    generated_text_is_a_schedule();
    let Ok(text) = make_text(alloc, number, WORKERS) else {
        return Err(Unmade::OutOfMemory);
    };
    match world_behind(rt, alloc, text.as_slice(), keeper) {
        Ok(world) => Ok(world),
        Err(Unrun::Refused { line: _, cause: _ }) => unreachable!(),
        Err(Unrun::KeepFault) => Err(Unmade::KeepFault),
        Err(Unrun::BadRecord) => unreachable!(),
        Err(Unrun::OutOfMemory) => Err(Unmade::OutOfMemory),
    }
}

/// The sums of a world's member 0, which has some.
fn sum_up(world: &World) -> Result<Sums, OutOfMemory>
    requires { (s : SumsOf) × (sums_at (slice_get world.now.posts 0) ≡ Some s) }
    ensures { IfOk result (λ given. sums_at (slice_get world.now.posts 0) ≡ Some given) }
{
    match world.sums(0) {
        Ok(Some(sums)) => Ok(sums),
        Ok(None) => unreachable!(),
        Err(OutOfMemory) => Err(OutOfMemory),
    }
}

/// Runs the generator's schedule of this many transactions, and sums up its member 0.
#[tactic(auto, using(crate::proofs::Made::has_sums, crate::proofs::Made::summed, crate::proofs::Made::kept_whole))]
fn sums_of_made<R: Threads + Sync, D: Keeper>(
    rt: &R,
    alloc: Global,
    number: u32,
    keeper: &mut D,
) -> Result<Sums, Unmade>
    requires low { 1 ≤ number }
    requires high { number ≤ 10000 }
    requires room { 64 ≤ D.width keeper.old }
    requires empty { AreEmpty (D.lists keeper.old) }
    ensures ok { IfOk result (IsSummed number (D.lists keeper.old) (D.lists keeper.new)) }
    ensures steady { IfOk result (λ _. Rose (D.failed keeper.old) (D.failed keeper.new) → ⊥) }
    ensures cut { OnErr result (KeepsMade number (D.lists keeper.old) (D.lists keeper.new)) }
    ensures keep_fault { IsErrOf result unmade.KeepFault → Rose (D.failed keeper.old) (D.failed keeper.new) }
{
    match made_world(rt, alloc, number, keeper) {
        Ok(world) => {
            let summed = sum_up(&world);
            drop(world);
            match summed {
                Ok(sums) => Ok(sums),
                Err(OutOfMemory) => Err(Unmade::OutOfMemory),
            }
        }
        Err(why) => Err(why),
    }
}

/// Writes the line of a summary.
fn write_summary<K: Sink>(
    alloc: Global,
    number: u32,
    sums: &Sums,
    sink: &mut K,
) -> Result<(), OutFault>
    ensures ok { OnOk result (Appends (K.held sink.old) (K.held sink.new) (text_of (report_line.Make number sums.now.transactions sums.now.checkpoints sums.now.objects sums.now.sum))) }
    ensures some { AppendsFront (K.held sink.old) (K.held sink.new) (text_of (report_line.Make number sums.now.transactions sums.now.checkpoints sums.now.objects sums.now.sum)) }
    ensures later { K.faults sink.old ≤ K.faults sink.new }
    ensures fault { IsErrOf result out_fault.Failed → Rose (K.faults sink.old) (K.faults sink.new) }
{
    let line = Line::Make {
        number: u64::from(number),
        transactions: sums.transactions,
        checkpoints: sums.checkpoints,
        objects: sums.objects,
        sum: sums.sum,
    };
    let written = write_line(alloc, &line, sink);
    drop(line);
    written
}

/// The command `make`: runs the generator's schedule of this many transactions, and writes its summary. Answers the
/// status.
pub(crate) fn make<R: Threads + Sync, K: Sink, D: Keeper>(
    rt: &R,
    alloc: Global,
    number: u32,
    sink: &mut K,
    keeper: &mut D,
) -> u8
    requires low { 1 ≤ number }
    requires high { number ≤ 10000 }
    requires room { 64 ≤ D.width keeper.old }
    requires empty { AreEmpty (D.lists keeper.old) }
    ensures known { (result ≡ 0) ⊎ (result ≡ 5) ⊎ (result ≡ 6) ⊎ (result ≡ 7) }
    ensures whole { result ≡ 0 → MakesWhole number (K.held sink.old) (K.held sink.new) (D.lists keeper.old) (D.lists keeper.new) }
    ensures steady { result ≡ 0 → Rose (D.failed keeper.old) (D.failed keeper.new) → ⊥ }
    ensures write_fault { result ≡ 5 → Rose (K.faults sink.old) (K.faults sink.new) }
    ensures keep_fault { result ≡ 6 → Rose (D.failed keeper.old) (D.failed keeper.new) }
    ensures cut { (result ≡ 5) ⊎ (result ≡ 6) ⊎ (result ≡ 7) → MakesFront number (K.held sink.old) (K.held sink.new) (D.lists keeper.old) (D.lists keeper.new) }
{
    match sums_of_made(rt, alloc, number, keeper) {
        Ok(sums) => match write_summary(alloc, number, &sums, sink) {
            Ok(()) => DONE,
            Err(OutFault::Failed) => WRITE_FAULT,
            Err(OutFault::OutOfMemory) => OUT_OF_MEMORY,
        },
        Err(Unmade::KeepFault) => KEEP_FAULT,
        Err(Unmade::OutOfMemory) => OUT_OF_MEMORY,
    }
}
