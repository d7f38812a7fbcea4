//! The [`validator`] call: the whole program over any source, sink and disk.

ghost use Rattle.std.specs.Prelude.{◌≡◌, bytes_eq};
ghost use Rattle.quorum_core.specs.Seals.{keyed_seal};
ghost use Rattle.world_core.specs.Trusts.{trust_by};
ghost use Rattle.validator_process.specs.Ending.{EndsProcess, EndsTask, program_trust};
ghost use Rattle.validator_process.specs.Words.{IsInRange};

use crate::making::make_text;
use crate::reading::read_genesis;
use crate::starting::serve_text;
use crate::words::Task;
use disk_log::Disk;
use outside::{Sink, Source};
use quorum_core::KeyedSeal;
use std::alloc::Global;
use std::thread::Threads;

/// The seals of the program: those under a secret of 32 bytes of hexadecimal 5a, as those of `committee`.
fn program_sealer() -> KeyedSeal
    ensures { trust_by (λ signer bytes. keyed_seal result.secret signer bytes) (λ signer bytes seal. bytes_eq seal.0 (keyed_seal result.secret signer bytes).0) ≡ program_trust }
{
    KeyedSeal::new([0x5a; 32])
}

/// Does the task of a text, over a disk. Gives the disk back.
#[tactic(auto, using(crate::proofs::Ended::same_trust, crate::proofs::Made::same_maker))]
fn validator_of<R: Threads + Sync, I: Source, K: Sink, F: Disk>(
    rt: &R,
    alloc: Global,
    task: Task,
    text: &[u8],
    source: &mut I,
    sink: &mut K,
    disk: F,
) -> (u8, F)
    requires range { IsInRange task }
    ensures { EndsTask task text.now (F.history disk) (F.history result.1) (I.left source.old) (I.left source.new) (K.held sink.old) (K.held sink.new) (I.faults source.old) (I.faults source.new) (K.faults sink.old) (K.faults sink.new) (F.failed disk) (F.failed result.1) result.0 }
{
    let sealer = program_sealer();
    match task {
        Task::Make { member } => make_text(alloc, text, disk, member, &sealer, sink),
        Task::Serve { member } => {
            serve_text(rt, alloc, text, disk, member, &sealer, source, sink)
        }
    }
}

/// One member as a process: makes its journal on the disk, or starts the member from it and answers the requests of the
/// source. Gives the disk back, and the status.
#[tactic(auto, using(crate::proofs::Ended::task_done, crate::proofs::Ended::setup_unread))]
pub fn validator<R: Threads + Sync, G: Source, I: Source, K: Sink, F: Disk>(
    rt: &R,
    alloc: Global,
    task: Task,
    genesis: &mut G,
    source: &mut I,
    sink: &mut K,
    disk: F,
) -> (u8, F)
    requires range { IsInRange task }
    ensures { EndsProcess task (G.left genesis.old) (G.left genesis.new) (G.faults genesis.old) (G.faults genesis.new) (F.history disk) (F.history result.1) (I.left source.old) (I.left source.new) (K.held sink.old) (K.held sink.new) (I.faults source.old) (I.faults source.new) (K.faults sink.old) (K.faults sink.new) (F.failed disk) (F.failed result.1) result.0 }
{
    match read_genesis(alloc, genesis) {
        Ok(text) => validator_of(rt, alloc, task, text.as_slice(), source, sink, disk),
        Err(stop) => (stop.status(), disk),
    }
}
