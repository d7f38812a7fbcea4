//! The present moment of a disk in memory: what its changes made of the bytes that it began with.

ghost use Rattle.std.specs.Prelude.{◌≡◌, ◌+◌, ◌<◌, ◌^◌, All, length, IfOk, if◌then◌else◌};
ghost use Rattle.disk_log.specs.Disk.{with_bytes};
ghost use Rattle.disk_log.specs.Memory.{moment_behind, moment_by, settled_at, touched_by};

use crate::mem_disk::Change;
use crate::moment::{Moment, Span};
use std::alloc::Global;
use wire_bcs::{OutOfMemory, Seq};

/// The bytes with others written over them from an offset on; at the end, if the offset is past it.
pub(crate) fn overwritten(
    alloc: Global,
    old: &[u8],
    at: usize,
    bytes: &[u8],
) -> Result<Seq<u8>, OutOfMemory>
    ensures { IfOk result (λ new. new ≡ with_bytes old.now at bytes.now) }
{
    let (front, back) = old.split_at(at.min(old.len()));
    let mut new = Seq::from_slice(alloc, front)?;
    new.extend(bytes)?;
    let (_, behind) = back.split_at(bytes.len().min(back.len()));
    new.extend(behind)?;
    Ok(new)
}

/// These bytes, all of them stable.
fn settled(alloc: Global, bytes: &[u8]) -> Result<Moment, OutOfMemory>
    ensures { IfOk result (λ m. m ≡ settled_at bytes.now) }
{
    let reads = Seq::from_slice(alloc, bytes)?;
    let stable = Seq::from_slice(alloc, bytes)?;
    Ok(Moment {
        reads,
        stable,
        most: bytes.len() as u64,
        ranges: Seq::new(alloc),
    })
}

/// What reads give after a write; a failed one changes nothing.
fn reads_behind(alloc: Global, reads: &[u8], change: &Change) -> Result<Seq<u8>, OutOfMemory>
    ensures { IfOk result (λ new. new ≡ (if change.now.failed then reads.now else with_bytes reads.now change.now.at change.now.bytes)) }
{
    if change.failed {
        return Seq::from_slice(alloc, reads);
    }
    overwritten(alloc, reads, change.at as usize, change.bytes.as_slice())
}

/// The moment after a write, or a failed one.
fn touched(alloc: Global, moment: Moment, change: &Change) -> Result<Moment, OutOfMemory>
    requires { change.now.at + length change.now.bytes < 2 ^ 63 }
    ensures { IfOk result (λ m. m ≡ touched_by moment change.now) }
{
    let Moment {
        reads,
        stable,
        most,
        mut ranges,
    } = moment;
    let reads = reads_behind(alloc, reads.as_slice(), change)?;
    let count = change.bytes.len();
    ranges.push(Span {
        at: change.at,
        count,
    })?;
    Ok(Moment {
        reads,
        stable,
        most: most.max(change.at + count),
        ranges,
    })
}

/// The moment after a change, and after the sync that succeeded after it, if there was one.
fn behind(alloc: Global, moment: Moment, change: &Change) -> Result<Moment, OutOfMemory>
    requires { change.now.at + length change.now.bytes < 2 ^ 63 }
    ensures { IfOk result (λ m. m ≡ moment_behind moment change.now) }
{
    let touched = touched(alloc, moment, change)?;
    if !change.synced {
        return Ok(touched);
    }
    settled(alloc, touched.reads.as_slice())
}

/// The moment after these changes of a file that began with these bytes.
pub(crate) fn present(
    alloc: Global,
    first: &[u8],
    changes: &[Change],
) -> Result<Moment, OutOfMemory>
    requires { All (λ c. c.at + length c.bytes < 2 ^ 63) changes.now }
    ensures { IfOk result (λ m. m ≡ moment_by (settled_at first.now) changes.now) }
{
    let mut moment = settled(alloc, first)?;
    let mut rest = changes;
    while let [change, after @ ..] = rest {
        moment = behind(alloc, moment, change)?;
        rest = after;
    }
    Ok(moment)
}
