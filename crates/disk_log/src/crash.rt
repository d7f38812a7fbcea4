//! What a crash may leave of a disk in memory.

ghost use Rattle.std.specs.Prelude.{◌≡◌, ◌↔◌, ◌<◌, ◌≤◌, [], length, slice_index, IfOk, IsTrue};
ghost use Rattle.disk_log.specs.Crash.{MayBegin, MayStand};
ghost use Rattle.disk_log.specs.Disk.{IsImage, IsOutside};
ghost use Rattle.disk_log.specs.Memory.{history_of};

use crate::mem_disk::MemDisk;
use crate::moment::{Moment, Span};
use std::alloc::Global;
use wire_bcs::{OutOfMemory, Seq};

/// What a crash leaves at an offset that was written, or tried, since the last sync.
#[derive(Clone, Copy)]
enum Content {
    /// The byte that was stable, 0 past the stable size.
    Old,
    /// What reads give, 0 past their size.
    New,
    /// Another byte.
    Other,
}

/// What a crash leaves at all offsets that were written or tried since the last sync: they are parted in two at `cut`.
#[derive(Clone, Copy)]
struct Pick {
    /// The first offset of the second part.
    cut: u64,
    /// What is left in the first part.
    before: Content,
    /// What is left in the second part.
    behind: Content,
    /// The byte of `Content::Other`.
    other: u8,
}

/// The content that a digit stands for.
fn content_of(digit: u64) -> Content {
    match digit {
        0 => Content::Old,
        1 => Content::New,
        _ => Content::Other,
    }
}

/// The pick that a number stands for, if the first of these places is `start` and `most` the
/// greatest size. `MemDisk::crash` says how.
fn pick_of(choice: u64, start: u64, most: u64) -> Pick {
    let width = most.saturating_sub(start).max(1);
    let digits = choice / 9;
    Pick {
        cut: start.saturating_add(1).saturating_add(digits % width),
        before: content_of(choice % 3),
        behind: content_of(choice / 3 % 3),
        other: 255 - (digits / width % 256) as u8,
    }
}

/// The first place that lies in a range, or `most` if none does before it.
fn first_touched(ranges: &[Span], most: u64) -> u64 {
    let mut first = most;
    for span in ranges {
        first = first.min(span.at);
    }
    first
}

/// The end of the bytes that a crash does not leave as they were at the last sync.
fn reach(pick: &Pick, most: u64) -> u64 {
    match (pick.before, pick.behind) {
        (Content::Old, Content::Old) => 0,
        (_, Content::Old) => pick.cut,
        _ => most,
    }
}

/// The size that a crash leaves.
fn size_left(moment: &Moment, pick: &Pick) -> u64
    requires { length moment.now.stable ≤ moment.now.most }
    ensures { (length moment.now.stable ≤ result) × (result ≤ moment.now.most) }
{
    let reach = reach(pick, moment.most);
    reach.min(moment.most).max(moment.stable.len())
}

/// Whether a place lies in none of the ranges.
fn is_outside(ranges: &[Span], place: u64) -> bool
    ensures { IsTrue result ↔ IsOutside ranges.now place }
{
    let mut rest = ranges;
    while let [span, after @ ..] = rest {
        if span.at <= place && place - span.at < span.count {
            return false;
        }
        rest = after;
    }
    true
}

/// The byte at a place, 0 past the end.
fn byte_or_zero(bytes: &[u8], place: u64) -> u8
    ensures { place < length bytes.now → result ≡ slice_index bytes.now place }
{
    match bytes.get(place as usize) {
        Some(byte) => *byte,
        None => 0,
    }
}

/// The byte in a place that was written or tried.
fn touched_byte(moment: &Moment, pick: &Pick, place: u64) -> u8 {
    let content = if place < pick.cut {
        pick.before
    } else {
        pick.behind
    };
    match content {
        Content::Old => byte_or_zero(moment.stable.as_slice(), place),
        Content::New => byte_or_zero(moment.reads.as_slice(), place),
        Content::Other => pick.other,
    }
}

/// The byte that a crash leaves at a place: the stable one, or 0 past the stable size, if the
/// place lies in none of the ranges.
fn byte_left(moment: &Moment, pick: &Pick, place: u64) -> u8
    ensures { MayStand moment.now place result }
{
    if is_outside(moment.ranges.as_slice(), place) {
        return byte_or_zero(moment.stable.as_slice(), place);
    }
    touched_byte(moment, pick, place)
}

/// So many bytes of what a crash leaves.
fn bytes_left(
    alloc: Global,
    moment: &Moment,
    pick: &Pick,
    size: u64,
) -> Result<Seq<u8>, OutOfMemory>
    ensures size { IfOk result (λ bytes. length bytes ≡ size) }
    ensures bytes { IfOk result (MayBegin moment.now) }
{
    let mut bytes = Seq::new(alloc);
    for place in 0..size {
        bytes.push(byte_left(moment, pick, place))?;
    }
    Ok(bytes)
}

/// What a crash may leave at a moment. `MemDisk::crash` says what the number picks.
fn image(alloc: Global, moment: &Moment, choice: u64) -> Result<Seq<u8>, OutOfMemory>
    requires { length moment.now.stable ≤ moment.now.most }
    ensures { IfOk result (IsImage moment.now) }
{
    let start = first_touched(moment.ranges.as_slice(), moment.most);
    let pick = pick_of(choice, start, moment.most);
    bytes_left(alloc, moment, &pick, size_left(moment, &pick))
}

impl MemDisk {
    /// What a crash at the present moment may leave: a disk that begins with these bytes, all of
    /// them stable, and on which no call fails.
    ///
    /// The number picks. The offsets from the first that was written or tried since the last sync are parted in two.
    /// `choice % 3` says what stands in the first part, if it was written or tried, and `choice / 3 % 3` likewise for
    /// the second: 0 what was stable, 1 what reads give, 2 another byte. The first part has one offset and `choice / 9`
    /// more, counted modulo the number of offsets up to the greatest size; the other byte is 255, and one less for each
    /// time that this count wraps around. The file has the greatest size if the second part is not what was stable.
    /// Else it ends after the first part or, if that is what was stable too, at the stable size; it never ends before
    /// that.
    pub fn crash(self, choice: u64) -> Result<MemDisk, OutOfMemory>
        ensures image { IfOk result (λ d. IsImage (history_of self.first self.changes).now d.first) }
        ensures anew { IfOk result (λ d. d ≡ record { first = d.first; changes = []; turns = record { calls = 0; failing = [] }; faults = 0 }) }
    {
        let moment = self.moment()?;
        drop(self);
        let alloc = moment.reads.allocator();
        let left = image(alloc, &moment, choice)?;
        MemDisk::new(alloc, left.as_slice(), &[])
    }
}
