//! Reading the records that count, from the first gate on.

ghost use Rattle.std.specs.Prelude.{◌≡◌, ◌⊎◌, ◌+◌, ◌<◌, ◌≤◌, ◌^◌, [], length, replicate, IfOk, IfSome, IfNone, IfErr, IsErr, drop};
ghost use Rattle.outside.specs.Causes.{Rose};
ghost use Rattle.wire_bcs.specs.Little.{value_of};
ghost use Rattle.disk_log.specs.Disk.{IfTold};
ghost use Rattle.disk_log.specs.Log.{HeadSays, IsInside, IsWalked, IsWalkedThrough, NextIs, WalkCause};
ghost use Rattle.disk_log.specs.Records.{counted};

use crate::disk::Disk;
use crate::index::Index;
use crate::moment::Span;
use crate::refusals::OpenRefusal;
use outside::Failed;
use wire_bcs::OutOfMemory;

/// A record that counts: whose it is, and how many bytes it has.
#[derive(Clone, Copy)]
pub(crate) struct Head {
    pub(crate) member: u32,
    pub(crate) count: u32,
}

/// The number that four bytes stand for, the lowest first.
#[tactic(auto, using(crate::proofs::Heads::stands))]
fn number(bytes: &[u8]) -> u32
    requires { length bytes.now ≡ 4 }
    ensures { result ≡ value_of bytes.now }
{
    let mut cells = [0; 4];
    cells.copy_from_slice(bytes);
    u32::from_le_bytes(cells)
}

/// What the nine bytes at a gate say of a record, if it counts when the ones before it do and
/// `left` bytes are left from the gate on.
fn head_in(bytes: &[u8], left: u64) -> Option<Head>
    requires { length bytes.now ≡ 9 }
    ensures { HeadSays bytes.now left result }
{
    let (gate, behind) = bytes.split_at(1);
    let (count, rest) = behind.split_at(4);
    let (member, _) = rest.split_at(4);
    let count = number(count);
    if gate[0] != 1 || left <= 9 + count as u64 {
        return None;
    }
    Some(Head {
        member: number(member),
        count,
    })
}

/// The record whose gate stands at `at`, if it counts when the ones before it do.
fn read_next<K: Disk>(disk: &mut K, at: u64) -> Result<Option<Head>, Failed>
    requires { at ≤ K.extent disk.old }
    ensures next { IfOk result (λ next. IfTold (K.history disk.old) (λ h. NextIs (drop at h.now.reads) next)) }
    ensures within { IfOk result (λ next. IfSome next (λ head. at + 9 + head.count < K.extent disk.old)) }
    ensures below { K.extent disk.old < 2 ^ 63 }
    ensures history { K.history disk.new ≡ K.history disk.old }
    ensures extent { K.extent disk.new ≡ K.extent disk.old }
    ensures later { K.failed disk.old ≤ K.failed disk.new }
    ensures failed { IsErr result → Rose (K.failed disk.old) (K.failed disk.new) }
{
    let left = disk.size() - at;
    if left < 10 {
        return Ok(None);
    }
    let mut head = [0; 9];
    match disk.read_at(at, head.as_mut_slice()) {
        Ok(()) => Ok(head_in(head.as_slice(), left)),
        Err(Failed) => Err(Failed),
    }
}

/// Adds to the index the range of the record whose gate stands at `at`. Answers where the next gate stands, or none if
/// the record does not count.
fn step<K: Disk>(disk: &mut K, index: &mut Index, at: u64) -> Result<Option<u64>, OpenRefusal>
    requires within { at ≤ K.extent disk.old }
    requires inside { IsInside at index.old }
    requires walked { IfTold (K.history disk.old) (λ h. IsWalked at index.old h.now.reads) }
    ensures on { IfOk result (λ next. IfSome next (λ then. (at < then) × (then < K.extent disk.old) × IsInside then index.new)) }
    ensures more { IfOk result (λ next. IfSome next (λ then. IfTold (K.history disk.old) (λ h. IsWalked then index.new h.now.reads))) }
    ensures end { IfOk result (λ next. IfNone next (index.new ≡ index.old)) }
    ensures through { IfOk result (λ next. IfNone next (IfTold (K.history disk.old) (λ h. counted (drop at h.now.reads) ≡ []))) }
    ensures cause { IfErr result (WalkCause (K.failed disk.old) (K.failed disk.new) (K.history disk.old) (length index.old)) }
    ensures width { length index.new ≡ length index.old }
    ensures later { K.failed disk.old ≤ K.failed disk.new }
    ensures history { K.history disk.new ≡ K.history disk.old }
    ensures extent { K.extent disk.new ≡ K.extent disk.old }
{
    let head = match read_next(disk, at) {
        Ok(Some(head)) => head,
        Ok(None) => return Ok(None),
        Err(Failed) => return Err(OpenRefusal::DiskFault),
    };
    if head.member as u64 >= index.members() {
        return Err(OpenRefusal::BadMember { at });
    }
    let span = Span {
        at: at + 9,
        count: head.count as u64,
    };
    match index.add(head.member, span) {
        Ok(()) => Ok(Some(span.at + span.count)),
        Err(OutOfMemory) => Err(OpenRefusal::OutOfMemory),
    }
}

/// Adds the ranges of the records that count to an index that is empty. Answers where the gate after them stands.
pub(crate) fn walk<K: Disk>(disk: &mut K, index: &mut Index) -> Result<u64, OpenRefusal>
    requires { index.old ≡ replicate (length index.old) [] }
    ensures within { IfOk result (λ end. (end ≤ K.extent disk.old) × IsInside end index.new) }
    ensures gate { IfOk result (λ end. (end ≡ 0) ⊎ (end < K.extent disk.old)) }
    ensures through { IfOk result (λ end. IfTold (K.history disk.old) (λ h. IsWalkedThrough end index.new h.now.reads)) }
    ensures cause { IfErr result (WalkCause (K.failed disk.old) (K.failed disk.new) (K.history disk.old) (length index.old)) }
    ensures width { length index.new ≡ length index.old }
    ensures later { K.failed disk.old ≤ K.failed disk.new }
    ensures history { K.history disk.new ≡ K.history disk.old }
    ensures extent { K.extent disk.new ≡ K.extent disk.old }
{
    let mut at = 0;
    loop {
        match step(disk, index, at) {
            Ok(Some(next)) => at = next,
            Ok(None) => return Ok(at),
            Err(refusal) => return Err(refusal),
        }
    }
}
