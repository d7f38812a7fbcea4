//! The first record of a journal, which says of which member and of which set-up it is.

ghost use Rattle.std.specs.Prelude.{◌≡◌, ◌+◌, ◌≤◌, ◌++◌, [], IfOk, IsErr, bytes_eq, length};
ghost use Rattle.outside.specs.Causes.{Rose};
ghost use Rattle.disk_log.specs.Disk.{IfTold};
ghost use Rattle.validator_process.specs.Identity.{front, genesis_digest, head_of_bytes, head_of_file, head_of_parts, identity_bytes, mark};

use digest_core::{Digest, digest_of};
use disk_log::Disk;
use outside::Failed;
use std::alloc::Global;
use wire_bcs::{OutOfMemory, Seq};

/// The list of the first record, which comes after the lists of the members.
pub(crate) const IDENTITY_LIST: u32 = 64;

/// How many lists a journal has.
pub(crate) const LISTS: u32 = 65;

/// The tag of the digest of a set-up: `J`.
const TAG_GENESIS_TEXT: u8 = 0x4a;

/// How many bytes the first record takes in the file, with the gate, length and list before it.
pub(crate) const HEAD_SIZE: u64 = 65;

/// The digest of the text of a set-up. Takes no memory.
pub(crate) fn genesis_digest(text: &[u8]) -> Digest
    ensures { result ≡ genesis_digest text.now }
{
    digest_of(TAG_GENESIS_TEXT, text)
}

/// The bytes of the first record: the mark, the member in 4 bytes with the lowest first, and the digest of the set-up.
pub(crate) fn identity_of(
    alloc: Global,
    member: u32,
    genesis: &Digest,
) -> Result<Seq<u8>, OutOfMemory>
    ensures { IfOk result (λ bytes. bytes ≡ identity_bytes member genesis.now) }
{
    let mut bytes = Seq::from_slice(alloc, b"kothaysu validator 1".as_slice())?;
    bytes.extend(member.to_le_bytes().as_slice())?;
    bytes.extend(genesis.0.as_slice())?;
    Ok(bytes)
}

/// What the first bytes of a file say of its journal.
#[derive(Clone, Copy, Debug, PartialEq, Eq)]
pub(crate) enum Head {
    /// The file is a journal of this member and this set-up.
    Own,
    /// The file is not a journal, or its making was cut off.
    Unmade,
    OtherMember,
    OtherGenesis,
}

/// Whether the bytes are an open gate, the length 56 and the list 64, as they stand before the first record of a
/// journal.
fn is_front(bytes: &[u8]) -> bool
    ensures { result ≡ bytes_eq bytes.now front }
{
    bytes == [1, 56, 0, 0, 0, 64, 0, 0, 0].as_slice()
}

/// Whether the bytes are the mark of a validator's journal.
fn is_mark(bytes: &[u8]) -> bool
    ensures { result ≡ bytes_eq bytes.now mark }
{
    bytes == b"kothaysu validator 1".as_slice()
}

/// What the parts of the first bytes of a file say of its journal.
fn head_of_parts(
    member: u32,
    genesis: &Digest,
    gate: &[u8],
    text: &[u8],
    number: &[u8],
    digest: &[u8],
) -> Head
    ensures { result ≡ head_of_parts member genesis.now gate.now text.now number.now digest.now }
{
    if !is_front(gate) || !is_mark(text) {
        return Head::Unmade;
    }
    if number != member.to_le_bytes().as_slice() {
        return Head::OtherMember;
    }
    if digest != genesis.0.as_slice() {
        return Head::OtherGenesis;
    }
    Head::Own
}

/// What the first 65 bytes of a file are: an open gate, the length 56 and the list 64 in 4 bytes each, and the record.
#[tactic(auto, unfolding(crate::specs::Identity::head_of_bytes))]
fn head_of(bytes: &[u8], member: u32, genesis: &Digest) -> Head
    requires { length bytes.now ≡ 65 }
    ensures { result ≡ head_of_bytes member genesis.now bytes.now }
{
    let (gate, rest) = bytes.split_at(9);
    let (text, rest) = rest.split_at(20);
    let (number, digest) = rest.split_at(4);
    head_of_parts(member, genesis, gate, text, number, digest)
}

/// What the first bytes of a disk say of its journal. Writes nothing, and takes no memory.
pub(crate) fn read_head<F: Disk>(
    disk: &mut F,
    member: u32,
    genesis: &Digest,
) -> Result<Head, Failed>
    ensures is { IfOk result (λ head. IfTold (F.history disk.old) (λ h. head ≡ head_of_file member genesis.now h.now.reads)) }
    ensures history { F.history disk.new ≡ F.history disk.old }
    ensures later { F.failed disk.old ≤ F.failed disk.new }
    ensures failed { IsErr result → Rose (F.failed disk.old) (F.failed disk.new) }
{
    if disk.size() <= HEAD_SIZE {
        return Ok(Head::Unmade);
    }
    let mut bytes = [0; 65];
    match disk.read_at(0, bytes.as_mut_slice()) {
        Ok(()) => Ok(head_of(bytes.as_slice(), member, genesis)),
        Err(Failed) => Err(Failed),
    }
}
