//! Who is to blame for two certificates.

ghost use Rattle.std.specs.Prelude.{◌≡◌, ◌==◌, false, length};
ghost use Rattle.light_client.specs.Blaming.{blame_answer};
ghost use Rattle.kothaysu.specs.Answers.{Answered, as_answer};
ghost use Rattle.kothaysu.specs.Buffers.{BlameListed, PutsBlame, as_version, blame_told, told_blame};

use crate::answer::{Answer, Bytes32, as_bytes, said};
use crate::buffers::fill;
use chain_types::ObjectKey;
use light_check::DoubleVote;
use light_client::blame_members;
use std::alloc::Global;

/// One version of one object.
#[repr(C)]
#[derive(Clone, Copy, Debug, PartialEq, Eq)]
pub struct Version {
    pub id: Bytes32,
    pub version: u64,
}

/// A version, as C has it.
fn as_version(key: &ObjectKey) -> Version
    ensures { result ≡ as_version key.now }
{
    Version {
        id: as_bytes(key.id.0),
        version: key.version,
    }
}

/// Who is to blame for the two certificates that the bytes encode, or the answer that says why nobody is.
fn both(alloc: Global, one: &[u8], other: &[u8]) -> Result<DoubleVote, Answer>
    ensures { Answered result (as_answer (blame_answer one.now other.now)) }
{
    Ok(blame_members(alloc, one, other)?)
}

/// Puts the members and the version into the caller's buffers, if there is room for the members.
fn put_blame(both: &DoubleVote, members: &mut [u32], version: &mut Version) -> Answer
    ensures told { result ≡ blame_told (length members.old) both.now }
    ensures put { result.code ≡ 0 → BlameListed members.old members.new version.new both.now }
    ensures kept_members { (result.code == 0) ≡ false → members.new ≡ members.old }
    ensures kept_version { (result.code == 0) ≡ false → version.new ≡ version.old }
{
    let count = both.members.len();
    if count > members.len() as u64 {
        return said(14, 0, count, 0);
    }
    fill(members, both.members.as_slice());
    *version = as_version(&both.key);
    said(0, 0, count, 0)
}

/// Who is to blame for the two certificates that the bytes encode, which are of two transactions of one epoch that
/// consume one version. Code 0: `members` begins with the members whose seals stand under both, `first` is their number, and
/// `version` is filled. Code 14: `members` has too little room, `first` says how much is needed, and nothing is written.
#[unsafe(no_mangle)]
pub extern "C" fn kothaysu_blame(
    alloc: Global,
    one: &[u8],
    other: &[u8],
    members: &mut [u32],
    version: &mut Version,
    answer: &mut Answer,
) -> u32
    ensures code { result ≡ answer.new.code }
    ensures told { (answer.new.code == 1) ≡ false → answer.new ≡ told_blame (length members.old) (as_answer (blame_answer one.now other.now)) }
    ensures put { answer.new.code ≡ 0 → PutsBlame members.old members.new version.new (as_answer (blame_answer one.now other.now)) }
    ensures kept_members { (answer.new.code == 0) ≡ false → members.new ≡ members.old }
    ensures kept_version { (answer.new.code == 0) ≡ false → version.new ≡ version.old }
{
    *answer = match both(alloc, one, other) {
        Ok(it) => {
            let told = put_blame(&it, members, version);
            drop(it);
            told
        }
        Err(why) => why,
    };
    answer.code
}
