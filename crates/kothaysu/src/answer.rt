//! The [`Answer`] of each call of the C interface: a code with numbers.

ghost use Rattle.std.specs.Prelude.{◌≡◌};
ghost use Rattle.kothaysu.specs.Answers.{as_bytes, no_committee, refused, said};

use digest_core::Digest;
use light_client::Refusal;
use quorum_core::CommitteeRefusal;

/// A code, and up to three numbers, whose meaning `kothaysu.h` says for each code.
#[repr(C)]
#[derive(Clone, Copy, Debug, PartialEq, Eq)]
pub struct Answer {
    pub code: u32,
    pub cause: u32,
    pub first: u64,
    pub second: u64,
}

/// A digest, a seal or a secret.
#[repr(C)]
#[derive(Clone, Copy, Debug, PartialEq, Eq)]
pub struct Bytes32 {
    pub bytes: [u8; 32],
}

/// The answer with this code and these numbers.
pub(crate) fn said(code: u32, cause: u32, first: u64, second: u64) -> Answer
    ensures { result ≡ said code cause first second }
{
    Answer {
        code,
        cause,
        first,
        second,
    }
}

/// The answer for a refusal of the light client: its code, and the numbers that go with it.
pub(crate) fn refused(refusal: Refusal) -> Answer
    ensures { result ≡ refused refusal }
{
    match refusal {
        Refusal::OutOfMemory => said(1, 0, 0, 0),
        Refusal::TooLarge => said(2, 0, 0, 0),
        Refusal::Malformed { at, why } => said(3, u32::from(why), at, 0),
        Refusal::BadLink { place, cause } => said(5, u32::from(cause), place, 0),
        Refusal::NotIncluded => said(6, 0, 0, 0),
        Refusal::Shape { fault } => said(7, u32::from(fault), 0, 0),
        Refusal::Order => said(8, 0, 0, 0),
        Refusal::ShortStake { weight, total } => said(9, 0, weight, total),
        Refusal::BadSeal { member } => said(10, 0, u64::from(member), 0),
        Refusal::NoAcknowledgement { place } => said(11, 0, place, 0),
        Refusal::Differ { a, b } => said(12, 0, u64::from(a), u64::from(b)),
        Refusal::NoRivals => said(13, 0, 0, 0),
    }
}

/// The answer for stakes that are not a committee: code 4, and why.
pub(crate) fn no_committee(refusal: CommitteeRefusal) -> Answer
    ensures { result ≡ no_committee refusal }
{
    match refusal {
        CommitteeRefusal::NoMembers => said(4, 1, 0, 0),
        CommitteeRefusal::TooManyMembers => said(4, 2, 0, 0),
        CommitteeRefusal::ZeroStake(member) => said(4, 3, u64::from(member), 0),
    }
}

impl From<Refusal> for Answer {
    ghost from_gives = { λ refusal given. given ≡ refused refusal };

    fn from(refusal: Refusal) -> Self {
        refused(refusal)
    }
}

impl From<CommitteeRefusal> for Answer {
    ghost from_gives = { λ refusal given. given ≡ no_committee refusal };

    fn from(refusal: CommitteeRefusal) -> Self {
        no_committee(refusal)
    }
}

/// The digest as C has it.
pub(crate) fn as_bytes(digest: Digest) -> Bytes32
    ensures { result ≡ as_bytes digest }
{
    let bytes = digest.0;
    Bytes32 { bytes }
}
