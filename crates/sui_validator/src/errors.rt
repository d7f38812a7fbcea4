//! The [`Error`] of any call of this crate, with a sentence for each cause.

ghost use Rattle.std.specs.Prelude.{◌≡◌};
ghost use Rattle.sui_validator.specs.declared.errors.Error.TheVariants as errors;

use crate::opening::OpenRefusal;
use disk_log::OpenRefusal as DiskRefusal;
use light_client::Refusal;
use outside::OutFault;
use protocol_spec::{
    AckRefusal, CloseRefusal, EndRefusal, HoldRefusal, RunRefusal, SeeRefusal, StartRefusal,
    TurnRefusal, VoteRefusal,
};
use quorum_core::CommitteeRefusal;
use std::error;
use std::fmt::{self, Display};
use wallet_core::{EncodeRefusal, GatherRefusal};
use wire_bcs::{OutOfMemory, Unread};

/// Why a call did not do what was asked: the refusal of any call of this crate. Each of its causes has a sentence with the ids and
/// numbers in it.
#[derive(Clone, Copy, PartialEq, Eq)]
pub enum Error {
    Open(OpenRefusal),
    Vote(VoteRefusal),
    Hold(HoldRefusal),
    See(SeeRefusal),
    Run(RunRefusal),
    Close(CloseRefusal),
    End(EndRefusal),
    Turn(TurnRefusal),
    Ack(AckRefusal),
    /// The stakes are not those of a committee.
    Committee(CommitteeRefusal),
    /// A disk is not opened as a journal.
    Disk(DiskRefusal),
    /// Bytes are not a value.
    Unread(Unread),
    /// A value could not be encoded.
    Encode(EncodeRefusal),
    /// Votes make no certificate, or acknowledgements make nothing final.
    Gather(GatherRefusal),
    /// A refusal of the light client.
    Client(Refusal),
    /// Bytes could not be read or written.
    Outside(OutFault),
    OutOfMemory,
}

impl fmt::Display for OpenRefusal {
    fn fmt<W: fmt::Write>(&self, f: &mut fmt::Formatter<W>) -> fmt::Result {
        match *self {
            OpenRefusal::NoMember { number, members } => {
                write!(
                    f,
                    "the committee has {members} members, and none of number {number}"
                )
            }
            OpenRefusal::ObjectTwice => f.write_str("an object comes twice among the opening ones"),
            OpenRefusal::ReadFault => f.write_str("a record of the journal could not be read"),
            OpenRefusal::BadRecord { place, why } => {
                StartRefusal::BadRecord { place, why }.fmt(f)
            }
            OpenRefusal::OutOfMemory => OutOfMemory.fmt(f),
        }
    }
}

impl fmt::Display for Error {
    fn fmt<W: fmt::Write>(&self, f: &mut fmt::Formatter<W>) -> fmt::Result {
        match *self {
            Error::Open(refusal) => refusal.fmt(f),
            Error::Vote(refusal) => refusal.fmt(f),
            Error::Hold(refusal) => refusal.fmt(f),
            Error::See(refusal) => refusal.fmt(f),
            Error::Run(refusal) => refusal.fmt(f),
            Error::Close(refusal) => refusal.fmt(f),
            Error::End(refusal) => refusal.fmt(f),
            Error::Turn(refusal) => refusal.fmt(f),
            Error::Ack(refusal) => refusal.fmt(f),
            Error::Committee(refusal) => refusal.fmt(f),
            Error::Disk(refusal) => refusal.fmt(f),
            Error::Unread(unread) => unread.fmt(f),
            Error::Encode(refusal) => refusal.fmt(f),
            Error::Gather(refusal) => refusal.fmt(f),
            Error::Client(refusal) => refusal.fmt(f),
            Error::Outside(fault) => fault.fmt(f),
            Error::OutOfMemory => OutOfMemory.fmt(f),
        }
    }
}

impl fmt::Debug for OpenRefusal {
    fn fmt<W: fmt::Write>(&self, f: &mut fmt::Formatter<W>) -> fmt::Result {
        fmt::Display::fmt(self, f)
    }
}

impl fmt::Debug for Error {
    fn fmt<W: fmt::Write>(&self, f: &mut fmt::Formatter<W>) -> fmt::Result {
        fmt::Display::fmt(self, f)
    }
}

impl error::Error for OpenRefusal {}

impl error::Error for Error {}

impl From<OpenRefusal> for Error {
    ghost from_gives = { λ refusal given. given ≡ errors.Open refusal };

    fn from(refusal: OpenRefusal) -> Self {
        Error::Open(refusal)
    }
}

impl From<VoteRefusal> for Error {
    ghost from_gives = { λ refusal given. given ≡ errors.Vote refusal };

    fn from(refusal: VoteRefusal) -> Self {
        Error::Vote(refusal)
    }
}

impl From<HoldRefusal> for Error {
    ghost from_gives = { λ refusal given. given ≡ errors.Hold refusal };

    fn from(refusal: HoldRefusal) -> Self {
        Error::Hold(refusal)
    }
}

impl From<SeeRefusal> for Error {
    ghost from_gives = { λ refusal given. given ≡ errors.See refusal };

    fn from(refusal: SeeRefusal) -> Self {
        Error::See(refusal)
    }
}

impl From<RunRefusal> for Error {
    ghost from_gives = { λ refusal given. given ≡ errors.Run refusal };

    fn from(refusal: RunRefusal) -> Self {
        Error::Run(refusal)
    }
}

impl From<CloseRefusal> for Error {
    ghost from_gives = { λ refusal given. given ≡ errors.Close refusal };

    fn from(refusal: CloseRefusal) -> Self {
        Error::Close(refusal)
    }
}

impl From<EndRefusal> for Error {
    ghost from_gives = { λ refusal given. given ≡ errors.End refusal };

    fn from(refusal: EndRefusal) -> Self {
        Error::End(refusal)
    }
}

impl From<TurnRefusal> for Error {
    ghost from_gives = { λ refusal given. given ≡ errors.Turn refusal };

    fn from(refusal: TurnRefusal) -> Self {
        Error::Turn(refusal)
    }
}

impl From<AckRefusal> for Error {
    ghost from_gives = { λ refusal given. given ≡ errors.Ack refusal };

    fn from(refusal: AckRefusal) -> Self {
        Error::Ack(refusal)
    }
}

impl From<CommitteeRefusal> for Error {
    ghost from_gives = { λ refusal given. given ≡ errors.Committee refusal };

    fn from(refusal: CommitteeRefusal) -> Self {
        Error::Committee(refusal)
    }
}

impl From<DiskRefusal> for Error {
    ghost from_gives = { λ refusal given. given ≡ errors.Disk refusal };

    fn from(refusal: DiskRefusal) -> Self {
        Error::Disk(refusal)
    }
}

impl From<Unread> for Error {
    ghost from_gives = { λ unread given. given ≡ errors.Unread unread };

    fn from(unread: Unread) -> Self {
        Error::Unread(unread)
    }
}

impl From<EncodeRefusal> for Error {
    ghost from_gives = { λ refusal given. given ≡ errors.Encode refusal };

    fn from(refusal: EncodeRefusal) -> Self {
        Error::Encode(refusal)
    }
}

impl From<GatherRefusal> for Error {
    ghost from_gives = { λ refusal given. given ≡ errors.Gather refusal };

    fn from(refusal: GatherRefusal) -> Self {
        Error::Gather(refusal)
    }
}

impl From<Refusal> for Error {
    ghost from_gives = { λ refusal given. given ≡ errors.Client refusal };

    fn from(refusal: Refusal) -> Self {
        Error::Client(refusal)
    }
}

impl From<OutFault> for Error {
    ghost from_gives = { λ fault given. given ≡ errors.Outside fault };

    fn from(fault: OutFault) -> Self {
        Error::Outside(fault)
    }
}

impl From<OutOfMemory> for Error {
    ghost from_gives = { λ _ given. given ≡ errors.OutOfMemory };

    fn from(_error: OutOfMemory) -> Self {
        Error::OutOfMemory
    }
}
