//! Records, appended before they are taken.

ghost use Rattle.std.specs.Prelude.{◌≡◌, ◌<◌, ◌≤◌, IsErrOf};
ghost use Rattle.journal_core.specs.Records as journals;
ghost use Rattle.journal_core.specs.Encoded.{IsEncodedIn};
ghost use Rattle.journal_core.specs.declared.records.Record.{Record};
ghost use Rattle.journal_core.specs.declared.records.Record.TheVariants as record_as;
ghost use Rattle.outside.specs.Causes.{Rose};
ghost use Rattle.validator_core.specs.declared.keeping.JournalFault.TheVariants as unkept;
ghost use Rattle.validator_core.specs.Seats.{Appended};
ghost use Rattle.validator_core.specs.Calls.{unkept_close, unkept_hold, unkept_run, unkept_see, unkept_turn, unkept_vote};

use journal_core::{Record, encode_record, encode_record_with, encode_see};
use outside::{Keeper, OutFault};
use protocol_spec::{CloseRefusal, HoldRefusal, RunRefusal, SeeRefusal, TurnRefusal, VoteRefusal};
use std::alloc::Global;

/// Why a record was not kept.
#[derive(Clone, Copy)]
pub(crate) enum JournalFault {
    KeepFault,
    OutOfMemory,
}

impl From<JournalFault> for VoteRefusal {
    ghost from_gives = { λ why given. given ≡ unkept_vote why };

    fn from(why: JournalFault) -> VoteRefusal {
        match why {
            JournalFault::KeepFault => VoteRefusal::KeepFault,
            JournalFault::OutOfMemory => VoteRefusal::OutOfMemory,
        }
    }
}

impl From<JournalFault> for HoldRefusal {
    ghost from_gives = { λ why given. given ≡ unkept_hold why };

    fn from(why: JournalFault) -> HoldRefusal {
        match why {
            JournalFault::KeepFault => HoldRefusal::KeepFault,
            JournalFault::OutOfMemory => HoldRefusal::OutOfMemory,
        }
    }
}

impl From<JournalFault> for SeeRefusal {
    ghost from_gives = { λ why given. given ≡ unkept_see why };

    fn from(why: JournalFault) -> SeeRefusal {
        match why {
            JournalFault::KeepFault => SeeRefusal::KeepFault,
            JournalFault::OutOfMemory => SeeRefusal::OutOfMemory,
        }
    }
}

impl From<JournalFault> for RunRefusal {
    ghost from_gives = { λ why given. given ≡ unkept_run why };

    fn from(why: JournalFault) -> RunRefusal {
        match why {
            JournalFault::KeepFault => RunRefusal::KeepFault,
            JournalFault::OutOfMemory => RunRefusal::OutOfMemory,
        }
    }
}

impl From<JournalFault> for CloseRefusal {
    ghost from_gives = { λ why given. given ≡ unkept_close why };

    fn from(why: JournalFault) -> CloseRefusal {
        match why {
            JournalFault::KeepFault => CloseRefusal::KeepFault,
            JournalFault::OutOfMemory => CloseRefusal::OutOfMemory,
        }
    }
}

impl From<JournalFault> for TurnRefusal {
    ghost from_gives = { λ why given. given ≡ unkept_turn why };

    fn from(why: JournalFault) -> TurnRefusal {
        match why {
            JournalFault::KeepFault => TurnRefusal::KeepFault,
            JournalFault::OutOfMemory => TurnRefusal::OutOfMemory,
        }
    }
}

/// Appends the encoding of a record to the list of a member. One of 2^31 bytes, more than any that is due, counts as running out of
/// memory.
fn append_bytes<D: Keeper>(keeper: &mut D, member: u32, bytes: &[u8]) -> Result<(), JournalFault>
    requires known { member < D.width keeper.old }
    ensures kept { (kept : Record) → bytes.now ≡ journals.journal_record.spell kept → Appended (D.lists keeper.old) (D.lists keeper.new) member kept result }
    ensures width { D.width keeper.new ≡ D.width keeper.old }
    ensures later { D.failed keeper.old ≤ D.failed keeper.new }
    ensures fault { IsErrOf result unkept.KeepFault → Rose (D.failed keeper.old) (D.failed keeper.new) }
{
    if bytes.len() >= 1 << 31 {
        return Err(JournalFault::OutOfMemory);
    }
    match keeper.append(member, bytes) {
        Ok(()) => Ok(()),
        Err(OutFault::Failed) => Err(JournalFault::KeepFault),
        Err(OutFault::OutOfMemory) => Err(JournalFault::OutOfMemory),
    }
}

/// Appends a record to the list of a member.
pub(crate) fn append<D: Keeper>(
    alloc: Global,
    keeper: &mut D,
    member: u32,
    kept: &Record,
) -> Result<(), JournalFault>
    requires known { member < D.width keeper.old }
    requires short { journals.journal_record.short kept.now }
    ensures kept { Appended (D.lists keeper.old) (D.lists keeper.new) member kept.now result }
    ensures width { D.width keeper.new ≡ D.width keeper.old }
    ensures later { D.failed keeper.old ≤ D.failed keeper.new }
    ensures fault { IsErrOf result unkept.KeepFault → Rose (D.failed keeper.old) (D.failed keeper.new) }
{
    let Ok(bytes) = encode_record(alloc, kept) else {
        return Err(JournalFault::OutOfMemory);
    };
    append_bytes(keeper, member, bytes.as_slice())
}

/// Appends the record of a vote or a certificate, whose transaction or certificate these bytes encode.
pub(crate) fn append_encoded<D: Keeper>(
    alloc: Global,
    keeper: &mut D,
    member: u32,
    kept: &Record,
    encoded: &[u8],
) -> Result<(), JournalFault>
    requires known { member < D.width keeper.old }
    requires short { journals.journal_record.short kept.now }
    requires encoded { IsEncodedIn kept.now encoded.now }
    ensures kept { Appended (D.lists keeper.old) (D.lists keeper.new) member kept.now result }
    ensures width { D.width keeper.new ≡ D.width keeper.old }
    ensures later { D.failed keeper.old ≤ D.failed keeper.new }
    ensures fault { IsErrOf result unkept.KeepFault → Rose (D.failed keeper.old) (D.failed keeper.new) }
{
    let Ok(bytes) = encode_record_with(alloc, kept, encoded) else {
        return Err(JournalFault::OutOfMemory);
    };
    append_bytes(keeper, member, bytes.as_slice())
}

/// Appends the record of an entry. One of 2^31 bytes, more than any list of records can keep, counts as out of memory.
pub(crate) fn append_see<D: Keeper>(
    alloc: Global,
    keeper: &mut D,
    member: u32,
    entry: &[u8],
) -> Result<(), JournalFault>
    requires known { member < D.width keeper.old }
    ensures kept { Appended (D.lists keeper.old) (D.lists keeper.new) member (record_as.See entry.now) result }
    ensures width { D.width keeper.new ≡ D.width keeper.old }
    ensures later { D.failed keeper.old ≤ D.failed keeper.new }
    ensures fault { IsErrOf result unkept.KeepFault → Rose (D.failed keeper.old) (D.failed keeper.new) }
{
    if entry.len() >= 1 << 31 {
        return Err(JournalFault::OutOfMemory);
    }
    let Ok(bytes) = encode_see(alloc, entry) else {
        return Err(JournalFault::OutOfMemory);
    };
    append_bytes(keeper, member, bytes.as_slice())
}
