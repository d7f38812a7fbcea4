//! The journal of one member, as the keeper that a validator's calls take.

ghost use Rattle.std.specs.Prelude.{◌≡◌, ◌+◌, ◌==◌, if◌then◌else◌};
ghost use Rattle.sui_validator.specs.Journals.{as_lists};

use crate::journal::Journal;
use outside::{Keeper, OutFault};
use wire_bcs::Seq;

/// The journal of one member as a keeper: the lists of members before it are empty, and no other member can keep a
/// record.
#[derive(Drop)]
pub(crate) struct Sole<J: Journal> {
    pub(crate) journal: J,
    pub(crate) member: u8,
}

impl<J: Journal> Sole<J> {
    /// Whether this is the member whose journal it is.
    fn is_own(&self, member: u32) -> bool
        ensures { result ≡ (member == self.now.member) }
    {
        member == u32::from(self.member)
    }

    /// The journal.
    pub(crate) fn into_journal(self) -> J
        ensures { result ≡ self.journal }
    {
        let Sole {
            journal,
            member: _member,
        } = self;
        journal
    }
}

impl<J: Journal> Keeper for Sole<J> {
    ghost lists = { λ s. as_lists s.member (J.records s.journal) };

    ghost width = { λ s. s.member + 1 };

    ghost size = { λ s m. if m == s.member then J.size s.journal else 0 };

    ghost failed = { λ s. J.failed s.journal };

    fn append(&mut self, member: u32, bytes: &[u8]) -> Result<(), OutFault> {
        if self.is_own(member) {
            return self.journal.append(bytes);
        }
        Err(OutFault::OutOfMemory)
    }

    fn members(&self) -> u32 {
        u32::from(self.member) + 1
    }

    fn faults(&self) -> u64 {
        self.journal.faults()
    }

    fn count(&self, member: u32) -> u64 {
        if self.is_own(member) {
            return self.journal.count();
        }
        0
    }

    fn read(&mut self, member: u32, place: u64) -> Result<Seq<u8>, OutFault> {
        if self.is_own(member) {
            return self.journal.read(place);
        }
        Err(OutFault::OutOfMemory)
    }
}
