//! The [`Journal`] trait: where one member keeps its records; and the first list of a keeper as a journal.

ghost use Rattle.std.specs.Prelude.{◌≡◌, ◌==◌, ◌<◌, ◌^◌, ℕ, List, Option, Some, None, IfOk, if◌then◌else◌, length};
ghost use Rattle.outside.specs.Causes.{KeepCause};
ghost use Rattle.outside.specs.Lists.{journal_of};
ghost use Rattle.sui_validator.specs.Journals.{Adds, IsAt, IsCount, Stays, first_of};

use outside::{Keeper, OutFault};
use std::marker::Model;
use wire_bcs::Seq;

/// A list of records, numbered from 0, to which records are added at the end.
pub trait Journal {
    /// The records, if they are observable.
    ghost records: { Self → Option (List (List ℕ)) };

    /// How many records there are.
    ghost size: { Self → ℕ };

    /// The count of faults.
    ghost failed: { Self → ℕ };

    /// Adds a record at the end. After `Failed` it stands or does not; if memory was refused nothing changed.
    fn append(&mut self, bytes: &[u8]) -> Result<(), OutFault>
        requires { length bytes.now < 2 ^ 31 }
        ensures records { Adds (records self.old) (records self.new) bytes.now result }
        ensures cause { KeepCause (failed self.old) (failed self.new) result };

    /// The number of records. Takes no memory.
    fn count(&self) -> u64
        ensures size { result ≡ size self.now }
        ensures told { IsCount (records self.now) result };

    /// The count of faults. Takes no memory.
    fn faults(&self) -> u64
        ensures { result ≡ failed self.now };

    /// The record at a place below the count, from 0. Changes nothing.
    fn read(&mut self, place: u64) -> Result<Seq<u8>, OutFault>
        requires { place < size self.old }
        ensures record { IfOk result (IsAt (records self.old) place) }
        ensures records { Stays (records self.old) (records self.new) }
        ensures size { size self.new ≡ size self.old }
        ensures cause { KeepCause (failed self.old) (failed self.new) result };
}

/// The first list of a keeper, as a journal.
#[derive(Drop)]
pub struct FirstList<D: Keeper> {
    keeper: D,
}

impl<D: Keeper> Model for FirstList<D> {
    ghost use Rattle.std.specs.Prelude.{◌<◌};

    ghost Value = { D };

    ghost view = { λ l. l.keeper };

    ghost invariant = { λ l. 0 < D.width l.keeper };
}

impl<D: Keeper> FirstList<D> {
    /// The first list of a keeper that has one.
    pub(crate) fn over(keeper: D) -> FirstList<D>
        requires { 0 < D.width keeper }
        ensures { result ≡ keeper }
    {
        FirstList { keeper }
    }

    /// The first list of this keeper; none if it has no list.
    pub fn new(keeper: D) -> Option<FirstList<D>>
    where
        D: Drop,
        ensures { result ≡ (if D.width keeper == 0 then None else Some keeper) }
    {
        if keeper.members() == 0 {
            return None;
        }
        Some(FirstList { keeper })
    }

    /// Gives back the keeper.
    pub fn into_keeper(self) -> D
        ensures { result ≡ self }
    {
        self.keeper
    }
}

impl<D: Keeper> Journal for FirstList<D> {
    ghost records = { λ l. first_of (D.lists l) };

    ghost size = { λ l. D.size l 0 };

    ghost failed = { λ l. D.failed l };

    fn append(&mut self, bytes: &[u8]) -> Result<(), OutFault> {
        let members = self.keeper.members();
        prove!(members > 0);
        self.keeper.append(0, bytes)
    }

    fn count(&self) -> u64 {
        self.keeper.count(0)
    }

    fn faults(&self) -> u64 {
        self.keeper.faults()
    }

    fn read(&mut self, place: u64) -> Result<Seq<u8>, OutFault> {
        self.keeper.read(0, place)
    }
}
