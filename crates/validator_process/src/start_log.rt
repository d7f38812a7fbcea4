//! The log of a journal as the keeper from which a member starts: it is only read.

ghost use Rattle.std.specs.Prelude.{◌≡◌, ℕ, Bool, false, List, [], None, Option, length, slice_index};
ghost use Rattle.disk_log.specs.Disk.{History};
ghost use Rattle.disk_log.specs.Keeping.{told_lists};
ghost use Rattle.validator_process.specs.Growing.{StandsAs};

use disk_log::{Disk, DiskLog};
use outside::{Keeper, OutFault};
use std::marker::{Brand, Model, PhantomData};
use wire_bcs::Seq;

/// What a log was when a start began, as types that only contracts see. Each start picks its own.
pub(crate) trait Opening {
    ghost history: { Option History };

    ghost end: { ℕ };

    ghost counts: { List ℕ };

    ghost shut: { Bool };
}

impl Opening for Brand {
    ghost history = { None };

    ghost end = { 0 };

    ghost counts = { [] };

    ghost shut = { false };
}

/// A log as the keeper of a start, which stays as it was: an append counts as out of memory. Contracts see the log.
pub(crate) struct StartLog<F: Disk, O: Opening> {
    log: DiskLog<F>,
    opening: PhantomData<O>,
}

impl<F: Disk, O: Opening> Model for StartLog<F, O> {
    ghost use Rattle.disk_log.specs.Keeping.{LogState};
    ghost use Rattle.validator_process.specs.Growing.{StandsAs};

    ghost Value = { LogState F };

    ghost view = { λ s. s.log };

    ghost invariant = { λ s. StandsAs (F.history s.log.disk) s.log.end s.log.counts s.log.shut O.history O.end O.counts O.shut };
}

impl<F: Disk, O: Opening> StartLog<F, O> {
    /// The keeper over a log that was opened.
    pub(crate) fn new(log: DiskLog<F>) -> StartLog<F, O>
        requires { StandsAs (F.history log.disk) log.end log.counts log.shut O.history O.end O.counts O.shut }
        ensures { result ≡ log }
    {
        StartLog {
            log,
            opening: PhantomData,
        }
    }

    /// The log.
    pub(crate) fn into_log(self) -> DiskLog<F>
        ensures log { result ≡ self }
        ensures stands { StandsAs (F.history self.disk) self.end self.counts self.shut O.history O.end O.counts O.shut }
    {
        let StartLog {
            log,
            opening: _opening,
        } = self;
        log
    }
}

/// The lists are those of the records that were acknowledged, if the disk shows its bytes.
impl<F: Disk, O: Opening> Keeper for StartLog<F, O> {
    ghost lists = { λ l. told_lists (F.history l.disk) l.end (length l.counts) };

    ghost width = { λ l. length l.counts };

    ghost size = { λ l member. slice_index l.counts member };

    ghost failed = { λ l. F.failed l.disk };

    #[tactic(auto, using(validator_core::proofs::Settling::keeps_same))]
    fn append(&mut self, _member: u32, _bytes: &[u8]) -> Result<(), OutFault> {
        Err(OutFault::OutOfMemory)
    }

    fn members(&self) -> u32 {
        self.log.members()
    }

    fn faults(&self) -> u64 {
        self.log.disk_faults()
    }

    fn count(&self, member: u32) -> u64 {
        self.log.count(member)
    }

    fn read(&mut self, member: u32, place: u64) -> Result<Seq<u8>, OutFault> {
        self.log.read(member, place)
    }
}
