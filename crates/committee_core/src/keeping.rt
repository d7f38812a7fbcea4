//! The records of a run, kept in memory.

ghost use Rattle.std.specs.Prelude.{◌≡◌, ◌≤◌, [], length, replicate, Some, IfOk};
ghost use Rattle.committee_core.specs.Journals.{AreEmpty};

use outside::MemKeeper;
use std::alloc::Global;
use wire_bcs::OutOfMemory;

/// The most members of a committee.
pub(crate) const MOST_MEMBERS: u32 = 64;

/// A keeper in memory with an empty list for each of 64 members. It fails at exactly the appends and reads with
/// the numbers in `failing`, counted together from 1.
#[tactic(auto, using(crate::proofs::Opening::fresh_width))]
pub fn fresh_keeper(alloc: Global, failing: &[u64]) -> Result<MemKeeper, OutOfMemory>
    ensures made { IfOk result (λ k. k ≡ record { lists = replicate 64 []; turns = record { calls = 0; failing = failing.now }; faults = 0 }) }
    ensures room { IfOk result (λ k. 64 ≤ length k.lists) }
    ensures empty { IfOk result (λ k. AreEmpty (Some k.lists)) }
{
    MemKeeper::new(alloc, MOST_MEMBERS, failing)
}
