//! The members of seals.

ghost use Rattle.std.specs.Prelude.{◌≡◌, IfOk, map};

use crate::messages::MemberSeal;
use std::alloc::Global;
use wire_bcs::OutOfMemory;

/// The members who sealed, in the order of the seals.
pub fn members_of(alloc: Global, seals: &[MemberSeal]) -> Result<Vec<u32>, OutOfMemory>
    ensures { IfOk result (λ members. members.items ≡ map (λ seal. seal.member) seals.now) }
{
    Ok(seals.iter().map(|seal| seal.member).collect(alloc)?)
}
