//! Sets of members, given as lists in any order.

ghost use Rattle.std.specs.Prelude.{◌≡◌, ◌≤◌, if◌then◌else◌, length};
ghost use Rattle.quorum_core.specs.Committee.{is_among, total_of, weight};

use crate::committee::Committee;

/// Whether the member is among these. Takes no memory.
pub fn is_among(members: &[u32], member: u32) -> bool
    ensures { result ≡ is_among members.now member }
{
    members.iter().any(|m| *m == member)
}

/// The stake of a member if it is among these, else 0.
fn stake_in(members: &[u32], member: u32, stake: u32) -> u64
    ensures value { result ≡ (if is_among members.now member then stake else 0) }
    ensures below { result ≤ 4294967295 }
{
    if is_among(members, member) {
        return stake as u64;
    }
    0
}

/// The sum of the stakes of those members that are in the list.
#[tactic(auto, unfolding(crate::specs::Committee::weight_of))]
fn sum_among(stakes: &[u32], members: &[u32]) -> u64
    requires { length stakes.now ≤ 64 }
    ensures { result ≡ weight stakes.now members.now }
{
    let mut sum = 0;
    let mut member = 0;
    let mut rest = stakes;
    while let [stake, after @ ..] = rest {
        sum += stake_in(members, member, *stake);
        member += 1;
        rest = after;
    }
    sum
}

impl Committee {
    /// The weight of the set of these members, which may come in any order and more than once; one that is not known
    /// has no stake. Takes no memory.
    #[tactic(auto, using(crate::proofs::Weights::weight_most))]
    pub fn weight_of_set(&self, members: &[u32]) -> u64
        ensures value { result ≡ weight self.now members.now }
        ensures most { result ≤ total_of self.now }
    {
        sum_among(self.stakes(), members)
    }
}
