//! The members that said End.

ghost use Rattle.std.specs.Prelude.{◌≡◌, ◌<◌, ◌≤◌, ◌∷◌, ◌++◌, [], false, length, nat_eq, true};
ghost use Rattle.std.specs.List.{IsDistinct};
ghost use Rattle.quorum_core.specs.Committee.{all_known, is_among, total_of};
ghost use Rattle.epoch_turn.specs.Ends.{CountsIn, counted_after, greatest, said_of_end, said_of_weight};

use quorum_core::Committee;
use std::marker::Model;

/// What counting a member's End gives.
#[derive(Clone, Copy)]
pub enum Counted {
    /// The member was counted before.
    Repeat,
    /// The weight of the members counted so far, which are not a quorum.
    Weight(u64),
    /// Their weight, if they are a quorum: the epoch ends.
    Ended(u64),
}

/// The members whose End was counted. Contracts see them in the order of counting.
#[derive(Drop)]
pub struct EndCount {
    members: [u32; 64],
    count: u32,
}

impl Model for EndCount {
    ghost use Rattle.std.specs.Prelude.{ℕ, List, take};
    ghost use Rattle.epoch_turn.specs.Ends.{IsCount};

    ghost Value = { List ℕ };

    ghost view = { λ c. take c.count c.members };

    ghost invariant = { λ c. IsCount c.count (take c.count c.members) };
}

/// The answer to an End with which those counted have this weight.
fn said_of(committee: &Committee, weight: u64) -> Counted
    requires { weight ≤ total_of committee.now }
    ensures { result ≡ said_of_weight committee.now weight }
{
    if committee.is_quorum(weight) {
        Counted::Ended(weight)
    } else {
        Counted::Weight(weight)
    }
}

impl EndCount {
    /// Nobody counted. Takes no memory.
    #[tactic(auto, using(crate::proofs::Counting::nobody))]
    pub fn new() -> EndCount
        ensures { result ≡ [] }
    {
        EndCount {
            members: [0; 64],
            count: 0,
        }
    }

    /// The members counted, in the order of counting, none of them twice, each of them known in the greatest committee.
    /// Takes no memory.
    pub fn as_slice(&self) -> &[u32]
        ensures value { result.now ≡ self.now }
        ensures once { IsDistinct nat_eq result.now }
        ensures known { all_known greatest result.now ≡ true }
    {
        &self.members[..self.count as usize]
    }

    /// Puts a member after the others. Takes no memory.
    fn push(&mut self, member: u32)
        requires room { length self.old < 64 }
        requires low { member < 64 }
        requires new { is_among self.old member ≡ false }
        ensures { self.new ≡ self.old ++ member ∷ [] }
    {
        self.members[self.count as usize] = member;
        self.count += 1;
    }

    /// Counts a member that said End, unless it was counted before: the epoch ends if those counted are a quorum
    /// with it (Sui Lutris). The committee knows the member. Takes no memory.
    #[tactic(auto, using(crate::proofs::Counting::has_room))]
    pub fn count(&mut self, committee: &Committee, member: u32) -> Counted
        requires known { member < length committee.now }
        ensures counted { self.new ≡ counted_after self.old member }
        ensures answer { result ≡ said_of_end committee.now self.old member }
        ensures sequence { CountsIn committee.now self.old member self.new result }
    {
        let _few = committee.len();
        if quorum_core::is_among(self.as_slice(), member) {
            return Counted::Repeat;
        }
        self.push(member);
        said_of(committee, committee.weight_of_set(self.as_slice()))
    }
}
