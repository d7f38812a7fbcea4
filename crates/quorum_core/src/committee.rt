//! The committee: the stakes of its members.

ghost use Rattle.std.specs.Prelude.{◌≡◌, ◌+◌, ◌*◌, ◌≤◌, ℕ, true, length, slice_get};
ghost use Rattle.quorum_core.specs.Committee.{committee_of, is_quorum, is_roll, total_of, weight, zero_from};

use std::marker::Model;
use std::{error, fmt};

/// Why a list of stakes is not a committee, in the order in which the cases are tried.
#[derive(Clone, Copy, Debug, PartialEq, Eq)]
pub enum CommitteeRefusal {
    NoMembers,
    /// There are more than 64.
    TooManyMembers,
    /// The first member without stake.
    ZeroStake(u32),
}

impl fmt::Display for CommitteeRefusal {
    fn fmt<W: fmt::Write>(&self, f: &mut fmt::Formatter<W>) -> fmt::Result {
        match *self {
            CommitteeRefusal::NoMembers => f.write_str("a committee has at least one member"),
            CommitteeRefusal::TooManyMembers => f.write_str("a committee has at most 64 members"),
            CommitteeRefusal::ZeroStake(member) => write!(f, "member {member} has no stake"),
        }
    }
}

impl error::Error for CommitteeRefusal {}

/// 1 to 64 members, each with a stake of 1 to 2^32 - 1. Contracts see the list of the stakes.
#[derive(Drop)]
pub struct Committee {
    stakes: [u32; 64],
    count: u32,
}

impl Model for Committee {
    ghost use Rattle.std.specs.Prelude.{ℕ, List, ◌≤◌, take};

    ghost Value = { List ℕ };

    ghost view = { λ c. take c.count c.stakes };

    ghost invariant = { λ c. c.count ≤ 64 };
}

/// The first member without stake.
fn first_zero(stakes: &[u32]) -> Option<u32>
    requires { length stakes.now ≤ 64 }
    ensures { result ≡ zero_from 0 stakes.now }
{
    let mut member = 0;
    for stake in stakes {
        if *stake == 0 {
            return Some(member);
        }
        member += 1;
    }
    None
}

/// The stake of all members.
fn sum_of(stakes: &[u32]) -> u64
    requires { length stakes.now ≤ 64 }
    ensures value { result ≡ total_of stakes.now }
    ensures below { result ≤ 64 * 4294967295 }
{
    let mut sum = 0;
    for stake in stakes {
        sum += *stake as u64;
    }
    sum
}

/// The stake of the members of a roll.
fn sum_over(stakes: &[u32], members: &[u32]) -> u64
    requires short { length stakes.now ≤ 64 }
    requires roll { is_roll stakes.now members.now ≡ true }
    ensures { result ≡ weight stakes.now members.now }
{
    let mut sum = 0;
    for member in members {
        sum += stakes[*member as usize] as u64;
    }
    sum
}

impl Committee {
    /// The committee of these stakes, in the order of the members' numbers. Takes no memory.
    #[tactic(auto, unfolding(crate::specs::Committee::committee_of))]
    pub fn new(stakes: &[u32]) -> Result<Committee, CommitteeRefusal>
        ensures { result ≡ committee_of stakes.now }
    {
        if stakes.is_empty() {
            return Err(CommitteeRefusal::NoMembers);
        }
        if stakes.len() > 64 {
            return Err(CommitteeRefusal::TooManyMembers);
        }
        if let Some(member) = first_zero(stakes) {
            return Err(CommitteeRefusal::ZeroStake(member));
        }
        let mut row = [0; 64];
        row[..stakes.len()].copy_from_slice(stakes);
        Ok(Committee {
            stakes: row,
            count: stakes.len() as u32,
        })
    }

    /// An equal committee. Takes no memory.
    pub fn copy(&self) -> Committee
        ensures { result ≡ self.now }
    {
        Committee {
            stakes: self.stakes,
            count: self.count,
        }
    }

    /// The stakes, lent.
    pub(crate) fn stakes(&self) -> &[u32]
        ensures value { result.now ≡ self.now }
        ensures short { length result.now ≤ 64 }
    {
        &self.stakes[..self.count as usize]
    }

    /// The number of members, at most 64. Takes no memory.
    pub fn len(&self) -> u32
        ensures value { result ≡ length self.now }
        ensures most { result ≤ 64 }
    {
        self.stakes().len() as u32
    }

    /// The stake of a member; none exactly if the member is not known. Takes no memory.
    pub fn stake(&self, member: u32) -> Option<u32>
        ensures { result ≡ slice_get self.now member }
    {
        self.stakes().get(member as usize).copied()
    }

    /// The stake of all members. Takes no memory.
    pub fn total(&self) -> u64
        ensures value { result ≡ total_of self.now }
        ensures below { result ≤ 64 * 4294967295 }
    {
        sum_of(self.stakes())
    }

    /// The weight of members that ascend, are distinct and are known. Takes no memory.
    #[tactic(auto, using(crate::proofs::Weights::weight_most))]
    pub fn weight(&self, members: &[u32]) -> u64
        requires { is_roll self.now members.now ≡ true }
        ensures value { result ≡ weight self.now members.now }
        ensures most { result ≤ total_of self.now }
    {
        sum_over(self.stakes(), members)
    }

    /// Whether a weight is more than two thirds of the stake (Sui Lutris). Takes no memory.
    pub fn is_quorum(&self, weight: u64) -> bool
        requires { weight ≤ total_of self.now }
        ensures { result ≡ is_quorum self.now weight }
    {
        let total = self.total();
        3 * weight > 2 * total
    }
}
