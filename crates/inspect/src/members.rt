//! The numbers of members that a word denotes.

ghost use Rattle.std.specs.Prelude.{◌≡◌, ◌≤◌, length};
ghost use Rattle.inspect.specs.Words.{members_in};

use command_words::read_numbers;
use std::marker::Model;
use wire_bcs::ascends;

/// The highest number of a member.
pub(crate) const MOST_MEMBER: u64 = 63;

/// At most 64 numbers of members. Contracts see the list.
#[derive(Drop)]
pub struct MemberList {
    row: [u32; 64],
    count: u32,
}

impl Model for MemberList {
    ghost use Rattle.std.specs.Prelude.{ℕ, List, ◌≤◌, take};

    ghost Value = { List ℕ };

    ghost view = { λ m. take m.count m.row };

    ghost invariant = { λ m. m.count ≤ 64 };
}

impl MemberList {
    /// The members that the word denotes: numbers from 0 to 63, joined by commas, each above the one before it. Takes no
    /// memory.
    #[tactic(auto, unfolding(crate::specs::Words::members_in))]
    pub(crate) fn read(word: &[u8]) -> Option<MemberList>
        ensures { result ≡ members_in word.now }
    {
        let mut row = [0; 64];
        let Some(count) = read_numbers(0, MOST_MEMBER, word, row.as_mut_slice()) else {
            return None;
        };
        if !ascends(&row[..count]) {
            return None;
        }
        Some(MemberList {
            row,
            count: count as u32,
        })
    }

    /// The members, borrowed. Takes no memory.
    pub fn as_slice(&self) -> &[u32]
        ensures value { result.now ≡ self.now }
        ensures few { length result.now ≤ 64 }
    {
        &self.row[..self.count as usize]
    }
}
