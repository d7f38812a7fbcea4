//! The vote desk and its passes.

ghost use Rattle.std.specs.Prelude.{◌≡◌, ℕ, ◌+◌, ◌-◌, ◌<◌, ◌≤◌, [], IfOk, IfErr, length};

use crate::bench::MemberClerk;
use crate::entry::{Asked, DeskEntry};
use crate::serial::{Pass, SerialDesk};
use outside::Keeper;
use protocol_spec::{VoteRefusal, Voted};
use quorum_core::Sealer;
use std::alloc::Global;
use std::sync::Wait;
use validator_core::Validator;
use wire_bcs::{OutOfMemory, Seq};

/// Why a desk gives no vote.
#[derive(Clone, Copy, Debug, PartialEq, Eq)]
pub enum DeskRefusal {
    /// The member's refusal, which has an entry.
    Vote(VoteRefusal),
    /// Room for an entry was refused. The member was not asked, and no entry is added.
    OutOfMemory,
}

/// One member of a committee that callers on any threads ask for votes, one at a time, and the history of their calls.
#[derive(Drop)]
pub struct Desk<D: Keeper + Drop, S: Sealer + Drop> {
    alloc: Global,
    serial: SerialDesk<MemberClerk<D, S>>,
}

/// A caller's right to ask at a vote desk. It has no bytes. Contracts see its share of the desk, what it has seen of the
/// history, and which of its places are its own.
#[derive(Drop)]
pub struct DeskPass<D: Keeper + Drop, S: Sealer + Drop> {
    pass: Pass<MemberClerk<D, S>>,
}

impl<D: Keeper + Drop, S: Sealer + Drop> Desk<D, S> {
    ghost use Rattle.vote_desk.specs.Counts.{merged, times};
    ghost use Rattle.vote_desk.specs.Histories.{IsFront, IsHistory};
    ghost use Rattle.vote_desk.specs.Views.{longer, whole};
    ghost use Rattle.vote_desk.specs.Votes.{Follows, standing};
    ghost use Rattle.vote_desk.specs.Desks.{IsOf, Answers, mine, opening, seen, share};

    /// The desk of this member, over its keeper and its sealer, and the pass with the whole share. If memory is refused
    /// member and keeper come back.
    #[tactic(auto, using(crate::proofs::Benches::opening_is, crate::proofs::Benches::same_share, crate::proofs::Benches::same_seen, crate::proofs::Benches::same_mine))]
    pub fn open(
        alloc: Global,
        validator: Validator,
        keeper: D,
        sealer: S,
    ) -> Result<(Desk<D, S>, DeskPass<D, S>), (Validator, D)>
        requires known { validator.member < D.width keeper }
        ensures opening { IfOk result (λ made. opening made.0 ≡ standing validator sealer (D.failed keeper) (D.lists keeper)) }
        ensures of { IfOk result (λ made. IsOf made.0 made.1) }
        ensures share { IfOk result (λ made. share made.1 ≡ whole) }
        ensures seen { IfOk result (λ made. seen made.1 ≡ []) }
        ensures mine { IfOk result (λ made. mine made.1 ≡ []) }
        ensures err { IfErr result (λ back. back ≡ (validator, keeper)) }
    {
        let bench = MemberClerk {
            validator,
            keeper,
            sealer,
        };
        match SerialDesk::open(alloc, bench) {
            Ok((serial, pass)) => Ok((Desk { alloc, serial }, DeskPass { pass })),
            Err(
                MemberClerk {
                    validator,
                    keeper,
                    sealer: _,
                },
            ) => Err((validator, keeper)),
        }
    }

    /// Moves 1 of the pass's share to a new pass, which has seen as much and has no place. Takes no memory.
    #[tactic(auto, using(crate::proofs::Benches::same_share, crate::proofs::Benches::same_seen, crate::proofs::Benches::same_mine))]
    pub fn split(&self, pass: &mut DeskPass<D, S>) -> DeskPass<D, S>
        requires of { IsOf self.now pass.old }
        requires share { 1 < share pass.old }
        ensures of { IsOf self.now pass.new }
        ensures new_of { IsOf self.now result }
        ensures left { share pass.new ≡ share pass.old - 1 }
        ensures share { share result ≡ 1 }
        ensures seen { (seen pass.new ≡ seen pass.old) × (seen result ≡ seen pass.old) }
        ensures mine { (mine pass.new ≡ mine pass.old) × (mine result ≡ []) }
    {
        DeskPass {
            pass: self.serial.split(&mut pass.pass),
        }
    }

    /// Joins two passes: the joint one has seen the longer of what they had seen, of which the shorter is a prefix; it has
    /// the places of both, of which none stands in both, and the sum of their shares. Takes no memory.
    #[tactic(auto, using(crate::proofs::Benches::same_share, crate::proofs::Benches::same_seen, crate::proofs::Benches::same_mine))]
    pub fn join(&self, one: DeskPass<D, S>, other: DeskPass<D, S>) -> DeskPass<D, S>
        requires one { IsOf self.now one }
        requires other { IsOf self.now other }
        ensures of { IsOf self.now result }
        ensures share { share result ≡ share one + share other }
        ensures seen { seen result ≡ longer (seen one) (seen other) }
        ensures front { IsFront (seen one) (seen result) × IsFront (seen other) (seen result) }
        ensures mine { mine result ≡ merged (mine one) (mine other) }
        ensures apart { (place : ℕ) → times place (mine one) + times place (mine other) ≤ 1 }
    {
        DeskPass {
            pass: self.serial.join(one.pass, other.pass),
        }
    }

    /// Asks the member for its vote for the transaction that the bytes encode, after all calls that stand in the history.
    /// The entry of the call stands after all that the pass had seen and at a place that is the pass's own; it has these
    /// bytes and this answer, which is one that the member may give there. If room for the entry, which is the bytes
    /// and 257 origins, is refused, the member was not asked, and no entry is added. Waits for other callers.
    #[tactic(auto, using(crate::proofs::Benches::waited_of, protocol_spec::proofs::ListLemmas::front_whole))]
    pub fn vote<W: Wait>(
        &self,
        rt: &W,
        pass: &mut DeskPass<D, S>,
        bytes: &[u8],
    ) -> Result<Voted, DeskRefusal>
        requires of { IsOf self.now pass.old }
        ensures of { IsOf self.now pass.new }
        ensures share { share pass.new ≡ share pass.old }
        ensures answer { Answers self.now pass.old pass.new bytes.now result }
    {
        let Ok(asked) = Asked::of(self.alloc, bytes) else {
            return Err(DeskRefusal::OutOfMemory);
        };
        match self.serial.call(rt, &mut pass.pass, asked) {
            Ok(Ok(voted)) => Ok(voted),
            Ok(Err(refusal)) => Err(DeskRefusal::Vote(refusal)),
            Err(OutOfMemory) => Err(DeskRefusal::OutOfMemory),
        }
    }

    /// The member, the keeper and the history of all calls, of the pass with the whole share. Takes no memory.
    #[tactic(auto, using(crate::proofs::Benches::closed_of))]
    pub fn close(self, pass: DeskPass<D, S>) -> (Validator, D, Seq<DeskEntry>)
        requires of { IsOf self pass }
        requires all { share pass ≡ whole }
        ensures history { IsHistory (Follows S.accepts) (opening self) result.2 (standing result.0 (opening self).sealer (D.failed result.1) (D.lists result.1)) }
        ensures seen { IsFront (seen pass) result.2 }
        ensures mine { (place : ℕ) → place < length result.2 → times place (mine pass) ≡ 1 }
    {
        let (bench, history) = self.serial.close(pass.pass);
        let MemberClerk {
            validator,
            keeper,
            sealer: _,
        } = bench;
        (validator, keeper, history)
    }
}
