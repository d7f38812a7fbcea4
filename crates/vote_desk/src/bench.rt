//! The member behind a vote desk.

ghost use Rattle.std.specs.Prelude.{◌≡◌, ◌<◌};

use crate::clerk::Clerk;
use crate::entry::{Asked, DeskEntry};
use crate::standing::DeskView;
use outside::Keeper;
use protocol_spec::{VoteRefusal, Voted};
use quorum_core::Sealer;
use validator_core::Validator;

/// A member with its keeper and its sealer, which votes as it is asked.
#[derive(Drop)]
pub struct MemberClerk<D: Keeper + Drop, S: Sealer + Drop> {
    pub(crate) validator: Validator,
    pub(crate) keeper: D,
    pub(crate) sealer: S,
    ghost known: { validator.member < D.width keeper },
}

impl<D: Keeper + Drop, S: Sealer + Drop> Clerk for MemberClerk<D, S> {
    ghost use Rattle.vote_desk.specs.Votes.{Follows, standing};

    type Request = Asked;

    type Reply = Result<Voted, VoteRefusal>;

    type Entry = DeskEntry;

    type State = DeskView<S>;

    ghost state = { λ bench. standing bench.validator bench.sealer (D.failed bench.keeper) (D.lists bench.keeper) };

    ghost step = { Follows S.accepts };

    ghost tells = { λ entry asked reply. (entry.bytes ≡ asked.bytes) × (entry.reply ≡ reply) };

    #[tactic(auto, using(crate::proofs::Benches::replies, crate::proofs::Benches::number_stays))]
    fn answer(&mut self, asked: Asked) -> (Result<Voted, VoteRefusal>, DeskEntry) {
        let reply = self
            .validator
            .vote(&mut self.keeper, &self.sealer, asked.bytes.as_slice());
        let faults = self.keeper.faults();
        let entry = asked.entry(&reply, faults);
        (reply, entry)
    }
}
