//! The line `fvote`: a false vote of a faulty member.

ghost use Rattle.std.specs.Prelude.{◌≡◌, IfOk, OnErr, OnOk, slice_get};
ghost use Rattle.world_spec.specs.Names.{made_named};
ghost use Rattle.world_spec.specs.Report.{fvote_lines_by};
ghost use Rattle.world_spec.specs.Step.{fvoted_by};
ghost use Rattle.world_spec.specs.Posts.{post_honest};
ghost use Rattle.world_spec.specs.Scene.{bare_setting, post_world};
ghost use Rattle.world_core.specs.Cuts.{still_in};
ghost use Rattle.world_core.specs.Trusts.{trust_by};
ghost use Rattle.world_core.specs.Votes.{flag_at};

use crate::world::World;
use chain_messages::Statement;
use report_text::Line;
use wire_bcs::{OutOfMemory, Seq};
use world_lines::{MakesSeals, false_origins, false_vote_line, false_vote_lines, vote_seal};

/// Whether the member of this number is honest. Takes no memory.
pub(crate) fn is_honest(honest: &[bool], member: u32) -> bool
    ensures { result ≡ flag_at (slice_get honest.now member) }
{
    match honest.get(member as usize) {
        Some(flag) => *flag,
        None => false,
    }
}

impl World {
    /// The line `fvote`: a faulty member states a vote of the named origins, under its seal. An honest member states nothing.
    #[tactic(auto, using(crate::proofs::Voting::unnamed_votes, crate::proofs::Voting::honest_votes_not, crate::proofs::Voting::faulty_votes, crate::proofs::Voting::vote_lines, crate::proofs::Voting::unnamed_lines, crate::proofs::Cuts::on_err))]
    pub(crate) fn false_vote<S: MakesSeals>(
        &mut self,
        sealer: &S,
        member: u32,
        tx: &[u8],
        words: &[Option<Seq<u8>>],
    ) -> Result<Seq<Line>, OutOfMemory>
        ensures world { OnOk result (self.new ≡ record self.old { said = (fvoted_by post_honest (bare_setting (trust_by (S.made sealer.now) (S.accepts sealer.now)) self.old) (post_world self.old) member words.now (made_named (post_world self.old) tx.now)).said }) }
        ensures lines { IfOk result (λ lines. lines ≡ fvote_lines_by post_honest (post_world self.old) member tx.now words.now (made_named (post_world self.old) tx.now)) }
        ensures still { still_in self.new ≡ still_in self.old }
        ensures unsaid { OnErr result (self.new.said ≡ self.old.said) }
    {
        let Some(made) = self.directory.made(tx) else {
            let none = Seq::new(self.alloc);
            return false_vote_line(self.alloc, member, tx, none);
        };
        let honest = self.seats.flags();
        let origins = false_origins(&self.directory, &self.said, honest, made, words)?;
        let lines = false_vote_lines(&self.directory, member, tx, origins.as_slice())?;
        if is_honest(honest, member) {
            return Ok(lines);
        }
        let seal = vote_seal(self.alloc, sealer, made, origins.as_slice(), member)?;
        let statement = Statement::Vote {
            epoch: made.signed.value().tx.epoch,
            tx: made.digest,
            origins,
        };
        self.said.say_sealed(member, statement, seal)?;
        Ok(lines)
    }
}
