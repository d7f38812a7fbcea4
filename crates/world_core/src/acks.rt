//! Acknowledgements, and what a quorum of them makes final.

ghost use Rattle.std.specs.Prelude.{◌≡◌, ◌∷◌, ◌++◌, [], IfOk, OnErr, OnOk, map, option_map, slice_get};
ghost use Rattle.report_text.specs.declared.lines.Line.TheVariants as line;
ghost use Rattle.schedule_text.specs.declared.words.Event.TheVariants as events;
ghost use Rattle.world_spec.specs.Known.{world_with};
ghost use Rattle.world_spec.specs.Scene.{bare_setting, post_world, rules_in};
ghost use Rattle.world_spec.specs.SceneSteps.{seat_state, standing_at};
ghost use Rattle.world_core.specs.Steps.{ack_lines_in, acked_in, scene_after};
ghost use Rattle.world_spec.specs.Terms.{rules_for};
ghost use Rattle.world_core.specs.Cuts.{still_in};
ghost use Rattle.world_core.specs.Epochs.{ack_statements, ack_text_by, false_ack_by};
ghost use Rattle.world_core.specs.Trusts.{trust_by};
ghost use Rattle.world_lines.specs.Answers.{stated_as};
ghost use Rattle.world_lines.specs.KnownRows.{made_as};
ghost use Rattle.world_lines.specs.Pushed.{GrowsToward};
ghost use Rattle.world_spec.specs.Names.{made_named};
ghost use Rattle.world_spec.specs.Report.{ack_answered, final_lines};
ghost use Rattle.world_spec.specs.World.{answered_statement, said_by};

use crate::seats::Seats;
use crate::votes::is_honest;
use crate::world::World;
use chain_messages::{Sealed, Statement};
use digest_core::Digest;
use protocol_spec::AckRefusal;
use quorum_core::Sealer;
use report_text::{AckText, FinalText, Line};
use std::alloc::Global;
use wire_bcs::{OutOfMemory, Seq};
use world_lines::{
    Directory, MadeTx, MakesSeals, StatementLog, ack_text, final_text, one_line, spoiled_if,
};

/// The ending of the report's line for a member's answer about an acknowledgement; an acknowledgement that it gave is
/// added to what was stated. If out of memory, nothing is added.
fn tell_ack(
    directory: &Directory,
    said: &mut StatementLog,
    member: u32,
    answer: Result<Sealed, AckRefusal>,
) -> Result<AckText, OutOfMemory>
    ensures text { IfOk result (λ text. text ≡ ack_answered (world_with directory.now) (stated_as answer)) }
    ensures said { OnOk result (said.new ≡ said.old ++ map (said_by member) (answered_statement (stated_as answer))) }
    ensures unsaid { OnErr result (said.new ≡ said.old) }
{
    let text = ack_text(directory, &answer)?;
    match answer {
        Ok(sealed) => {
            said.say(member, sealed.statement)?;
            Ok(text)
        }
        Err(_refusal) => Ok(text),
    }
}

/// Asks a member to acknowledge a transaction, adds its acknowledgement to what was stated, and answers the ending of
/// the line.
#[tactic(auto, using(crate::proofs::Saying::ack_by_none, crate::proofs::Saying::none_acks, crate::proofs::Saying::ack_by_some, crate::proofs::Saying::some_acks))]
fn say_ack<S: Sealer>(
    seats: &Seats,
    said: &mut StatementLog,
    directory: &Directory,
    sealer: &S,
    member: u32,
    tx: &Digest,
) -> Result<AckText, OutOfMemory>
    ensures text { IfOk result (λ text. text ≡ ack_text_by directory.now (rules_for seats.now.terms (S.accepts sealer.now)) tx.now (option_map seat_state (standing_at (slice_get seats.now.posts member)))) }
    ensures said { OnOk result (said.new ≡ said.old ++ map (said_by member) (ack_statements (rules_for seats.now.terms (S.accepts sealer.now)) tx.now (option_map seat_state (standing_at (slice_get seats.now.posts member))))) }
    ensures unsaid { OnErr result (said.new ≡ said.old) }
{
    match seats.ack(sealer, member, tx)? {
        Some(answer) => tell_ack(directory, said, member, answer),
        None => Ok(AckText::Down),
    }
}

/// What a faulty member acknowledges: the digest that the lowest-numbered honest member that is up and executed the
/// transaction has, else zeros; spoiled if that is asked for.
fn false_ack(seats: &Seats, made: &MadeTx, spoiled: bool) -> Statement
    ensures { result ≡ false_ack_by seats.now.posts (made_as made.now) spoiled }
{
    let digest = match seats.executed_digest(&made.digest) {
        Some(digest) => digest,
        None => Digest([0; 32]),
    };
    Statement::Ack {
        epoch: made.signed.value().tx.epoch,
        tx: made.digest,
        effects: spoiled_if(spoiled, &digest),
    }
}

/// The line for an acknowledgement.
fn ack_line(alloc: Global, member: u32, tx: &[u8], text: AckText) -> Result<Seq<Line>, OutOfMemory>
    ensures { IfOk result (λ lines. lines ≡ line.Ack member tx.now text ∷ []) }
{
    let tx = Seq::from_slice(alloc, tx)?;
    let member = member as u64;
    one_line(alloc, Line::Ack { member, tx, text })
}

/// The line for what acknowledgements give.
fn final_line(alloc: Global, tx: &[u8], text: FinalText) -> Result<Seq<Line>, OutOfMemory>
    ensures { IfOk result (λ lines. lines ≡ line.Final tx.now text ∷ []) }
{
    let tx = Seq::from_slice(alloc, tx)?;
    one_line(alloc, Line::Final { tx, text })
}

impl World {
    /// The line `ack`: an honest member acknowledges a transaction only if it executed it; a faulty one acknowledges
    /// any, with a digest that may be spoiled. No record is kept.
    #[tactic(auto, using(crate::proofs::Acking::unnamed_acks, crate::proofs::Acking::unnamed_lines, crate::proofs::Acking::honest_acks, crate::proofs::Acking::honest_lines, crate::proofs::Acking::faulty_acks, crate::proofs::Acking::faulty_lines, crate::proofs::Stated::unsaid_on))]
    pub(crate) fn say_ack<S: MakesSeals>(
        &mut self,
        sealer: &S,
        member: u32,
        tx: &[u8],
        spoiled: bool,
    ) -> Result<Seq<Line>, OutOfMemory>
        ensures world { OnOk result (self.new ≡ acked_in (rules_in (S.accepts sealer.now) self.old) self.old member spoiled (made_named (post_world self.old) tx.now)) }
        ensures lines { IfOk result (λ lines. lines ≡ ack_lines_in (trust_by (S.made sealer.now) (S.accepts sealer.now)) self.old member tx.now (made_named (post_world self.old) tx.now)) }
        ensures still { still_in self.new ≡ still_in self.old }
        ensures said { OnErr result (GrowsToward self.old.said self.new.said (scene_after (trust_by (S.made sealer.now) (S.accepts sealer.now)) self.old (events.Ack member tx.now spoiled)).said) }
    {
        let Some(made) = self.directory.made(tx) else {
            return ack_line(self.alloc, member, tx, AckText::Down);
        };
        if is_honest(self.seats.flags(), member) {
            let text = say_ack(
                &self.seats,
                &mut self.said,
                &self.directory,
                sealer,
                member,
                &made.digest,
            )?;
            return ack_line(self.alloc, member, tx, text);
        }
        let statement = false_ack(&self.seats, made, spoiled);
        self.said.say(member, statement)?;
        ack_line(self.alloc, member, tx, AckText::Said)
    }

    /// The line `final`: what the last acknowledgements of these members for a transaction give in its epoch.
    #[tactic(auto, using(crate::proofs::Acking::unnamed_final, crate::proofs::Acking::named_final))]
    pub(crate) fn collect_final<S: MakesSeals>(
        &self,
        _sealer: &S,
        tx: &[u8],
        members: &[u32],
    ) -> Result<Seq<Line>, OutOfMemory>
        ensures { IfOk result (λ lines. lines ≡ final_lines (bare_setting (trust_by (S.made _sealer.now) (S.accepts _sealer.now)) self.now) (post_world self.now) tx.now members.now (made_named (post_world self.now) tx.now)) }
    {
        let Some(made) = self.directory.made(tx) else {
            return final_line(self.alloc, tx, FinalText::NoAck { member: 0 });
        };
        let epoch = made.signed.value().tx.epoch;
        let committee = self.seats.committee();
        let collected = self
            .said
            .collect_acks(committee, epoch, &made.digest, members);
        let text = final_text(self.alloc, members, &collected)?;
        final_line(self.alloc, tx, text)
    }
}
