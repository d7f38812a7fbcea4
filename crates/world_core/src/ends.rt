//! The line `end`: a member says that its epoch is to end.

ghost use Rattle.std.specs.Prelude.{◌≡◌, ◌∷◌, ◌++◌, [], IfOk, OnErr, OnOk, map, option_map, slice_get};
ghost use Rattle.report_text.specs.declared.lines.Line.TheVariants as line;
ghost use Rattle.schedule_text.specs.declared.words.Event.TheVariants as events;
ghost use Rattle.world_spec.specs.Known.{world_with};
ghost use Rattle.world_spec.specs.SceneSteps.{seat_state, standing_at};
ghost use Rattle.world_core.specs.Steps.{lines_after, scene_after};
ghost use Rattle.world_spec.specs.Terms.{rules_for};
ghost use Rattle.world_core.specs.Cuts.{still_in};
ghost use Rattle.world_core.specs.Epochs.{end_statements, end_text_by};
ghost use Rattle.world_core.specs.Trusts.{trust_by};
ghost use Rattle.world_lines.specs.Answers.{stated_as};
ghost use Rattle.world_lines.specs.Pushed.{GrowsToward};
ghost use Rattle.world_spec.specs.Report.{end_answered};
ghost use Rattle.world_spec.specs.World.{answered_statement, said_by};

use crate::seats::Seats;
use crate::world::World;
use chain_messages::Sealed;
use protocol_spec::EndRefusal;
use quorum_core::Sealer;
use report_text::{EndText, Line};
use std::alloc::Global;
use wire_bcs::{OutOfMemory, Seq};
use world_lines::{Directory, MakesSeals, StatementLog, end_text, one_line};

/// The ending of the report's line for a member's answer about its End; an End that it gave is added to what was
/// stated. If out of memory, nothing is added.
fn tell_end(
    directory: &Directory,
    said: &mut StatementLog,
    member: u32,
    answer: Result<Sealed, EndRefusal>,
) -> Result<EndText, OutOfMemory>
    ensures text { IfOk result (λ text. text ≡ end_answered (world_with directory.now) (stated_as answer)) }
    ensures said { OnOk result (said.new ≡ said.old ++ map (said_by member) (answered_statement (stated_as answer))) }
    ensures unsaid { OnErr result (said.new ≡ said.old) }
{
    let text = end_text(directory, &answer)?;
    match answer {
        Ok(sealed) => {
            said.say(member, sealed.statement)?;
            Ok(text)
        }
        Err(_refusal) => Ok(text),
    }
}

/// Asks a member for its End, adds an End that it gives to what was stated, and answers the ending of the line.
#[tactic(auto, using(crate::proofs::Saying::end_by_none, crate::proofs::Saying::none_ends, crate::proofs::Saying::end_by_some, crate::proofs::Saying::some_ends))]
fn say_end<S: Sealer>(
    seats: &Seats,
    said: &mut StatementLog,
    directory: &Directory,
    sealer: &S,
    member: u32,
) -> Result<EndText, OutOfMemory>
    ensures text { IfOk result (λ text. text ≡ end_text_by directory.now (rules_for seats.now.terms (S.accepts sealer.now)) (option_map seat_state (standing_at (slice_get seats.now.posts member)))) }
    ensures said { OnOk result (said.new ≡ said.old ++ map (said_by member) (end_statements (rules_for seats.now.terms (S.accepts sealer.now)) (option_map seat_state (standing_at (slice_get seats.now.posts member))))) }
    ensures unsaid { OnErr result (said.new ≡ said.old) }
{
    match seats.end(sealer, member)? {
        Some(answer) => tell_end(directory, said, member, answer),
        None => Ok(EndText::Down),
    }
}

/// The report's line for an `end` with this ending, as a list.
fn end_line(alloc: Global, member: u32, text: EndText) -> Result<Seq<Line>, OutOfMemory>
    ensures { IfOk result (λ lines. lines ≡ line.End member text ∷ []) }
{
    let member = member as u64;
    one_line(alloc, Line::End { member, text })
}

impl World {
    /// The line `end`: a member says that its epoch is to end. It keeps no record.
    #[tactic(auto, unfolding(crate::specs::Steps::scene_after, crate::specs::Steps::lines_after), using(crate::proofs::Silent::end_scene, crate::proofs::Silent::end_text_is, crate::proofs::Stated::unsaid_on))]
    pub(crate) fn say_end<S: MakesSeals>(
        &mut self,
        sealer: &S,
        member: u32,
    ) -> Result<Seq<Line>, OutOfMemory>
        ensures world { OnOk result (self.new ≡ scene_after (trust_by (S.made sealer.now) (S.accepts sealer.now)) self.old (events.End member)) }
        ensures lines { IfOk result (λ lines. lines ≡ lines_after (trust_by (S.made sealer.now) (S.accepts sealer.now)) self.old (events.End member)) }
        ensures still { still_in self.new ≡ still_in self.old }
        ensures said { OnErr result (GrowsToward self.old.said self.new.said (scene_after (trust_by (S.made sealer.now) (S.accepts sealer.now)) self.old (events.End member)).said) }
    {
        let text = say_end(&self.seats, &mut self.said, &self.directory, sealer, member)?;
        end_line(self.alloc, member, text)
    }
}
