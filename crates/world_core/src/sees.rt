//! The line `see`: hands a member entries of its sequence.

ghost use Rattle.std.specs.Prelude.{◌≡◌, ◌≤◌, ◌∷◌, ◌++◌, [], IfOk, IsErrOf, OnErr, OnOk, Some, false, length, map, option_map};
ghost use Rattle.outside.specs.Causes.{Rose};
ghost use Rattle.protocol_spec.specs.Member.Calls.{sees};
ghost use Rattle.report_text.specs.declared.lines.Line.TheVariants as line;
ghost use Rattle.report_text.specs.declared.lines.SeeText.TheVariants as see_text;
ghost use Rattle.schedule_text.specs.declared.words.Event.TheVariants as events;
ghost use Rattle.world_spec.specs.Known.{world_with};
ghost use Rattle.world_spec.specs.Scene.{post_world, rules_in};
ghost use Rattle.world_spec.specs.SceneSteps.{called_if, left_if, next_on, sees_left, sees_to, work_of};
ghost use Rattle.world_core.specs.Steps.{call_lines_in, entries_lines_in, lines_after, scene_after};
ghost use Rattle.world_core.specs.declared.reply.SeatFault.TheVariants as fault;
ghost use Rattle.world_core.specs.Cuts.{EntriesCut, LineCut, NextCut, books_in};
ghost use Rattle.world_core.specs.Kept.{LeavesAs};
ghost use Rattle.world_core.specs.Sees.{LeavesAll, next_by, see_replied, see_stated};
ghost use Rattle.world_core.specs.Stays.{Stays};
ghost use Rattle.world_core.specs.Trusts.{trust_by};
ghost use Rattle.world_lines.specs.Pushed.{GrowsToward};
ghost use Rattle.world_spec.specs.Names.{tx_name};
ghost use Rattle.world_spec.specs.Step.{entries_left};
ghost use Rattle.world_spec.specs.World.{said_by};

use crate::calls::told;
use crate::epoch_requests::SeeRequest;
use crate::world::World;
use crate::{Reply, SeatFault, Seats};
use digest_core::Digest;
use outside::Keeper;
use protocol_spec::{SeeRefusal, Seen};
use quorum_core::Committee;
use report_text::{EntryText, Line, SeeText};
use std::alloc::Global;
use std::thread::Threads;
use validator_core::Validator;
use wire_bcs::{OutOfMemory, Seq};
use world_lines::{
    ConsensusLog, Directory, MakesSeals, StatementLog, add_entry_lines, one_line, tx_text,
};

/// The line of a member that takes no entry.
fn see_line(alloc: Global, member: u32, text: SeeText) -> Result<Seq<Line>, SeatFault>
    ensures lines { IfOk result (λ lines. lines ≡ line.See member text ∷ []) }
    ensures fault { IsErrOf result fault.KeepFault → ⊥ }
{
    let member = member as u64;
    told(alloc, Line::See { member, text })
}

/// Adds the line after which the `see` line ends: always answers false.
fn add_last(lines: &mut Seq<Line>, line: Line) -> Result<bool, OutOfMemory>
    ensures lines { OnOk result (lines.new ≡ lines.old ++ line ∷ []) }
    ensures goes { IfOk result (λ goes. goes ≡ false) }
{
    lines.push(line)?;
    Ok(false)
}

/// Adds the report's lines for a member's reply to an entry, and answers whether the `see` line goes on after it. The
/// checkpoints that the entry completed are added to what was stated; if out of memory, only the first few, or none.
#[tactic(auto, using(world_lines::proofs::Growing::none_added, crate::proofs::Stated::some_said))]
fn tell_entry(
    directory: &Directory,
    committee: &Committee,
    said: &mut StatementLog,
    lines: &mut Seq<Line>,
    member: u32,
    number: u64,
    reply: &Reply<Result<Seen, SeeRefusal>>,
) -> Result<bool, OutOfMemory>
    ensures lines { OnOk result (lines.new ≡ lines.old ++ (see_replied directory.now committee.now member number reply.now).0) }
    ensures goes { IfOk result (λ goes. goes ≡ (see_replied directory.now committee.now member number reply.now).1) }
    ensures said { OnOk result (said.new ≡ said.old ++ map (said_by member) (see_stated reply.now)) }
    ensures grew { OnErr result (GrowsToward said.old said.new (said.old ++ map (said_by member) (see_stated reply.now))) }
{
    let answer = match reply {
        Reply::Down => {
            let text = SeeText::Down;
            let member = member as u64;
            return add_last(lines, Line::See { member, text });
        }
        Reply::Stopped => {
            let text = EntryText::Stopped;
            let (member, entry) = (member as u64, number);
            let line = Line::SeeEntry {
                member,
                entry,
                text,
            };
            return add_last(lines, line);
        }
        Reply::Answered(answer) => answer,
    };
    let goes = add_entry_lines(directory, committee, lines, member, number, answer)?;
    if let Ok(seen) = answer {
        said.say_built(member, seen.built.as_slice())?;
    }
    Ok(goes)
}

/// The next entry of a member that is up, by its number and encoded; none exactly if there is none.
#[tactic(auto, using(crate::proofs::Nexts::by_none, crate::proofs::Nexts::by_ended, crate::proofs::Nexts::by_left, crate::proofs::Nexts::by_some))]
fn next_entry<'a>(seats: &Seats, order: &'a ConsensusLog, member: u32) -> Option<(u64, &'a Seq<u8>)>
    ensures { option_map (λ (p : _). sees p.0 p.1.now) result ≡ next_by seats.now.posts order.now.sequences member }
{
    let Some(validator) = seats.standing(member) else {
        return None;
    };
    if validator.has_ended() {
        return None;
    }
    let number = validator.seen();
    match order.bytes(validator.epoch(), number) {
        Some(bytes) => Some((number, bytes)),
        None => None,
    }
}

impl World {
    /// Hands a member its next entry, if it is up and there is one: adds its lines, and says whether the line goes
    /// on after it.
    fn see_next<R: Threads + Sync, D: Keeper, S: MakesSeals>(
        &mut self,
        rt: &R,
        keeper: &mut D,
        sealer: &S,
        lines: &mut Seq<Line>,
        member: u32,
    ) -> Result<bool, SeatFault>
        requires room { length self.old.posts ≤ D.width keeper.old }
        ensures world { OnOk result (self.new ≡ called_if (rules_in (S.accepts sealer.now) self.old) self.old member (next_on self.old member)) }
        ensures lines { OnOk result (lines.new ≡ lines.old ++ (call_lines_in (trust_by (S.made sealer.now) (S.accepts sealer.now)) self.old member (next_on self.old member)).0) }
        ensures goes { IfOk result (λ goes. goes ≡ (call_lines_in (trust_by (S.made sealer.now) (S.accepts sealer.now)) self.old member (next_on self.old member)).1) }
        ensures kept { LeavesAll (D.lists keeper.old) (D.lists keeper.new) member (left_if (rules_in (S.accepts sealer.now) self.old) self.old member (next_on self.old member)) result }
        ensures stay { OnOk result (Stays self.old self.new) }
        ensures cut { OnErr result (NextCut (rules_in (S.accepts sealer.now) self.old) self.old member (next_on self.old member) self.new.posts (D.lists keeper.old) (D.lists keeper.new)) }
        ensures books { books_in self.new ≡ books_in self.old }
        ensures said { OnErr result (GrowsToward self.old.said self.new.said (called_if (rules_in (S.accepts sealer.now) self.old) self.old member (next_on self.old member)).said) }
        ensures width { D.width keeper.new ≡ D.width keeper.old }
        ensures later { D.failed keeper.old ≤ D.failed keeper.new }
        ensures fault { IsErrOf result fault.KeepFault → Rose (D.failed keeper.old) (D.failed keeper.new) }
    {
        let Some((number, bytes)) = next_entry(&self.seats, &self.order, member) else {
            return Ok(false);
        };
        let bytes = bytes.as_slice();
        let request = SeeRequest { number, bytes };
        let reply = match self
            .seats
            .call(rt, self.alloc, keeper, sealer, member, &request)
        {
            Ok(reply) => reply,
            Err(fault) => return Err(fault),
        };
        let committee = self.seats.committee();
        match tell_entry(
            &self.directory,
            committee,
            &mut self.said,
            lines,
            member,
            number,
            &reply,
        ) {
            Ok(goes) => Ok(goes),
            Err(OutOfMemory) => Err(SeatFault::OutOfMemory),
        }
    }

    /// Hands a member this many entries, one after the other, up to the first after which the `see` line does not go
    /// on; adds their lines.
    #[tactic(auto, using(crate::proofs::Seeing::seen_none, crate::proofs::Seeing::seen_one, crate::proofs::Seeing::all_scene, crate::proofs::Seeing::all_lines, crate::proofs::Seeing::all_kept))]
    fn see_all<R: Threads + Sync, D: Keeper, S: MakesSeals>(
        &mut self,
        rt: &R,
        keeper: &mut D,
        sealer: &S,
        lines: &mut Seq<Line>,
        member: u32,
        count: u64,
    ) -> Result<(), SeatFault>
        requires room { length self.old.posts ≤ D.width keeper.old }
        ensures world { OnOk result (self.new ≡ sees_to (rules_in (S.accepts sealer.now) self.old) count self.old member) }
        ensures lines { OnOk result (lines.new ≡ lines.old ++ entries_lines_in (trust_by (S.made sealer.now) (S.accepts sealer.now)) count self.old member) }
        ensures kept { LeavesAll (D.lists keeper.old) (D.lists keeper.new) member (sees_left (rules_in (S.accepts sealer.now) self.old) count self.old member) result }
        ensures cut { OnErr result (EntriesCut (rules_in (S.accepts sealer.now) self.old) member count self.old self.new.posts (D.lists keeper.old) (D.lists keeper.new)) }
        ensures books { books_in self.new ≡ books_in self.old }
        ensures said { OnErr result (GrowsToward self.old.said self.new.said (sees_to (rules_in (S.accepts sealer.now) self.old) count self.old member).said) }
        ensures width { D.width keeper.new ≡ D.width keeper.old }
        ensures later { D.failed keeper.old ≤ D.failed keeper.new }
        ensures fault { IsErrOf result fault.KeepFault → Rose (D.failed keeper.old) (D.failed keeper.new) }
    {
        let mut left = count;
        while left > 0 {
            let goes = match self.see_next(rt, keeper, sealer, lines, member) {
                Ok(goes) => goes,
                Err(fault) => return Err(fault),
            };
            if !goes {
                return Ok(());
            }
            left -= 1;
        }
        Ok(())
    }

    /// The line of a member that is halted, and is handed nothing.
    fn see_halted(
        &self,
        member: u32,
        first: &Digest,
        second: &Digest,
    ) -> Result<Seq<Line>, OutOfMemory>
        ensures { IfOk result (λ lines. lines ≡ line.See member (see_text.Halted (tx_name (world_with self.now.known) first.now) (tx_name (world_with self.now.known) second.now)) ∷ []) }
    {
        let text = SeeText::Halted {
            first: tx_text(&self.directory, first)?,
            second: tx_text(&self.directory, second)?,
        };
        one_line(
            self.alloc,
            Line::See {
                member: member as u64,
                text,
            },
        )
    }

    /// How many entries of its epoch's sequence a member has not taken yet.
    fn entries_left(&self, validator: &Validator) -> u64
        ensures { result ≡ entries_left (post_world self.now) (Some validator.now.state) }
    {
        self.order
            .count(validator.epoch())
            .saturating_sub(validator.seen())
    }

    /// The line `see`: hands a member the next entries of its sequence, this many at most.
    #[tactic(auto, unfolding(crate::specs::Steps::scene_after, crate::specs::Steps::lines_after, world_spec::specs::SceneSteps::work_of), using(crate::proofs::SeeLines::down_world, crate::proofs::SeeLines::down_lines, crate::proofs::SeeLines::down_kept, crate::proofs::SeeLines::halted_world, crate::proofs::SeeLines::halted_lines, crate::proofs::SeeLines::halted_kept, crate::proofs::SeeLines::taken_world, crate::proofs::SeeLines::taken_kept, crate::proofs::SeeLines::taken_cut, crate::proofs::SeeLines::nothing_lines, crate::proofs::SeeLines::taken_lines))]
    pub(crate) fn see<R: Threads + Sync, D: Keeper, S: MakesSeals>(
        &mut self,
        rt: &R,
        keeper: &mut D,
        sealer: &S,
        member: u32,
        entries: u32,
    ) -> Result<Seq<Line>, SeatFault>
        requires room { length self.old.posts ≤ D.width keeper.old }
        ensures world { OnOk result (self.new ≡ scene_after (trust_by (S.made sealer.now) (S.accepts sealer.now)) self.old (events.See member entries)) }
        ensures lines { IfOk result (λ lines. lines ≡ lines_after (trust_by (S.made sealer.now) (S.accepts sealer.now)) self.old (events.See member entries)) }
        ensures kept { LeavesAs (rules_in (S.accepts sealer.now) self.old) self.old (work_of self.old (events.See member entries)) (D.lists keeper.old) (D.lists keeper.new) result }
        ensures cut { OnErr result (LineCut (rules_in (S.accepts sealer.now) self.old) self.old (work_of self.old (events.See member entries)) self.new.posts (D.lists keeper.old) (D.lists keeper.new)) }
        ensures books { books_in self.new ≡ books_in self.old }
        ensures said { OnErr result (GrowsToward self.old.said self.new.said (scene_after (trust_by (S.made sealer.now) (S.accepts sealer.now)) self.old (events.See member entries)).said) }
        ensures width { D.width keeper.new ≡ D.width keeper.old }
        ensures later { D.failed keeper.old ≤ D.failed keeper.new }
        ensures fault { IsErrOf result fault.KeepFault → Rose (D.failed keeper.old) (D.failed keeper.new) }
    {
        let alloc = self.alloc;
        let Some(validator) = self.seats.standing(member) else {
            return see_line(alloc, member, SeeText::Down);
        };
        if let Some((first, second)) = validator.fork() {
            return match self.see_halted(member, &first, &second) {
                Ok(lines) => Ok(lines),
                Err(OutOfMemory) => Err(SeatFault::OutOfMemory),
            };
        }
        let count = (entries as u64).min(self.entries_left(validator));
        let mut lines = Seq::new(alloc);
        match self.see_all(rt, keeper, sealer, &mut lines, member, count) {
            Ok(()) => {}
            Err(fault) => return Err(fault),
        }
        if lines.is_empty() {
            return see_line(alloc, member, SeeText::Nothing);
        }
        Ok(lines)
    }
}
