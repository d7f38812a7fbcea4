//! The line `turn`: turns a member to the next epoch.

ghost use Rattle.std.specs.Prelude.{◌≡◌, ◌≤◌, ◌∷◌, [], IfOk, IsErrOf, length};
ghost use Rattle.report_text.specs.declared.lines.Line.TheVariants as line;
ghost use Rattle.schedule_text.specs.declared.words.Event.TheVariants as events;
ghost use Rattle.world_core.specs.declared.reply.SeatFault.TheVariants as fault;
ghost use Rattle.world_core.specs.Epochs.{turn_replied};
ghost use Rattle.world_core.specs.Served.{KeeperAfter, LineAfter};
ghost use Rattle.world_core.specs.Trusts.{trust_by};

use crate::epoch_requests::TurnRequest;
use crate::world::World;
use crate::{Reply, SeatFault};
use digest_core::Digest;
use outside::Keeper;
use protocol_spec::TurnRefusal;
use report_text::{Line, TurnText};
use std::alloc::Global;
use std::thread::Threads;
use wire_bcs::{OutOfMemory, Seq};
use world_lines::{Directory, MakesSeals, one_line, turn_lines};

/// The line of a turn that has no answer.
fn turn_line(alloc: Global, member: u32, text: TurnText) -> Result<Seq<Line>, OutOfMemory>
    ensures { IfOk result (λ lines. lines ≡ line.Turn member text ∷ []) }
{
    let member = member as u64;
    one_line(alloc, Line::Turn { member, text })
}

/// The report's lines for a reply to the turn of a member that was in this epoch.
fn tell_turn(
    directory: &Directory,
    member: u32,
    epoch: u64,
    reply: &Reply<Result<Seq<Digest>, TurnRefusal>>,
) -> Result<Seq<Line>, OutOfMemory>
    ensures { IfOk result (λ lines. lines ≡ turn_replied directory.now member epoch reply.now) }
{
    match reply {
        Reply::Down => turn_line(directory.allocator(), member, TurnText::Down),
        Reply::Stopped => turn_line(directory.allocator(), member, TurnText::Stopped),
        Reply::Answered(answer) => turn_lines(directory, member, epoch, answer),
    }
}

impl World {
    /// The line `turn`: turns a member to the next epoch.
    pub(crate) fn turn<R: Threads + Sync, D: Keeper, S: MakesSeals>(
        &mut self,
        rt: &R,
        keeper: &mut D,
        sealer: &S,
        member: u32,
    ) -> Result<Seq<Line>, SeatFault>
        requires room { length self.old.posts ≤ D.width keeper.old }
        ensures line { LineAfter (trust_by (S.made sealer.now) (S.accepts sealer.now)) self.old (events.Turn member) self.new (D.lists keeper.old) (D.lists keeper.new) result }
        ensures keeper { KeeperAfter (D.width keeper.old) (D.width keeper.new) (D.failed keeper.old) (D.failed keeper.new) (IsErrOf result fault.KeepFault) }
    {
        let alloc = self.alloc;
        let epoch = self.seats.epoch(member);
        let reply = match self
            .seats
            .call(rt, alloc, keeper, sealer, member, &TurnRequest)
        {
            Ok(reply) => reply,
            Err(fault) => return Err(fault),
        };
        match tell_turn(&self.directory, member, epoch, &reply) {
            Ok(lines) => Ok(lines),
            Err(OutOfMemory) => Err(SeatFault::OutOfMemory),
        }
    }
}
