//! The line that closes the epoch of a member.

ghost use Rattle.std.specs.Prelude.{◌≡◌, ◌≤◌, IfOk, IsErrOf, length};
ghost use Rattle.schedule_text.specs.declared.words.Event.TheVariants as events;
ghost use Rattle.world_core.specs.declared.reply.SeatFault.TheVariants as fault;
ghost use Rattle.world_core.specs.Served.{KeeperAfter, LineAfter};
ghost use Rattle.world_core.specs.Texts.{close_replied};
ghost use Rattle.world_core.specs.Trusts.{trust_by};

use crate::calls::told;
use crate::epoch_requests::CloseRequest;
use crate::world::World;
use crate::{Reply, SeatFault};
use outside::Keeper;
use protocol_spec::CloseRefusal;
use report_text::{CloseText, Line};
use std::thread::Threads;
use wire_bcs::{OutOfMemory, Seq};
use world_lines::{Directory, MakesSeals, close_text};

/// The ending of the report's line for a member's reply to the close of its epoch.
fn tell_close(
    directory: &Directory,
    reply: &Reply<Result<bool, CloseRefusal>>,
) -> Result<CloseText, OutOfMemory>
    ensures { IfOk result (λ text. text ≡ close_replied directory.now reply.now) }
{
    match reply {
        Reply::Down => Ok(CloseText::Down),
        Reply::Stopped => Ok(CloseText::Stopped),
        Reply::Answered(answer) => close_text(directory, answer),
    }
}

impl World {
    /// The line `close`: closes the epoch of a member.
    pub(crate) fn close<R: Threads + Sync, D: Keeper, S: MakesSeals>(
        &mut self,
        rt: &R,
        keeper: &mut D,
        sealer: &S,
        member: u32,
    ) -> Result<Seq<Line>, SeatFault>
        requires room { length self.old.posts ≤ D.width keeper.old }
        ensures line { LineAfter (trust_by (S.made sealer.now) (S.accepts sealer.now)) self.old (events.Close member) self.new (D.lists keeper.old) (D.lists keeper.new) result }
        ensures keeper { KeeperAfter (D.width keeper.old) (D.width keeper.new) (D.failed keeper.old) (D.failed keeper.new) (IsErrOf result fault.KeepFault) }
    {
        let alloc = self.alloc;
        let reply = match self
            .seats
            .call(rt, alloc, keeper, sealer, member, &CloseRequest)
        {
            Ok(reply) => reply,
            Err(fault) => return Err(fault),
        };
        let Ok(text) = tell_close(&self.directory, &reply) else {
            return Err(SeatFault::OutOfMemory);
        };
        let member = member as u64;
        told(alloc, Line::Close { member, text })
    }
}
