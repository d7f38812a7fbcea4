//! The line `restart`: a member starts from its records.

ghost use Rattle.std.specs.Prelude.{◌≡◌, ◌≤◌, IsErrOf, OnErr, length, slice_get};
ghost use Rattle.outside.specs.Causes.{Rose};
ghost use Rattle.outside.specs.Lists.{KeepsJournals};
ghost use Rattle.report_text.specs.declared.lines.Line.TheVariants as line;
ghost use Rattle.report_text.specs.declared.lines.RestartText.TheVariants as restart_text;
ghost use Rattle.world_core.specs.declared.world.WorldFault.TheVariants as fault;
ghost use Rattle.world_core.specs.Cuts.{books_in};
ghost use Rattle.world_core.specs.Restarts.{RestartsAs};

use crate::RestartFault;
use crate::world::{World, WorldFault};
use outside::Keeper;
use report_text::{Line, RestartText};
use wire_bcs::Seq;
use world_lines::{MakesSeals, one_line};

/// The line of a member that started from so many records.
fn restart_line(member: u32, count: u64) -> Line
    ensures { result ≡ line.Restart member (restart_text.Records count) }
{
    Line::Restart {
        member: member as u64,
        text: RestartText::Records { count },
    }
}

impl World {
    /// The line `restart`: a member starts from the records that its keeper has. Memory for the line is taken first: after a
    /// fault nothing changes.
    #[tactic(auto, using(crate::proofs::Restarts::comes_set))]
    pub(crate) fn restart<D: Keeper, S: MakesSeals>(
        &mut self,
        keeper: &mut D,
        sealer: &S,
        member: u32,
    ) -> Result<Seq<Line>, WorldFault>
        requires room { length self.old.posts ≤ D.width keeper.old }
        ensures restart { RestartsAs (S.accepts sealer.now) (D.lists keeper.old) member self.old self.new (slice_get self.old.posts member) result }
        ensures kept { KeepsJournals (D.lists keeper.old) (D.lists keeper.new) }
        ensures stay { OnErr result (self.new ≡ self.old) }
        ensures books { books_in self.new ≡ books_in self.old }
        ensures width { D.width keeper.new ≡ D.width keeper.old }
        ensures later { D.failed keeper.old ≤ D.failed keeper.new }
        ensures fault { IsErrOf result fault.KeepFault → Rose (D.failed keeper.old) (D.failed keeper.new) }
    {
        let alloc = self.alloc;
        let Ok(mut lines) = one_line(alloc, restart_line(member, 0)) else {
            return Err(WorldFault::OutOfMemory);
        };
        match self
            .seats
            .restart(alloc, keeper, sealer, &self.opening, member)
        {
            Ok(count) => {
                drop(lines.set(0, restart_line(member, count)));
                Ok(lines)
            }
            Err(RestartFault::BadRecord { place }) => {
                drop(lines);
                Err(WorldFault::BadRecord { member, place })
            }
            Err(RestartFault::KeepFault) => {
                drop(lines);
                Err(WorldFault::KeepFault)
            }
            Err(RestartFault::OutOfMemory) => {
                drop(lines);
                Err(WorldFault::OutOfMemory)
            }
        }
    }
}
