//! One line of the schedule.

ghost use Rattle.std.specs.Prelude.{◌≡◌, ◌≤◌, IsErrOf, length};
ghost use Rattle.world_spec.specs.SceneWorlds.{AreKeepable};
ghost use Rattle.world_core.specs.declared.world.WorldFault.TheVariants as fault;
ghost use Rattle.world_core.specs.Served.{KeeperAfter, StepAfter, call_outcome, quiet_outcome};
ghost use Rattle.world_core.specs.Trusts.{trust_by};

use crate::SeatFault;
use crate::world::{World, WorldFault};
use outside::Keeper;
use report_text::Line;
use schedule_text::Event;
use std::thread::Threads;
use wire_bcs::{OutOfMemory, Seq};
use world_lines::{MakesSeals, TxLine};

/// The outcome of a line, by the outcome of its call on a member.
fn call_outcome(outcome: Result<Seq<Line>, SeatFault>) -> Result<Seq<Line>, WorldFault>
    ensures { result ≡ call_outcome outcome }
{
    match outcome {
        Ok(lines) => Ok(lines),
        Err(SeatFault::KeepFault) => Err(WorldFault::KeepFault),
        Err(SeatFault::OutOfMemory) => Err(WorldFault::OutOfMemory),
    }
}

/// The outcome of a line that touches no record.
fn quiet_outcome(outcome: Result<Seq<Line>, OutOfMemory>) -> Result<Seq<Line>, WorldFault>
    ensures { result ≡ quiet_outcome outcome }
{
    match outcome {
        Ok(lines) => Ok(lines),
        Err(OutOfMemory) => Err(WorldFault::OutOfMemory),
    }
}

impl World {
    /// Runs one line, and answers the lines that the report has for it. A member's run goes by the line's workers, in
    /// threads. Each record that it leaves is appended before the call that leaves it answers. `KeepFault`: the keeper
    /// failed, and its count of faults rose. `BadRecord`: the member of a `restart` line does not start from its records.
    ///
    /// After a fault the world still stands: look-ups still answer, and another step may follow. The names, the
    /// transactions, the certificates and the sequences are as before, except that an `order end` may have ordered its
    /// End without opening an epoch. So is every member except the one that the line calls. That one is as before its
    /// call; or it fell in the call and is down, so no look-up finds it, and its record was kept or not; or it is as
    /// after the call, its record was kept, and only the line of the report is missing. A `see` may have handed in some
    /// entries before that. A member that fell starts again from its records by a `restart` line, and a `restart` that
    /// fails changes nothing. A line that touches no record, such as `end` or `ack`, leaves each member as it was. What
    /// was stated is as before, or has grown by the first of the statements that the line would have made.
    pub fn step<R: Threads + Sync, D: Keeper, S: MakesSeals>(
        &mut self,
        rt: &R,
        keeper: &mut D,
        sealer: &S,
        event: &Event,
    ) -> Result<Seq<Line>, WorldFault>
        requires room { length self.old.posts ≤ D.width keeper.old }
        ensures step { StepAfter (trust_by (S.made sealer.now) (S.accepts sealer.now)) self.old event.now self.new (D.lists keeper.old) (D.lists keeper.new) result }
        ensures keeper { KeeperAfter (D.width keeper.old) (D.width keeper.new) (D.failed keeper.old) (D.failed keeper.new) (IsErrOf result fault.KeepFault) }
        ensures keepable { AreKeepable self.old.sequences }
    {
        self.can_keep();
        match event {
            Event::Vote { member, tx } => call_outcome(self.vote(rt, keeper, sealer, *member, tx)),
            Event::Send { member, tx } => call_outcome(self.send(rt, keeper, sealer, *member, tx)),
            Event::See { member, entries } => {
                call_outcome(self.see(rt, keeper, sealer, *member, *entries))
            }
            Event::Run { member, workers } => {
                call_outcome(self.run(rt, keeper, sealer, *member, *workers))
            }
            Event::Close(member) => call_outcome(self.close(rt, keeper, sealer, *member)),
            Event::Turn(member) => call_outcome(self.turn(rt, keeper, sealer, *member)),
            Event::RawVote { member, bytes } => {
                call_outcome(self.raw_vote(rt, keeper, sealer, *member, bytes))
            }
            Event::RawHold { member, bytes } => {
                call_outcome(self.raw_hold(rt, keeper, sealer, *member, bytes))
            }
            Event::Restart(member) => self.restart(keeper, sealer, *member),
            Event::Tx {
                name,
                sender,
                spoiled,
                epoch,
                gas,
                budget,
                inputs,
                commands,
            } => {
                let words = TxLine {
                    name: name.as_slice(),
                    sender: sender.as_slice(),
                    spoiled: *spoiled,
                    epoch: *epoch,
                    gas,
                    budget: *budget,
                    inputs: inputs.as_slice(),
                    commands: commands.as_slice(),
                };
                quiet_outcome(self.make_tx(sealer, &words))
            }
            Event::Fvote {
                member,
                tx,
                origins,
            } => quiet_outcome(self.false_vote(sealer, *member, tx.as_slice(), origins.as_slice())),
            Event::Cert { tx, members } => {
                quiet_outcome(self.form_cert(sealer, tx.as_slice(), members.as_slice()))
            }
            Event::Order(tx) => quiet_outcome(self.order_cert(tx.as_slice())),
            Event::OrderEnd(member) => quiet_outcome(self.order_end(sealer, *member)),
            Event::OrderCommit => quiet_outcome(self.order_commit()),
            Event::End(member) => quiet_outcome(self.say_end(sealer, *member)),
            Event::Ack {
                member,
                tx,
                spoiled,
            } => quiet_outcome(self.say_ack(sealer, *member, tx.as_slice(), *spoiled)),
            Event::Final { tx, members } => {
                quiet_outcome(self.collect_final(sealer, tx.as_slice(), members.as_slice()))
            }
            Event::Show(member) => quiet_outcome(self.show(*member)),
            Event::Stop { member, kept } => quiet_outcome(self.stop(*member, *kept)),
        }
    }
}
