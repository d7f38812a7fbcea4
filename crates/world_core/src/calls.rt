//! Lines that ask a member for a vote, hand it a certificate, or let it run.

ghost use Rattle.std.specs.Prelude.{◌≡◌, ◌<◌, ◌≤◌, ◌∷◌, ◌++◌, [], IfOk, IsErrOf, OnErr, OnOk, length, map, option_map};
ghost use Rattle.chain_messages.specs.Messages as codecs;
ghost use Rattle.chain_types.specs.Transactions as tx_codecs;
ghost use Rattle.report_text.specs.declared.lines.Line.TheVariants as line;
ghost use Rattle.schedule_text.specs.declared.words.Event.TheVariants as events;
ghost use Rattle.world_spec.specs.Names.{cert_named, made_named};
ghost use Rattle.world_spec.specs.World.{said_by};
ghost use Rattle.world_lines.specs.Pushed.{GrowsToward};
ghost use Rattle.world_spec.specs.Scene.{post_world};
ghost use Rattle.world_core.specs.declared.reply.SeatFault.TheVariants as fault;
ghost use Rattle.world_core.specs.Served.{KeeperAfter, LineAfter};
ghost use Rattle.world_core.specs.Texts.{hold_replied, run_replied, run_stated, spelled_cert, spelled_tx, vote_replied};
ghost use Rattle.world_core.specs.Trusts.{trust_by};
ghost use Rattle.world_core.specs.Votes.{vote_stated};

use crate::requests::{HoldRequest, RunRequest, VoteRequest};
use crate::world::World;
use crate::{Reply, SeatFault};
use dag_pool::OpenGate;
use outside::Keeper;
use protocol_spec::{HoldRefusal, Ran, RunRefusal, VoteRefusal, Voted};
use report_text::{Line, RunText, SendText, VoteText};
use std::alloc::Global;
use std::thread::Threads;
use wire_bcs::{OutOfMemory, Seq};
use world_lines::{Directory, MakesSeals, StatementLog, hold_text, one_line, run_lines, vote_text};

/// The ending of the report's line for a member's reply to a request for its vote; a vote that it gave is added to what
/// was stated. If out of memory, nothing is added.
fn tell_vote(
    directory: &Directory,
    said: &mut StatementLog,
    member: u32,
    reply: Reply<Result<Voted, VoteRefusal>>,
) -> Result<VoteText, OutOfMemory>
    ensures text { IfOk result (λ text. text ≡ vote_replied directory.now reply) }
    ensures said { OnOk result (said.new ≡ said.old ++ vote_stated member reply) }
    ensures unsaid { OnErr result (said.new ≡ said.old) }
{
    let answer = match reply {
        Reply::Down => return Ok(VoteText::Down),
        Reply::Stopped => return Ok(VoteText::Stopped),
        Reply::Answered(answer) => answer,
    };
    let text = vote_text(directory, &answer)?;
    match answer {
        Ok(voted) => {
            let seal = voted.sealed.seal;
            said.say_sealed(member, voted.sealed.statement, seal)?;
            Ok(text)
        }
        Err(_refusal) => Ok(text),
    }
}

/// The ending of the report's line for a member's reply to a certificate.
fn tell_hold(
    directory: &Directory,
    reply: &Reply<Result<bool, HoldRefusal>>,
) -> Result<SendText, OutOfMemory>
    ensures { IfOk result (λ text. text ≡ hold_replied directory.now reply.now) }
{
    match reply {
        Reply::Down => Ok(SendText::Down),
        Reply::Stopped => Ok(SendText::Stopped),
        Reply::Answered(answer) => hold_text(directory, answer),
    }
}

/// The line of a run that has no answer.
fn run_line(alloc: Global, member: u32, text: RunText) -> Result<Seq<Line>, OutOfMemory>
    ensures { IfOk result (λ lines. lines ≡ line.Run member text ∷ []) }
{
    let member = member as u64;
    one_line(alloc, Line::Run { member, text })
}

/// The report's lines for a member's reply to a run; the checkpoints that it completed are added to what was stated. If
/// out of memory, only the first few are added, or none.
#[tactic(auto, using(world_lines::proofs::Growing::none_added, crate::proofs::Stated::some_said))]
fn tell_run(
    directory: &Directory,
    said: &mut StatementLog,
    member: u32,
    reply: &Reply<Result<Ran, RunRefusal>>,
) -> Result<Seq<Line>, OutOfMemory>
    ensures lines { IfOk result (λ lines. lines ≡ run_replied directory.now member reply.now) }
    ensures said { OnOk result (said.new ≡ said.old ++ map (said_by member) (run_stated reply.now)) }
    ensures grew { OnErr result (GrowsToward said.old said.new (said.old ++ map (said_by member) (run_stated reply.now))) }
{
    let answer = match reply {
        Reply::Down => return run_line(directory.allocator(), member, RunText::Down),
        Reply::Stopped => return run_line(directory.allocator(), member, RunText::Stopped),
        Reply::Answered(answer) => answer,
    };
    let lines = run_lines(directory, member, answer)?;
    if let Ok(ran) = answer {
        said.say_built(member, ran.built.as_slice())?;
    }
    Ok(lines)
}

/// The number of workers, brought into 1 to 16. (The reader of a schedule admits no other number.)
fn workers_of(number: u32) -> u32
    ensures { (0 < result) × (result ≤ 16) }
{
    number.clamp(1, 16)
}

/// A list of this one line; the only fault is running out of memory.
pub(crate) fn told(alloc: Global, line: Line) -> Result<Seq<Line>, SeatFault>
    ensures lines { IfOk result (λ lines. lines ≡ line ∷ []) }
    ensures fault { IsErrOf result fault.KeepFault → ⊥ }
{
    match one_line(alloc, line) {
        Ok(lines) => Ok(lines),
        Err(OutOfMemory) => Err(SeatFault::OutOfMemory),
    }
}

impl World {
    /// The encoding of the transaction of this name; none exactly if no line made one.
    #[tactic(auto, using(crate::proofs::Voting::spelled_named))]
    fn spelled_tx(&self, name: &[u8]) -> Result<Option<Seq<u8>>, OutOfMemory>
        ensures { IfOk result (λ bytes. bytes ≡ option_map spelled_tx (made_named (post_world self.now) name.now)) }
    {
        let Some(made) = self.directory.made(name) else {
            return Ok(None);
        };
        Ok(Some(Seq::from_slice(self.alloc, made.signed.bytes())?))
    }

    /// The encoding of the certificate that was formed last for this name; none exactly if none was.
    #[tactic(auto, using(crate::proofs::Voting::spelled_cert))]
    fn spelled_cert(&self, name: &[u8]) -> Result<Option<Seq<u8>>, OutOfMemory>
        ensures { IfOk result (λ bytes. bytes ≡ option_map spelled_cert (cert_named (post_world self.now) name.now)) }
    {
        let Some(cert) = self.certs.last_named(name) else {
            return Ok(None);
        };
        Ok(Some(Seq::from_slice(self.alloc, cert.bytes())?))
    }

    /// The line `vote`: asks a member for its vote for the transaction of this name.
    pub(crate) fn vote<R: Threads + Sync, D: Keeper, S: MakesSeals>(
        &mut self,
        rt: &R,
        keeper: &mut D,
        sealer: &S,
        member: u32,
        tx: &Seq<u8>,
    ) -> Result<Seq<Line>, SeatFault>
        requires room { length self.old.posts ≤ D.width keeper.old }
        ensures line { LineAfter (trust_by (S.made sealer.now) (S.accepts sealer.now)) self.old (events.Vote member tx.now) self.new (D.lists keeper.old) (D.lists keeper.new) result }
        ensures keeper { KeeperAfter (D.width keeper.old) (D.width keeper.new) (D.failed keeper.old) (D.failed keeper.new) (IsErrOf result fault.KeepFault) }
    {
        let alloc = self.alloc;
        let Ok(name) = Seq::from_slice(alloc, tx.as_slice()) else {
            return Err(SeatFault::OutOfMemory);
        };
        let Ok(bytes) = self.spelled_tx(tx.as_slice()) else {
            return Err(SeatFault::OutOfMemory);
        };
        let Some(bytes) = bytes else {
            return told(
                alloc,
                Line::Vote {
                    member: member as u64,
                    tx: name,
                    text: VoteText::Down,
                },
            );
        };
        let request = VoteRequest {
            bytes: bytes.as_slice(),
        };
        let reply = match self.seats.call(rt, alloc, keeper, sealer, member, &request) {
            Ok(reply) => reply,
            Err(fault) => return Err(fault),
        };
        let Ok(text) = tell_vote(&self.directory, &mut self.said, member, reply) else {
            return Err(SeatFault::OutOfMemory);
        };
        told(
            alloc,
            Line::Vote {
                member: member as u64,
                tx: name,
                text,
            },
        )
    }

    /// The line `send`: hands the certificate that was formed last for this name to a member.
    pub(crate) fn send<R: Threads + Sync, D: Keeper, S: MakesSeals>(
        &mut self,
        rt: &R,
        keeper: &mut D,
        sealer: &S,
        member: u32,
        tx: &Seq<u8>,
    ) -> Result<Seq<Line>, SeatFault>
        requires room { length self.old.posts ≤ D.width keeper.old }
        ensures line { LineAfter (trust_by (S.made sealer.now) (S.accepts sealer.now)) self.old (events.Send member tx.now) self.new (D.lists keeper.old) (D.lists keeper.new) result }
        ensures keeper { KeeperAfter (D.width keeper.old) (D.width keeper.new) (D.failed keeper.old) (D.failed keeper.new) (IsErrOf result fault.KeepFault) }
    {
        let alloc = self.alloc;
        let Ok(name) = Seq::from_slice(alloc, tx.as_slice()) else {
            return Err(SeatFault::OutOfMemory);
        };
        let Ok(bytes) = self.spelled_cert(tx.as_slice()) else {
            return Err(SeatFault::OutOfMemory);
        };
        let Some(bytes) = bytes else {
            return told(
                alloc,
                Line::Send {
                    member: member as u64,
                    tx: name,
                    text: SendText::NoCertificate,
                },
            );
        };
        let request = HoldRequest {
            bytes: bytes.as_slice(),
        };
        let reply = match self.seats.call(rt, alloc, keeper, sealer, member, &request) {
            Ok(reply) => reply,
            Err(fault) => return Err(fault),
        };
        let Ok(text) = tell_hold(&self.directory, &reply) else {
            return Err(SeatFault::OutOfMemory);
        };
        told(
            alloc,
            Line::Send {
                member: member as u64,
                tx: name,
                text,
            },
        )
    }

    /// The line `run`: lets a member run what it holds, by this many workers.
    pub(crate) fn run<R: Threads + Sync, D: Keeper, S: MakesSeals>(
        &mut self,
        rt: &R,
        keeper: &mut D,
        sealer: &S,
        member: u32,
        workers: u32,
    ) -> Result<Seq<Line>, SeatFault>
        requires room { length self.old.posts ≤ D.width keeper.old }
        ensures line { LineAfter (trust_by (S.made sealer.now) (S.accepts sealer.now)) self.old (events.Run member workers) self.new (D.lists keeper.old) (D.lists keeper.new) result }
        ensures keeper { KeeperAfter (D.width keeper.old) (D.width keeper.new) (D.failed keeper.old) (D.failed keeper.new) (IsErrOf result fault.KeepFault) }
    {
        let alloc = self.alloc;
        let request = RunRequest {
            workers: workers_of(workers),
            gate: OpenGate,
        };
        let reply = match self.seats.call(rt, alloc, keeper, sealer, member, &request) {
            Ok(reply) => reply,
            Err(fault) => return Err(fault),
        };
        match tell_run(&self.directory, &mut self.said, member, &reply) {
            Ok(lines) => Ok(lines),
            Err(OutOfMemory) => Err(SeatFault::OutOfMemory),
        }
    }

    /// The line `raw .. vote`: asks a member for its vote for what the bytes encode.
    pub(crate) fn raw_vote<R: Threads + Sync, D: Keeper, S: MakesSeals>(
        &mut self,
        rt: &R,
        keeper: &mut D,
        sealer: &S,
        member: u32,
        bytes: &Seq<u8>,
    ) -> Result<Seq<Line>, SeatFault>
        requires room { length self.old.posts ≤ D.width keeper.old }
        ensures line { LineAfter (trust_by (S.made sealer.now) (S.accepts sealer.now)) self.old (events.RawVote member bytes.now) self.new (D.lists keeper.old) (D.lists keeper.new) result }
        ensures keeper { KeeperAfter (D.width keeper.old) (D.width keeper.new) (D.failed keeper.old) (D.failed keeper.new) (IsErrOf result fault.KeepFault) }
    {
        let alloc = self.alloc;
        let request = VoteRequest {
            bytes: bytes.as_slice(),
        };
        let reply = match self.seats.call(rt, alloc, keeper, sealer, member, &request) {
            Ok(reply) => reply,
            Err(fault) => return Err(fault),
        };
        let Ok(text) = tell_vote(&self.directory, &mut self.said, member, reply) else {
            return Err(SeatFault::OutOfMemory);
        };
        let member = member as u64;
        told(alloc, Line::RawVote { member, text })
    }

    /// The line `raw .. hold`: hands the bytes to a member as a certificate.
    pub(crate) fn raw_hold<R: Threads + Sync, D: Keeper, S: MakesSeals>(
        &mut self,
        rt: &R,
        keeper: &mut D,
        sealer: &S,
        member: u32,
        bytes: &Seq<u8>,
    ) -> Result<Seq<Line>, SeatFault>
        requires room { length self.old.posts ≤ D.width keeper.old }
        ensures line { LineAfter (trust_by (S.made sealer.now) (S.accepts sealer.now)) self.old (events.RawHold member bytes.now) self.new (D.lists keeper.old) (D.lists keeper.new) result }
        ensures keeper { KeeperAfter (D.width keeper.old) (D.width keeper.new) (D.failed keeper.old) (D.failed keeper.new) (IsErrOf result fault.KeepFault) }
    {
        let alloc = self.alloc;
        let request = HoldRequest {
            bytes: bytes.as_slice(),
        };
        let reply = match self.seats.call(rt, alloc, keeper, sealer, member, &request) {
            Ok(reply) => reply,
            Err(fault) => return Err(fault),
        };
        let Ok(text) = tell_hold(&self.directory, &reply) else {
            return Err(SeatFault::OutOfMemory);
        };
        let member = member as u64;
        told(alloc, Line::RawHold { member, text })
    }
}
