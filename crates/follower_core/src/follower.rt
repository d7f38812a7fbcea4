//! The [`Follower`]: applies checkpoints with their transactions one after the other.

ghost use Rattle.std.specs.Prelude.{◌≡◌, ◌-◌, ◌<◌, ◌^◌, All, IfErr, IfOk, None, OnErr, OnOk, Some, false, if◌then◌else◌, length};
ghost use Rattle.std.specs.FinMap.{values};
ghost use Rattle.chain_types.specs.Transactions.{transaction};
ghost use Rattle.checkpoint_core.specs.Checkpoints.{checkpoint as codec};
ghost use Rattle.protocol_spec.specs.Chain.Words.{Each};
ghost use Rattle.follower_core.specs.Courses.{first_bad};
ghost use Rattle.follower_core.specs.Steps.{with_objects};
ghost use Rattle.follower_core.specs.Following.{Answers, applied_in as count_in, course_behind, is_memory, opened, state_behind, tip_behind, turned};

use crate::ledger::Ledger;
use crate::place::{apply_all, put_all};
use crate::refusals::FollowRefusal;
use crate::tip::{Tip, applied_in, check, tip_behind};
use chain_types::{Object, Transaction};
use checkpoint_core::Checkpoint;
use std::alloc::Global;
use std::marker::Model;
use wire_bcs::{OutOfMemory, Seq};

/// A node without a vote. Contracts see the live objects, what was applied and deleted in the epoch, and the tip of the
/// chain.
#[derive(Drop)]
pub struct Follower {
    ledger: Ledger,
    tip: Tip,
    alloc: Global,
}

impl Model for Follower {
    ghost use Rattle.std.specs.Prelude.{◌≡◌, ◌≤◌};
    ghost use Rattle.std.specs.Coded.{codes};
    ghost use Rattle.std.specs.FinMap.{code};
    ghost use Rattle.checkpoint_core.specs.Links.{HasNext};
    ghost use Rattle.follower_core.specs.Following.{State, applied_in};

    ghost Value = { State };

    ghost coded = { Prim.hlevel (codes, code) };

    ghost view = { λ f. record { course = f.ledger.kept; tip = f.tip } };

    ghost invariant = { λ f. (f.ledger.present ≡ f.ledger.kept) × (HasNext f.tip.before × (f.tip.epoch ≤ applied_in f.tip)) };
}

/// Whether memory was refused.
fn is_memory(refusal: &FollowRefusal) -> bool
    ensures { result ≡ is_memory refusal.now }
{
    match refusal {
        FollowRefusal::OutOfMemory => true,
        FollowRefusal::Down => false,
        FollowRefusal::Link(_) => false,
        FollowRefusal::Epoch { .. } => false,
        FollowRefusal::Count { .. } => false,
        FollowRefusal::WrongTx { .. } => false,
        FollowRefusal::Stuck { .. } => false,
        FollowRefusal::Differs { .. } => false,
    }
}

/// Settles what stands now, and begins a new epoch after a last checkpoint.
fn settle(ledger: &mut Ledger, last: bool) -> Result<(), OutOfMemory>
    ensures kept { OnOk result (ledger.new.kept ≡ (if last then turned ledger.old.present else ledger.old.present)) }
    ensures present { OnOk result (ledger.new.present ≡ (if last then turned ledger.old.present else ledger.old.present)) }
    ensures err { OnErr result (ledger.new.kept ≡ ledger.old.kept) }
{
    ledger.settle()?;
    if last {
        ledger.turn();
    }
    Ok(())
}

/// Puts the objects under their ids, and settles that.
fn fill(ledger: &mut Ledger, objects: &[Object]) -> Result<(), OutOfMemory>
    ensures kept { OnOk result (ledger.new.kept ≡ with_objects ledger.old.present objects.now) }
    ensures present { OnOk result (ledger.new.present ≡ with_objects ledger.old.present objects.now) }
{
    put_all(ledger, objects)?;
    ledger.settle()
}

/// Executes the transactions of a checkpoint that goes on from the tip, and settles what they did; answers the next tip.
fn follow(
    alloc: Global,
    ledger: &mut Ledger,
    tip: &Tip,
    checkpoint: &Checkpoint,
    txs: &Seq<Transaction>,
) -> Result<Tip, FollowRefusal>
    requires short { codec.short checkpoint.now }
    requires each { Each transaction.short txs.now }
    requires same { length txs.now ≡ length checkpoint.now.items }
    requires epoch { tip.now.epoch < 2 ^ 64 - 1 }
    ensures tip { IfOk result (λ next. next ≡ tip_behind tip.now checkpoint.now) }
    ensures stand { OnOk result (first_bad ledger.old.present 0 checkpoint.now.items txs.now ≡ None) }
    ensures kept { OnOk result (ledger.new.kept ≡ course_behind ledger.old.present checkpoint.now txs.now) }
    ensures present { OnOk result (ledger.new.present ≡ course_behind ledger.old.present checkpoint.now txs.now) }
    ensures refused { IfErr result (λ refusal. is_memory refusal ≡ false → first_bad ledger.old.present 0 checkpoint.now.items txs.now ≡ Some refusal) }
    ensures stays { OnErr result (ledger.new.kept ≡ ledger.old.kept) }
{
    let next = tip_behind(alloc, tip, checkpoint)?;
    apply_all(alloc, ledger, checkpoint.items.as_slice(), txs.as_slice())?;
    settle(ledger, checkpoint.last)?;
    Ok(next)
}

impl Follower {
    /// A follower of the chain that begins with these objects; if two have one id, the last counts.
    #[tactic(auto, unfolding(protocol_spec::specs::Member::Sequential::map_of))]
    pub fn open(alloc: Global, opening: &Seq<Object>) -> Result<Follower, OutOfMemory>
        ensures { IfOk result (λ follower. follower ≡ opened opening.now) }
    {
        let mut ledger = Ledger::new(alloc);
        match fill(&mut ledger, opening.as_slice()) {
            Ok(()) => Ok(Follower {
                ledger,
                tip: Tip {
                    before: None,
                    epoch: 0,
                    up: true,
                },
                alloc,
            }),
            Err(refused) => {
                drop(ledger);
                Err(refused)
            }
        }
    }

    /// Applies the next checkpoint with its transactions, and answers how many checkpoints were applied.
    ///
    /// Refusals in order: `Down` if memory was refused at an earlier checkpoint; `Link`; `Epoch`; `Count`; then at the
    /// first bad place `WrongTx`, `Stuck` or `Differs`; last, `OutOfMemory`. A transaction is stuck if its shape is not
    /// valid, an object that it names is not live or does not fit, a transaction of its digest was applied before in this
    /// epoch, it writes one id twice, or it creates an object whose id has a version in this epoch. After `OutOfMemory`
    /// the follower is down; any other refusal changes nothing. Time grows with what the checkpoint holds. Required:
    /// fewer than 2^64 - 1 checkpoints were applied, and the lists are at most 2147483647 long.
    pub fn apply(
        &mut self,
        checkpoint: &Checkpoint,
        txs: &Seq<Transaction>,
    ) -> Result<u64, FollowRefusal>
        requires room { count_in self.old.tip < 2 ^ 64 - 1 }
        requires short { codec.short checkpoint.now }
        requires each { All transaction.short txs.now }
        ensures answer { Answers self.old checkpoint.now txs.now result }
        ensures state { self.new ≡ state_behind self.old checkpoint.now txs.now result }
    {
        match check(&self.tip, checkpoint, txs) {
            Ok(()) => {}
            Err(refusal) => return Err(refusal),
        }
        match follow(self.alloc, &mut self.ledger, &self.tip, checkpoint, txs) {
            Ok(tip) => {
                let applied = applied_in(&tip);
                self.tip = tip;
                Ok(applied)
            }
            Err(refusal) => {
                self.ledger.take_back();
                if is_memory(&refusal) {
                    self.tip.up = false;
                }
                Err(refusal)
            }
        }
    }

    /// The live objects by ascending id. Time grows with their number.
    pub fn live_list(&self) -> Result<Seq<Object>, OutOfMemory>
        ensures { IfOk result (λ objects. objects ≡ values self.now.course.map) }
    {
        self.ledger.live_list()
    }

    /// How many checkpoints were applied. Takes no memory.
    pub fn applied(&self) -> u64
        ensures { result ≡ count_in self.now.tip }
    {
        applied_in(&self.tip)
    }

    /// The epoch of the next checkpoint. Takes no memory.
    pub fn epoch(&self) -> u64
        ensures { result ≡ self.now.tip.epoch }
    {
        self.tip.epoch
    }
}
