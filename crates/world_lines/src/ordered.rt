//! Lines that order entries, the sealed End of a member, and the epochs that open after Ends.

ghost use Rattle.std.specs.Prelude.{◌≡◌, ◌⊎◌, ℕ, ◌∷◌, [], IfOk, OnErr, OnOk, Option};
ghost use Rattle.chain_messages.specs.Messages as codecs;
ghost use Rattle.report_text.specs.declared.lines.Line.TheVariants as line;
ghost use Rattle.protocol_spec.specs.Chain.Certificates.{rules_of};
ghost use Rattle.world_spec.specs.SceneWorlds.{AreKeepable};
ghost use Rattle.world_lines.specs.Orders.{risen_by, sealed_end_by, with_entry};

use crate::MakesSeals;
use crate::order::ConsensusLog;
use crate::runs::one_line;
use chain_messages::{Entry, Sealed, Statement, encode_statement};
use quorum_core::{Committee, Sealer, Signer};
use report_text::{Line, OrderEndText, OrderText};
use std::alloc::Global;
use wire_bcs::{OutOfMemory, Seq};

/// The line of an `order T` with this ending.
pub fn order_line(alloc: Global, tx: &[u8], text: OrderText) -> Result<Seq<Line>, OutOfMemory>
    ensures { IfOk result (λ lines. lines ≡ line.Order tx.now text ∷ []) }
{
    let tx = Seq::from_slice(alloc, tx)?;
    one_line(alloc, Line::Order { tx, text })
}

/// The line of an `order end M` with this ending.
pub fn order_end_line(
    alloc: Global,
    member: u32,
    text: OrderEndText,
) -> Result<Seq<Line>, OutOfMemory>
    ensures { IfOk result (λ lines. lines ≡ line.OrderEnd member text ∷ []) }
{
    let member = member as u64;
    one_line(alloc, Line::OrderEnd { member, text })
}

/// A member's End of an epoch, under its seal.
#[tactic(auto, unfolding(chain_messages::specs::Messages::statement), using(crate::proofs::Spelled::short_end))]
pub fn sealed_end<S: MakesSeals>(
    alloc: Global,
    sealer: &S,
    member: u32,
    epoch: u64,
) -> Result<Entry, OutOfMemory>
    ensures end { IfOk result (λ end. end ≡ sealed_end_by (S.made sealer.now) member epoch) }
    ensures short { IfOk result (λ end. codecs.entry.short end) }
{
    let statement = Statement::End { epoch };
    let bytes = encode_statement(alloc, &statement)?;
    Ok(Entry::End(Sealed {
        member,
        statement,
        seal: sealer.make_seal(&Signer::Member(member), bytes.as_slice()),
    }))
}

/// Orders an entry at the end of the open epoch's sequence, and opens another epoch if the open one has ended then, for
/// members of this committee that accept these seals. If memory is refused, no epoch opens, and the entry was ordered
/// or not.
pub fn order_and_rise<S: Sealer>(
    order: &mut ConsensusLog,
    committee: &Committee,
    sealer: &S,
    entry: &Entry,
) -> Result<(), OutOfMemory>
    requires { codecs.entry.short entry.now }
    ensures order { OnOk result ((writers : Option ℕ) → order.new ≡ risen_by (rules_of committee.now writers (S.accepts sealer.now)) (with_entry order.old entry.now)) }
    ensures err { OnErr result ((order.new ≡ order.old) ⊎ (order.new ≡ with_entry order.old entry.now)) }
    ensures keepable { AreKeepable order.new.sequences }
{
    order.push(entry)?;
    if !order.has_ended(committee, sealer)? {
        return Ok(());
    }
    order.rise()?;
    Ok(())
}
