//! Chains as members seal them.

ghost use Rattle.std.specs.Prelude.{◌≡◌, ◌≤◌, IfOk, length, map};
ghost use Rattle.checkpoint_core.specs.Checkpoints.{checkpoint as codec};
ghost use Rattle.light_check.specs.Certified.{IsAccepted, stated};
ghost use Rattle.light_check.specs.Chains as codecs;
ghost use Rattle.light_check.specs.Making.{AllShort, AreSealedBy, IsSealedBy};
ghost use Rattle.protocol_spec.specs.Chain.Words.{Each};

use crate::chain::{Chain, Link};
use crate::link::stated;
use chain_messages::MemberSeal;
use checkpoint_core::{Checkpoint, checkpoint_digest};
use quorum_core::{Sealer, Signer};
use std::alloc::Global;
use wire_bcs::{Duplicate, OutOfMemory, Seq};

/// The seals of the members over the bytes.
#[tactic(auto, using(crate::proofs::Sealing::all_seals, crate::proofs::Sealing::no_seals, crate::proofs::Sealing::one_seal_more))]
fn seals_over<S: Sealer>(
    alloc: Global,
    members: &[u32],
    sealer: &S,
    bytes: &[u8],
) -> Result<Seq<MemberSeal>, OutOfMemory>
    ensures members { IfOk result (λ seals. map (λ (s : _). s.member) seals ≡ members.now) }
    ensures accepted { IfOk result (Each (IsAccepted (S.accepts sealer.now) bytes.now)) }
{
    let mut seals = Seq::new(alloc);
    let mut rest = members;
    while let [member, after @ ..] = rest {
        seals.push(MemberSeal {
            member: *member,
            seal: sealer.seal(&Signer::Member(*member), bytes),
        })?;
        rest = after;
    }
    Ok(seals)
}

/// A checkpoint under the seals of the members.
fn link_of<S: Sealer>(
    alloc: Global,
    checkpoint: &Checkpoint,
    members: &[u32],
    sealer: &S,
) -> Result<Link, OutOfMemory>
    requires { codec.short checkpoint.now }
    ensures { IfOk result (IsSealedBy (S.accepts sealer.now) members.now checkpoint.now) }
{
    let digest = checkpoint_digest(alloc, checkpoint)?;
    let bytes = stated(alloc, checkpoint, digest)?;
    let seals = seals_over(alloc, members, sealer, bytes.as_slice())?;
    Ok(Link {
        checkpoint: checkpoint.copy()?,
        seals,
    })
}

/// The links of these checkpoints.
#[tactic(auto, using(crate::proofs::Sealing::all_links, crate::proofs::Sealing::no_links, crate::proofs::Sealing::one_link_more))]
fn links_of<S: Sealer>(
    alloc: Global,
    checkpoints: &[Checkpoint],
    members: &[u32],
    sealer: &S,
) -> Result<Seq<Link>, OutOfMemory>
    requires { AllShort checkpoints.now }
    ensures { IfOk result (AreSealedBy (S.accepts sealer.now) members.now checkpoints.now) }
{
    let mut links = Seq::new(alloc);
    let mut rest = checkpoints;
    while let [checkpoint, after @ ..] = rest {
        links.push(link_of(alloc, checkpoint, members, sealer)?)?;
        rest = after;
    }
    Ok(links)
}

/// The chain of these checkpoints, each under a seal of each member on its statement of it, in this order (Sui
/// Lutris). It can be encoded. Its lists are at most 2147483647 long.
pub fn make_chain<S: Sealer>(
    alloc: Global,
    checkpoints: &Seq<Checkpoint>,
    members: &[u32],
    sealer: &S,
) -> Result<Chain, OutOfMemory>
    requires short { codecs.checkpoints.short checkpoints.now }
    requires few { length members.now ≤ 2147483647 }
    ensures sealed { IfOk result (λ chain. AreSealedBy (S.accepts sealer.now) members.now checkpoints.now chain.links) }
    ensures short { IfOk result codecs.chain.short }
{
    match links_of(alloc, checkpoints.as_slice(), members, sealer) {
        Ok(links) => Ok(Chain { links }),
        Err(OutOfMemory) => Err(OutOfMemory),
    }
}
