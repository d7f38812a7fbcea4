//! Calls for clients that hold sealed votes, certificates or chains and no member: what votes give, who sealed two
//! certificates, and where a transaction stands.

ghost use Rattle.std.specs.Prelude.{◌≡◌, ◌∷◌, [], IfOk, map, true};
ghost use Rattle.quorum_core.specs.Committee.{is_roll};
ghost use Rattle.chain_types.specs.Transactions.{transaction};
ghost use Rattle.protocol_spec.specs.Chain.Words.{Each};
ghost use Rattle.cert_rules.specs.Collect.{IsVoteFor, voters};

use crate::objects::{digest, id, key};
use crate::same::{holds, same};
use cert_rules::{CollectRefusal, collect};
use chain_messages::{Certificate, MemberSeal, Sealed, Statement};
use chain_types::{Address, ObjectRef, Transaction, tx_digest};
use digest_core::Digest;
use light_check::{blame, decode_chain, find};
use quorum_core::Committee;
use std::alloc::Global;
use std::process::Abort;
use wire_bcs::{OutOfMemory, Seq};

/// Seals of these members, in their order.
fn seals(alloc: Global, members: &[u32]) -> Result<Seq<MemberSeal>, OutOfMemory> {
    let mut seals = Seq::new(alloc);
    for member in members {
        seals.push(MemberSeal {
            member: *member,
            seal: digest(0),
        })?;
    }
    Ok(seals)
}

/// A certificate, with seals of these members, of a transaction that consumes only version 1 of the coin of this number.
#[tactic(auto, unfolding(chain_types::specs::Transactions::transaction))]
fn certified(
    alloc: Global,
    epoch: u64,
    number: u8,
    budget: u64,
    members: &[u32],
) -> Result<Certificate, OutOfMemory>
    ensures { IfOk result (λ cert. transaction.short cert.tx) }
{
    let gas = ObjectRef {
        id: id(number),
        version: 1,
        digest: Digest([0; 32]),
    };
    let tx = Transaction {
        epoch,
        sender: Address(Digest([1; 32])),
        gas,
        budget,
        inputs: Seq::new(alloc),
        commands: Seq::new(alloc),
    };
    Ok(Certificate {
        tx,
        origins: Seq::new(alloc),
        seals: seals(alloc, members)?,
    })
}

/// The origins of a vote: none, and this one.
fn origins(origin: u8) -> [Option<Digest>; 2] {
    [None, Some(digest(origin))]
}

/// The vote of the member for the transaction, with this second origin.
fn vote(alloc: Global, tx: &Transaction, member: u32, origin: u8) -> Result<Sealed, OutOfMemory>
    requires { transaction.short tx.now }
    ensures member { IfOk result (λ vote. vote.member ≡ member) }
    ensures vote { IfOk result (IsVoteFor tx.now) }
{
    let statement = Statement::Vote {
        epoch: tx.epoch,
        tx: tx_digest(alloc, tx)?,
        origins: Seq::from_slice(alloc, origins(origin).as_slice())?,
    };
    Ok(Sealed {
        member,
        statement,
        seal: digest(origin),
    })
}

/// A vote for each member and second origin.
fn votes_of(
    alloc: Global,
    tx: &Transaction,
    named: &[(u32, u8)],
) -> Result<Seq<Sealed>, OutOfMemory>
    requires { transaction.short tx.now }
    ensures votes { IfOk result (Each (IsVoteFor tx.now)) }
    ensures voters { IfOk result (λ votes. voters votes ≡ map (λ n. n.0) named.now) }
{
    let mut votes = Seq::new(alloc);
    for (member, origin) in named {
        let vote = vote(alloc, tx, *member, *origin)?;
        votes.push(vote)?;
    }
    Ok(votes)
}

/// What the votes of these members with these origins give, in a committee whose members have the stakes 2, 3, 4 and 1. A
/// quorum weighs 7.
#[tactic(auto, unfolding(quorum_core::specs::Committee::committee_of))]
fn collected(alloc: Global, named: &[(u32, u8)]) -> Result<Certificate, CollectRefusal>
    requires { is_roll (2 ∷ 3 ∷ 4 ∷ 1 ∷ []) (map (λ n. n.0) named.now) ≡ true }
{
    let bare = certified(alloc, 7, 2, 1100, &[])?;
    let Ok(committee) = Committee::new([2, 3, 4, 1].as_slice()) else {
        return Err(CollectRefusal::OutOfMemory);
    };
    let votes = votes_of(alloc, &bare.tx, named)?;
    collect(alloc, &bare.tx, &votes, &committee)
}

/// Whether a certificate is that of the votes of members 1 and 2 with the origin 6.
fn is_collected(cert: &Certificate) -> bool {
    let seals = [1, 2].map(|member| MemberSeal {
        member,
        seal: digest(6),
    });
    cert.tx.epoch == 7
        && cert.tx.budget == 1100
        && cert.origins.as_slice() == origins(6).as_slice()
        && cert.seals.as_slice() == seals.as_slice()
}

#[test]
fn votes_of_a_quorum_give_a_certificate(rt: HostRuntime) {
    let Ok(cert) = collected(rt.alloc(), [(1, 6), (2, 6)].as_slice()) else {
        return holds(&rt, false);
    };
    holds(&rt, is_collected(&cert));
    drop(cert);
}

/// Why the votes give none.
fn why_none(alloc: Global, named: &[(u32, u8)]) -> Option<CollectRefusal>
    requires { is_roll (2 ∷ 3 ∷ 4 ∷ 1 ∷ []) (map (λ n. n.0) named.now) ≡ true }
{
    collected(alloc, named).err()
}

#[test]
fn other_votes_give_none(rt: HostRuntime) {
    let a = rt.alloc();
    let short = |weight| Some(CollectRefusal::Short { weight, total: 10 });
    let differ = |a, b| Some(CollectRefusal::Differ { a, b });
    same(&rt, why_none(a, [(0, 6), (2, 6)].as_slice()), short(6));
    same(&rt, why_none(a, [].as_slice()), short(0));
    same(&rt, why_none(a, [(0, 6), (2, 5)].as_slice()), short(6));
    let at_once = [(0, 6), (1, 5), (2, 4)];
    same(&rt, why_none(a, at_once.as_slice()), differ(0, 1));
    let later = [(0, 6), (1, 6), (2, 4)];
    same(&rt, why_none(a, later.as_slice()), differ(0, 2));
}

/// Whether these members, and no others, are to blame for a certificate of epoch 0 that consumes the coin 7, sealed by 0, 1
/// and 2, and this one, sealed by 2, 1 and 3; nobody if there are none.
fn blames(
    alloc: Global,
    epoch: u64,
    number: u8,
    budget: u64,
    members: &[u32],
) -> Result<bool, OutOfMemory> {
    let one = certified(alloc, 0, 7, 2000, [0, 1, 2].as_slice())?;
    let other = certified(alloc, epoch, number, budget, [2, 1, 3].as_slice())?;
    Ok(match blame(alloc, &one, &other)? {
        Some(found) => found.key == key(7, 1) && found.members.as_slice() == members,
        None => members.is_empty(),
    })
}

#[test]
fn who_sealed_both_is_to_blame(rt: HostRuntime) {
    let a = rt.alloc();
    same(&rt, blames(a, 0, 7, 3000, [2, 1].as_slice()), Ok(true));
    // The same transaction again, another coin, and an epoch later.
    same(&rt, blames(a, 0, 7, 2000, [].as_slice()), Ok(true));
    same(&rt, blames(a, 0, 8, 3000, [].as_slice()), Ok(true));
    same(&rt, blames(a, 1, 7, 3000, [].as_slice()), Ok(true));
}

/// Three checkpoints over two epochs, without seals: the first and the third list one transaction each.
const CHAIN: &str =
    "030000000000000000000000000000000000000000000000000000000000000000000000000000000000000000000000000111111111111111111111111111111111111111111111111111111111111111112222222222222222222222222222222222222222222222222222222222222222000000000000000000000100000000000000419ae3f7d3dba4f501fb684a86bc075594d02e0a249e2821d2a1c3bf0481a3be00010001000000000000000200000000000000a657ffa312bc559d98fab69a6ce3d900b52b3116218d1c7ee127adc906f75ef601333333333333333333333333333333333333333333333333333333333333333344444444444444444444444444444444444444444444444444444444444444440000";

/// The first checkpoint that lists this transaction, and the digest of its effects there.
fn found(alloc: Global, tx: u8) -> Option<Option<(u64, Digest)>> {
    let bytes = hex::decode(alloc, CHAIN.as_bytes()).ok()?;
    let chain = decode_chain(alloc, bytes.as_slice()).ok()?;
    Some(find(&chain, &digest(tx)))
}

#[test]
fn a_transaction_is_found_with_its_effects(rt: HostRuntime) {
    let a = rt.alloc();
    same(&rt, found(a, 0x11), Some(Some((0, digest(0x22)))));
    same(&rt, found(a, 0x33), Some(Some((2, digest(0x44)))));
    same(&rt, found(a, 0x12), Some(None));
}
