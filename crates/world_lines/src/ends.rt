//! The Ends of an epoch among the entries of its sequence, and whether they end it.

ghost use Rattle.std.specs.Prelude.{◌≡◌, ◌<◌, IfOk, map};
ghost use Rattle.std.specs.List.{filter, list_any};
ghost use Rattle.std.specs.Vec.{vec_capacity, vec_len};
ghost use Rattle.chain_messages.specs.Messages as codecs;
ghost use Rattle.quorum_core.specs.declared.signer.Signer.TheVariants as signers;
ghost use Rattle.chain_messages.specs.declared.messages.MemberSeal.{MemberSeal as Ended};
ghost use Rattle.world_lines.specs.Ends.{are_an_end, end_in, end_read, end_stated, ended_by, is_same, with_end};

use crate::said::push_in_room;
use chain_messages::{Entry, MemberSeal, Sealed, Statement, decode_entry, encode_statement};
use quorum_core::{Committee, Sealer, Signer};
use std::alloc::Global;
use wire_bcs::{OutOfMemory, Seq, Unread};

/// The member and seal of a sealed End of this epoch; none for any other statement. Takes no memory.
fn end_stated(epoch: u64, said: &Sealed) -> Option<MemberSeal>
    ensures { result ≡ end_stated epoch said.now said.now.statement }
{
    match &said.statement {
        Statement::End { epoch: of_epoch } => {
            if *of_epoch != epoch {
                return None;
            }
            Some(MemberSeal {
                member: said.member,
                seal: said.seal,
            })
        }
        Statement::Vote { .. } | Statement::Checkpoint { .. } | Statement::Ack { .. } => None,
    }
}

/// The member and seal of an entry that is an End of this epoch; none for any other entry. Takes no memory.
fn end_in(epoch: u64, entry: &Entry) -> Option<MemberSeal>
    ensures { result ≡ end_in epoch entry.now }
{
    match entry {
        Entry::End(said) => end_stated(epoch, said),
        Entry::Cert(_) | Entry::Commit => None,
    }
}

/// The member and seal of an End of this epoch in the bytes of an entry; none if they decode to anything else, or not
/// at all.
#[tactic(auto, unfolding(crate::specs::Ends::end_read, protocol_spec::specs::Chain::Certificates::read_entry))]
fn end_read(alloc: Global, epoch: u64, bytes: &[u8]) -> Result<Option<MemberSeal>, OutOfMemory>
    ensures { IfOk result (λ end. end ≡ end_read epoch bytes.now) }
{
    match decode_entry(alloc, bytes) {
        Ok(entry) => Ok(end_in(epoch, &entry)),
        Err(Unread::Wire(_fault)) => Ok(None),
        Err(Unread::OutOfMemory) => Err(OutOfMemory),
    }
}

/// The End of this epoch that a member reads in the bytes of this entry, if any. Only the bytes of an End are decoded.
#[tactic(auto, using(crate::proofs::EndTexts::no_end_in_cert, crate::proofs::EndTexts::no_end_in_mark))]
pub(crate) fn end_of(
    alloc: Global,
    epoch: u64,
    entry: &Entry,
    bytes: &[u8],
) -> Result<Option<MemberSeal>, OutOfMemory>
    requires { bytes.now ≡ codecs.entry.spell entry.now }
    ensures { IfOk result (λ end. end ≡ end_read epoch bytes.now) }
{
    match entry {
        Entry::End(_) => end_read(alloc, epoch, bytes),
        Entry::Cert(_) | Entry::Commit => Ok(None),
    }
}

/// Whether this member's End with this seal is in the list. Takes no memory.
fn is_kept(ends: &[MemberSeal], end: &MemberSeal) -> bool
    ensures { result ≡ list_any (is_same end.now) ends.now }
{
    ends.iter()
        .any(|kept| end.member == kept.member && end.seal == kept.seal)
}

/// Adds an End, if there is one and it is not in the list yet; the list has room for one more.
pub(crate) fn keep_end(ends: &mut Vec<MemberSeal>, end: Option<MemberSeal>)
    requires { vec_len ends.old < vec_capacity ends.old }
    ensures { ends.new.items ≡ with_end ends.old.items end }
{
    let Some(end) = end else {
        return;
    };
    if is_kept(ends.as_slice(), &end) {
        return;
    }
    push_in_room(ends, end);
}

/// The members of the Ends whose seal over these bytes is accepted; the bytes are the encoded statement of an End.
fn ended_by<S: Sealer>(
    alloc: Global,
    sealer: &S,
    ends: &[MemberSeal],
    bytes: &[u8],
) -> Result<Vec<u32>, OutOfMemory>
    ensures { IfOk result (λ members. members.items ≡ map (λ (x : Ended). x.member) (filter (λ (x : Ended). S.accepts sealer.now (signers.Member x.member) bytes.now x.seal) ends.now)) }
{
    Ok(
        ends.iter()
            .filter(|end| sealer.check(&Signer::Member(end.member), bytes, &end.seal))
            .map(|end| end.member)
            .collect(alloc)?,
    )
}

/// Whether these Ends of an epoch end it: the members whose seal on one is accepted are a quorum (Sui Lutris). Checks
/// each seal once.
#[tactic(auto, unfolding(crate::specs::Ends::are_an_end, chain_messages::specs::Messages::statement))]
pub(crate) fn are_an_end<S: Sealer>(
    alloc: Global,
    committee: &Committee,
    sealer: &S,
    epoch: u64,
    ends: &[MemberSeal],
) -> Result<bool, OutOfMemory>
    ensures { IfOk result (λ ended. ended ≡ are_an_end committee.now (S.accepts sealer.now) epoch ends.now) }
{
    let bytes = encode_statement(alloc, &Statement::End { epoch })?;
    let members = ended_by(alloc, sealer, ends, bytes.as_slice())?;
    let weight = committee.weight_of_set(members.as_slice());
    Ok(committee.is_quorum(weight))
}
