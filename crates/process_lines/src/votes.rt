//! The answers to `vote`.

ghost use Rattle.std.specs.Prelude.{◌≡◌, ◌++◌, ◌∷◌, [], OnOk, codes};
ghost use Rattle.std.specs.List.{concat};
ghost use Rattle.chain_messages.specs.Messages as messages;
ghost use Rattle.process_lines.specs.Pieces.{digest_text, key_text};
ghost use Rattle.process_lines.specs.Texts.{vote_refusal_text, voted_text};

use crate::faults::{print_halted, print_malformed, print_wrong_epoch};
use crate::pieces::{Piece, print};
use chain_messages::encode_sealed;
use chain_types::ObjectKey;
use digest_core::Digest;
use protocol_spec::{VoteRefusal, Voted};
use wire_bcs::{OutOfMemory, Seq};

/// `voted SEALED`, or `again SEALED` if the vote was given before.
#[tactic(auto, unfolding(crate::specs::Texts::voted_text))]
pub fn print_voted(out: &mut Seq<u8>, voted: &Voted) -> Result<(), OutOfMemory>
    requires short { messages.sealed.short voted.now.sealed }
    ensures { OnOk result (out.new ≡ out.old ++ voted_text voted.now) }
{
    let sealed = encode_sealed(out.allocator(), &voted.sealed)?;
    if voted.fresh {
        print(
            out,
            &[Piece::Text(b"voted "), Piece::Bytes(sealed.as_slice())],
        )
    } else {
        print(
            out,
            &[Piece::Text(b"again "), Piece::Bytes(sealed.as_slice())],
        )
    }
}

/// A word, and a version.
fn print_with_key<'a>(out: &mut Seq<u8>, text: &'a [u8], key: &ObjectKey) -> Result<(), OutOfMemory>
    ensures { OnOk result (out.new ≡ out.old ++ concat (text.now ∷ key_text key.now ∷ [])) }
{
    print(out, &[Piece::Text(text), Piece::Key(*key)])
}

/// A word, a version, and the transaction that has it.
fn print_taken<'a>(
    out: &mut Seq<u8>,
    text: &'a [u8],
    key: &ObjectKey,
    by: &Digest,
) -> Result<(), OutOfMemory>
    ensures { OnOk result (out.new ≡ out.old ++ concat (text.now ∷ key_text key.now ∷ codes " by " ∷ digest_text by.now ∷ [])) }
{
    print(
        out,
        &[
            Piece::Text(text),
            Piece::Key(*key),
            Piece::Text(b" by "),
            Piece::Id(*by),
        ],
    )
}

/// `refused ..`. A fault has no line.
#[tactic(auto, unfolding(crate::specs::Texts::vote_refusal_text))]
pub fn print_vote_refusal(out: &mut Seq<u8>, refusal: &VoteRefusal) -> Result<(), OutOfMemory>
    ensures { OnOk result (out.new ≡ out.old ++ vote_refusal_text refusal.now) }
{
    match refusal {
        VoteRefusal::Down | VoteRefusal::KeepFault | VoteRefusal::OutOfMemory => Ok(()),
        VoteRefusal::Halted { first, second } => print_halted(out, first, second),
        VoteRefusal::Full => out.extend(b"refused full"),
        VoteRefusal::Malformed(fault) => print_malformed(out, fault),
        VoteRefusal::WrongEpoch { had, want } => print_wrong_epoch(out, *had, *want),
        VoteRefusal::Closed => out.extend(b"refused closed"),
        VoteRefusal::Invalid(number) => print(
            out,
            &[
                Piece::Text(b"refused invalid "),
                Piece::Number(*number as u64),
            ],
        ),
        VoteRefusal::Unsealed => out.extend(b"refused unsealed"),
        VoteRefusal::Absent(key) => print_with_key(out, b"refused absent ", key),
        VoteRefusal::Consumed { key, by } => print_taken(out, b"refused consumed ", key, by),
        VoteRefusal::WrongDigest(key) => print_with_key(out, b"refused wrong digest ", key),
        VoteRefusal::WrongOwner(key) => print_with_key(out, b"refused wrong owner ", key),
        VoteRefusal::WrongKind(key) => print_with_key(out, b"refused wrong kind ", key),
        VoteRefusal::PoorGas { had, want } => print(
            out,
            &[
                Piece::Text(b"refused poor gas had "),
                Piece::Number(*had),
                Piece::Text(b" want "),
                Piece::Number(*want),
            ],
        ),
        VoteRefusal::Locked { key, by } => print_taken(out, b"refused locked ", key, by),
    }
}
