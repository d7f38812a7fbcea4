//! The answers to `see`.

ghost use Rattle.std.specs.Prelude.{◌≡◌, ◌++◌, OnOk, codes};
ghost use Rattle.process_lines.specs.Texts.{digest_word, digests_text, ignored_text, part_text, see_refusal_text, seen_text, seen_what_text};

use crate::checkpoints::print_built;
use crate::faults::{print_fork, print_halted};
use crate::pieces::{Piece, print};
use digest_core::Digest;
use protocol_spec::{Ignore, SeeRefusal, Seen, SeenWhat};
use wire_bcs::{OutOfMemory, Seq};

/// ` ID`
fn print_digest(out: &mut Seq<u8>, digest: &Digest) -> Result<(), OutOfMemory>
    ensures { OnOk result (out.new ≡ out.old ++ digest_word digest.now) }
{
    print(out, &[Piece::Text(b" "), Piece::Id(*digest)])
}

/// A space and a digest, for each.
#[tactic(auto, unfolding(crate::specs::Texts::digests_text))]
pub(crate) fn print_digests(out: &mut Seq<u8>, digests: &[Digest]) -> Result<(), OutOfMemory>
    ensures { OnOk result (out.new ≡ out.old ++ digests_text digests.now) }
{
    for digest in digests {
        print_digest(out, digest)?;
    }
    Ok(())
}

/// Prints a word and the digests after it, or nothing if there are none.
fn print_part(out: &mut Seq<u8>, word: &[u8], digests: &[Digest]) -> Result<(), OutOfMemory>
    ensures { OnOk result (out.new ≡ out.old ++ part_text word.now digests.now) }
{
    if digests.is_empty() {
        return Ok(());
    }
    out.extend(word)?;
    print_digests(out, digests)
}

/// What was admitted, and what was dropped, after a word.
fn print_taken(
    out: &mut Seq<u8>,
    word: &[u8],
    admitted: &[Digest],
    dropped: &[Digest],
) -> Result<(), OutOfMemory>
    ensures { OnOk result (out.new ≡ out.old ++ (word.now ++ part_text (codes " admitted") admitted.now ++ part_text (codes " dropped") dropped.now)) }
{
    out.extend(word)?;
    print_part(out, b" admitted".as_slice(), admitted)?;
    print_part(out, b" dropped".as_slice(), dropped)
}

/// Why an entry is ignored.
#[tactic(auto, unfolding(crate::specs::Texts::ignored_text))]
fn print_ignored(out: &mut Seq<u8>, why: &Ignore) -> Result<(), OutOfMemory>
    ensures { OnOk result (out.new ≡ out.old ++ (codes "seen ignored " ++ ignored_text why.now)) }
{
    out.extend(b"seen ignored ")?;
    match why {
        Ignore::Malformed => out.extend(b"malformed"),
        Ignore::Statement => out.extend(b"statement"),
        Ignore::Epoch => out.extend(b"epoch"),
        Ignore::Cert => out.extend(b"certificate"),
        Ignore::Seal => out.extend(b"seal"),
        Ignore::Repeat => out.extend(b"repeat"),
    }
}

/// What a member made of an entry.
#[tactic(auto, unfolding(crate::specs::Texts::seen_what_text))]
fn print_what(out: &mut Seq<u8>, what: &SeenWhat) -> Result<(), OutOfMemory>
    ensures { OnOk result (out.new ≡ out.old ++ seen_what_text what.now) }
{
    match what {
        SeenWhat::Taken { admitted, dropped } => print_taken(
            out,
            b"seen".as_slice(),
            admitted.as_slice(),
            dropped.as_slice(),
        ),
        SeenWhat::Pending { tx, origin: _ } => {
            print(out, &[Piece::Text(b"seen pending "), Piece::Id(*tx)])
        }
        SeenWhat::Deferred { tx, id: _ } => {
            print(out, &[Piece::Text(b"seen deferred "), Piece::Id(*tx)])
        }
        SeenWhat::Commit { admitted, dropped } => print_taken(
            out,
            b"seen commit".as_slice(),
            admitted.as_slice(),
            dropped.as_slice(),
        ),
        SeenWhat::Counted { member, weight: _ } => print(
            out,
            &[Piece::Text(b"seen end "), Piece::Number(*member as u64)],
        ),
        SeenWhat::Ended { .. } => out.extend(b"seen ended"),
        SeenWhat::Ignored(why) => print_ignored(out, why),
    }
}

/// `seen ..`, and ` checkpoint N` for each checkpoint that was built.
#[tactic(auto, unfolding(crate::specs::Texts::seen_text))]
pub fn print_seen(out: &mut Seq<u8>, seen: &Seen) -> Result<(), OutOfMemory>
    ensures { OnOk result (out.new ≡ out.old ++ seen_text seen.now) }
{
    print_what(out, &seen.what)?;
    print_built(out, seen.built.as_slice())
}

/// `refused ..`, or `fork KEY ID ID`. A fault has no line.
#[tactic(auto, unfolding(crate::specs::Texts::see_refusal_text))]
pub fn print_see_refusal(out: &mut Seq<u8>, refusal: &SeeRefusal) -> Result<(), OutOfMemory>
    ensures { OnOk result (out.new ≡ out.old ++ see_refusal_text refusal.now) }
{
    match refusal {
        SeeRefusal::Down | SeeRefusal::KeepFault | SeeRefusal::OutOfMemory => Ok(()),
        SeeRefusal::Halted { first, second } => print_halted(out, first, second),
        SeeRefusal::Full => out.extend(b"refused full"),
        SeeRefusal::Over => out.extend(b"refused over"),
        SeeRefusal::Gap { had: _, want } => {
            print(out, &[Piece::Text(b"refused gap "), Piece::Number(*want)])
        }
        SeeRefusal::Fork { key, first, second } => print_fork(out, key, first, second),
    }
}
