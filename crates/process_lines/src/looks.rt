//! The answers to `object`, `version`, `effects` and `state`.

ghost use Rattle.std.specs.Prelude.{◌≡◌, ◌++◌, ◌∷◌, [], OnOk, codes, decimal};
ghost use Rattle.std.specs.List.{concat};
ghost use Rattle.effects_core.specs.Effects as effects_as;
ghost use Rattle.process_lines.specs.Texts.{effects_text, object_text, state_text};

use crate::pieces::{Piece, print};
use chain_types::Object;
use effects_core::Effects;
use wire_bcs::{OutOfMemory, Seq, encode};

/// The state of a member in numbers.
#[derive(Clone, Copy, Debug, PartialEq, Eq)]
pub struct Counts {
    pub epoch: u64,
    /// Entries of the epoch's sequence that it has seen.
    pub seen: u64,
    /// Certificates that it holds.
    pub held: u64,
    /// Of these, those whose transactions it has executed.
    pub executed: u64,
    /// Checkpoints that it has built, over all epochs.
    pub checkpoints: u64,
    /// Live objects.
    pub objects: u64,
    /// Whether it met a fork.
    pub halted: bool,
}

/// `object BYTES`
#[tactic(auto, unfolding(crate::specs::Texts::object_text), using(crate::proofs::Shorts::object_short))]
pub fn print_object(out: &mut Seq<u8>, object: &Object) -> Result<(), OutOfMemory>
    ensures { OnOk result (out.new ≡ out.old ++ object_text object.now) }
{
    let bytes = encode(out.allocator(), object)?;
    print(
        out,
        &[Piece::Text(b"object "), Piece::Bytes(bytes.as_slice())],
    )
}

/// `effects BYTES`
#[tactic(auto, unfolding(crate::specs::Texts::effects_text))]
pub fn print_effects(out: &mut Seq<u8>, effects: &Effects) -> Result<(), OutOfMemory>
    requires { effects_as.effects.short effects.now }
    ensures { OnOk result (out.new ≡ out.old ++ effects_text effects.now) }
{
    let bytes = encode(out.allocator(), effects)?;
    print(
        out,
        &[Piece::Text(b"effects "), Piece::Bytes(bytes.as_slice())],
    )
}

/// The first half of the state.
fn print_first(out: &mut Seq<u8>, counts: &Counts) -> Result<(), OutOfMemory>
    ensures { OnOk result (out.new ≡ out.old ++ concat (codes "state epoch " ∷ decimal counts.now.epoch ∷ codes " seen " ∷ decimal counts.now.seen ∷ codes " held " ∷ decimal counts.now.held ∷ [])) }
{
    print(
        out,
        &[
            Piece::Text(b"state epoch "),
            Piece::Number(counts.epoch),
            Piece::Text(b" seen "),
            Piece::Number(counts.seen),
            Piece::Text(b" held "),
            Piece::Number(counts.held),
        ],
    )
}

/// The second half of the state.
fn print_second(out: &mut Seq<u8>, counts: &Counts) -> Result<(), OutOfMemory>
    ensures { OnOk result (out.new ≡ out.old ++ concat (codes " executed " ∷ decimal counts.now.executed ∷ codes " checkpoints " ∷ decimal counts.now.checkpoints ∷ codes " objects " ∷ decimal counts.now.objects ∷ [])) }
{
    print(
        out,
        &[
            Piece::Text(b" executed "),
            Piece::Number(counts.executed),
            Piece::Text(b" checkpoints "),
            Piece::Number(counts.checkpoints),
            Piece::Text(b" objects "),
            Piece::Number(counts.objects),
        ],
    )
}

/// `state epoch E seen N held H executed X checkpoints K objects O`, then `halted` or `ok`.
#[tactic(auto, unfolding(crate::specs::Texts::state_text))]
pub fn print_state(out: &mut Seq<u8>, counts: &Counts) -> Result<(), OutOfMemory>
    ensures { OnOk result (out.new ≡ out.old ++ state_text counts.now) }
{
    print_first(out, counts)?;
    print_second(out, counts)?;
    if counts.halted {
        out.extend(b" halted")
    } else {
        out.extend(b" ok")
    }
}
