//! The answers to `hold`.

ghost use Rattle.std.specs.Prelude.{◌≡◌, ◌++◌, OnOk};
ghost use Rattle.process_lines.specs.Texts.{cert_refusal_text, held_text, hold_refusal_text};

use crate::faults::{print_fork, print_halted, print_malformed, print_wrong_epoch};
use crate::pieces::{Piece, print};
use chain_types::CertRefusal;
use digest_core::Digest;
use protocol_spec::HoldRefusal;
use wire_bcs::{OutOfMemory, Seq};

/// `held ID`, or `again ID` if a certificate of the transaction was held before.
#[tactic(auto, unfolding(crate::specs::Texts::held_text))]
pub fn print_held(out: &mut Seq<u8>, new: bool, tx: Option<Digest>) -> Result<(), OutOfMemory>
    ensures { OnOk result (out.new ≡ out.old ++ held_text new tx) }
{
    if new {
        out.extend(b"held")?;
    } else {
        out.extend(b"again")?;
    }
    match tx {
        Some(tx) => print(out, &[Piece::Text(b" "), Piece::Id(tx)]),
        None => Ok(()),
    }
}

/// Why the certificate is not valid.
#[tactic(auto, unfolding(crate::specs::Texts::cert_refusal_text))]
fn print_cert_refusal(out: &mut Seq<u8>, refusal: &CertRefusal) -> Result<(), OutOfMemory>
    ensures { OnOk result (out.new ≡ out.old ++ cert_refusal_text refusal.now) }
{
    match refusal {
        CertRefusal::OutOfMemory => Ok(()),
        CertRefusal::Shape(number) => print(
            out,
            &[
                Piece::Text(b"refused shape "),
                Piece::Number(*number as u64),
            ],
        ),
        CertRefusal::Order => out.extend(b"refused order"),
        CertRefusal::ShortStake { weight, total } => print(
            out,
            &[
                Piece::Text(b"refused short stake "),
                Piece::Number(*weight),
                Piece::Text(b" of "),
                Piece::Number(*total),
            ],
        ),
        CertRefusal::BadSeal { member } => print(
            out,
            &[
                Piece::Text(b"refused bad seal "),
                Piece::Number(*member as u64),
            ],
        ),
    }
}

/// `refused ..`, or `fork KEY ID ID`. A fault has no line.
#[tactic(auto, unfolding(crate::specs::Texts::hold_refusal_text))]
pub fn print_hold_refusal(out: &mut Seq<u8>, refusal: &HoldRefusal) -> Result<(), OutOfMemory>
    ensures { OnOk result (out.new ≡ out.old ++ hold_refusal_text refusal.now) }
{
    match refusal {
        HoldRefusal::Down | HoldRefusal::KeepFault | HoldRefusal::OutOfMemory => Ok(()),
        HoldRefusal::Halted { first, second } => print_halted(out, first, second),
        HoldRefusal::Full => out.extend(b"refused full"),
        HoldRefusal::Malformed(fault) => print_malformed(out, fault),
        HoldRefusal::WrongEpoch { had, want } => print_wrong_epoch(out, *had, *want),
        HoldRefusal::Closed => out.extend(b"refused closed"),
        HoldRefusal::Cert(refusal) => print_cert_refusal(out, refusal),
        HoldRefusal::Fork { key, first, second } => print_fork(out, key, first, second),
    }
}
