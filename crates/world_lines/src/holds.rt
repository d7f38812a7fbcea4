//! The `send` lines: what a member answered to a certificate.

ghost use Rattle.std.specs.Prelude.{◌≡◌, Err, IfOk};
ghost use Rattle.world_spec.specs.Report.{bad_cert_text, hold_answered};
ghost use Rattle.world_spec.specs.Known.{setting_with, world_with};

use crate::Directory;
use crate::words::{tx_text, version_text};
use chain_types::CertRefusal;
use protocol_spec::HoldRefusal;
use report_text::SendText;
use wire_bcs::OutOfMemory;

/// The ending of the line for a certificate that is not valid. Takes no memory.
fn bad_cert_text(refusal: &CertRefusal) -> SendText
    ensures { result ≡ bad_cert_text refusal.now }
{
    match refusal {
        CertRefusal::Shape(number) => SendText::Shape {
            number: *number as u64,
        },
        CertRefusal::Order => SendText::Order,
        CertRefusal::ShortStake { weight, total } => SendText::ShortStake {
            weight: *weight,
            total: *total,
        },
        CertRefusal::BadSeal { member } => SendText::BadSeal {
            member: *member as u64,
        },
        CertRefusal::OutOfMemory => SendText::Down,
    }
}

/// The ending of the line for a refusal to hold a certificate.
fn refusal_text(directory: &Directory, refusal: &HoldRefusal) -> Result<SendText, OutOfMemory>
    ensures { IfOk result (λ text. text ≡ hold_answered (setting_with directory.now) (world_with directory.now) (Err refusal.now)) }
{
    Ok(match refusal {
        HoldRefusal::Halted { first, second } => SendText::Halted {
            first: tx_text(directory, first)?,
            second: tx_text(directory, second)?,
        },
        HoldRefusal::Malformed(fault) => SendText::Malformed {
            at: fault.at,
            why: fault.why as u64,
        },
        HoldRefusal::WrongEpoch { had, want } => SendText::WrongEpoch {
            had: *had,
            want: *want,
        },
        HoldRefusal::Closed => SendText::Closed,
        HoldRefusal::Cert(refusal) => bad_cert_text(refusal),
        HoldRefusal::Fork { key, first, second } => SendText::Fork {
            key: version_text(directory, key)?,
            first: tx_text(directory, first)?,
            second: tx_text(directory, second)?,
        },
        HoldRefusal::Full => SendText::Full,
        HoldRefusal::Down | HoldRefusal::KeepFault | HoldRefusal::OutOfMemory => SendText::Down,
    })
}

/// The ending of the line for a member's answer to a certificate: held, or held before, or why not.
pub fn hold_text(
    directory: &Directory,
    answer: &Result<bool, HoldRefusal>,
) -> Result<SendText, OutOfMemory>
    ensures { IfOk result (λ text. text ≡ hold_answered (setting_with directory.now) (world_with directory.now) answer.now) }
{
    match answer {
        Ok(true) => Ok(SendText::Held),
        Ok(false) => Ok(SendText::Again),
        Err(refusal) => refusal_text(directory, refusal),
    }
}
