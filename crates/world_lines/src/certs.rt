//! The lines `cert` and `final`, for what collecting votes or acknowledgements gave.

ghost use Rattle.std.specs.Prelude.{◌≡◌, ◌∷◌, [], IfOk, map};
ghost use Rattle.report_text.specs.declared.lines.Line.TheVariants as line;
ghost use Rattle.cert_rules.specs.Collecting.{collected_as};
ghost use Rattle.world_spec.specs.Report.{cert_collected, final_collected};
ghost use Rattle.world_lines.specs.Answers.{is_whole};

use crate::runs::one_line;
use cert_rules::Collected;
use report_text::{CertText, FinalText, Line};
use std::alloc::Global;
use wire_bcs::{OutOfMemory, Seq};

/// The numbers of members, as a report has them.
fn number_vec(alloc: Global, members: &[u32]) -> Result<Vec<u64>, OutOfMemory>
    ensures { IfOk result (λ numbers. numbers.items ≡ map (λ m. m) members.now) }
{
    Ok(members.iter().map(|member| *member as u64).collect(alloc)?)
}

/// The numbers of members, as a report has them.
#[tactic(auto, using(crate::proofs::Pushed::same_items))]
fn numbers(alloc: Global, members: &[u32]) -> Result<Seq<u64>, OutOfMemory>
    ensures { IfOk result (λ numbers. numbers ≡ members.now) }
{
    let numbers = number_vec(alloc, members)?;
    Ok(Seq::from_vec(numbers))
}

/// The ending of a `cert` line for what collecting the votes of these members gave.
fn cert_text(alloc: Global, members: &[u32], collected: &Collected) -> Result<CertText, OutOfMemory>
    ensures { IfOk result (λ text. text ≡ cert_collected members.now (collected_as collected.now)) }
{
    match collected {
        Collected::Lacks(member) => Ok(CertText::NoVote {
            member: *member as u64,
        }),
        Collected::Short { weight, total } => Ok(CertText::Short {
            weight: *weight,
            total: *total,
        }),
        Collected::Differ { a, b } => Ok(CertText::Differ {
            a: *a as u64,
            b: *b as u64,
        }),
        Collected::Whole => {
            let members = numbers(alloc, members)?;
            Ok(CertText::Formed { members })
        }
    }
}

/// The ending of a `final` line for what collecting the acknowledgements of these members gave.
pub fn final_text(
    alloc: Global,
    members: &[u32],
    collected: &Collected,
) -> Result<FinalText, OutOfMemory>
    ensures { IfOk result (λ text. text ≡ final_collected members.now (collected_as collected.now)) }
{
    match collected {
        Collected::Lacks(member) => Ok(FinalText::NoAck {
            member: *member as u64,
        }),
        Collected::Short { weight, total } => Ok(FinalText::Short {
            weight: *weight,
            total: *total,
        }),
        Collected::Differ { a, b } => Ok(FinalText::Differ {
            a: *a as u64,
            b: *b as u64,
        }),
        Collected::Whole => {
            let members = numbers(alloc, members)?;
            Ok(FinalText::FinalBy { members })
        }
    }
}

/// Whether collecting found that the members have the stake, and all say the same. Takes no memory.
pub fn is_whole(collected: &Collected) -> bool
    ensures { result ≡ is_whole collected.now }
{
    match collected {
        Collected::Whole => true,
        Collected::Lacks(_) | Collected::Short { .. } | Collected::Differ { .. } => false,
    }
}

/// The line of a `cert` with this ending.
pub fn cert_lines(alloc: Global, tx: &[u8], text: CertText) -> Result<Seq<Line>, OutOfMemory>
    ensures { IfOk result (λ lines. lines ≡ line.Cert tx.now text ∷ []) }
{
    let tx = Seq::from_slice(alloc, tx)?;
    one_line(alloc, Line::Cert { tx, text })
}

/// The line of a `cert` for what collecting the votes of these members gave.
pub fn collected_lines(
    alloc: Global,
    tx: &[u8],
    members: &[u32],
    collected: &Collected,
) -> Result<Seq<Line>, OutOfMemory>
    ensures { IfOk result (λ lines. lines ≡ line.Cert tx.now (cert_collected members.now (collected_as collected.now)) ∷ []) }
{
    let text = cert_text(alloc, members, collected)?;
    cert_lines(alloc, tx, text)
}
