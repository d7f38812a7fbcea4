//! The finding of `check` on the bytes of a chain, and its one line.

ghost use Rattle.std.specs.Prelude.{◌≡◌, ◌≤◌, ◌∷◌, [], ◌++◌, IfOk, OnOk, IsErrOf, codes, decimal};
ghost use Rattle.std.specs.List.{concat, flat_map};
ghost use Rattle.std.specs.Io.KnownBytes.{Appends};
ghost use Rattle.outside.specs.Causes.{Rose};
ghost use Rattle.outside.specs.declared.faults.OutFault.TheVariants as out_fault;
ghost use Rattle.light_check.specs.Said.{certified_body, finding_body, finding_on, finding_status, finding_text, piece_text, verdict_body, verdict_status};
ghost use Rattle.outside.specs.Streams.{AppendsFront};

use crate::verdict::{Verdict, judge};
use digest_core::Digest;
use itoa::Buffer;
use outside::{OutFault, Sink, write_all};
use quorum_core::{Checker, Committee};
use std::alloc::Global;
use wire_bcs::{OutOfMemory, Seq};

/// The most bytes of an encoded chain.
pub(crate) const LONGEST_CHAIN: u32 = 16_777_216;

/// What `check` finds in the bytes of its source.
#[derive(Clone, Copy)]
pub(crate) enum Finding {
    /// They are more than a chain may have.
    TooLarge,
    /// The verdict of a client that trusts the committee.
    Judged(Verdict),
}

/// A part of the line: bytes as they stand, or a number in decimal digits.
#[derive(Clone, Copy)]
pub(crate) enum Piece<'a> {
    Text(&'a [u8]),
    Number(u64),
}

/// Judges bytes: too many of them, or the verdict of a client that trusts the committee.
#[tactic(auto, unfolding(crate::specs::Said::finding_on))]
pub(crate) fn find_in<C: Checker>(
    alloc: Global,
    bytes: &[u8],
    committee: &Committee,
    checker: &C,
    tx: &Digest,
) -> Result<Finding, OutOfMemory>
    ensures { IfOk result (λ f. f ≡ finding_on committee.now (C.accepts checker.now) tx.now bytes.now) }
{
    if bytes.len() > LONGEST_CHAIN as usize {
        return Ok(Finding::TooLarge);
    }
    match judge(alloc, bytes, committee, checker, tx) {
        Ok(verdict) => Ok(Finding::Judged(verdict)),
        Err(OutOfMemory) => Err(OutOfMemory),
    }
}

/// The status with which a verdict ends.
fn verdict_status(verdict: Verdict) -> u8
    ensures { result ≡ verdict_status verdict }
{
    match verdict {
        Verdict::Certified { .. } => 0,
        Verdict::Malformed { .. } | Verdict::Bad { .. } => 8,
    }
}

/// The status with which the command ends.
pub(crate) fn finding_status(finding: Finding) -> u8
    ensures { result ≡ finding_status finding }
{
    match finding {
        Finding::TooLarge => 8,
        Finding::Judged(verdict) => verdict_status(verdict),
    }
}

fn print_piece(text: &mut Seq<u8>, piece: Piece<'_>) -> Result<(), OutOfMemory>
    ensures { OnOk result (text.new ≡ text.old ++ piece_text piece.entry) }
{
    match piece {
        Piece::Text(bytes) => text.extend(bytes),
        Piece::Number(number) => {
            let mut buffer = Buffer::new();
            text.extend(buffer.format(number).as_bytes())
        }
    }
}

fn print(text: &mut Seq<u8>, pieces: &[Piece<'_>]) -> Result<(), OutOfMemory>
    ensures { OnOk result (text.new ≡ text.old ++ flat_map piece_text pieces.now) }
{
    for piece in pieces {
        print_piece(text, *piece)?;
    }
    Ok(())
}

/// Prints two numbers, each after its text.
fn print_two<'a>(
    text: &mut Seq<u8>,
    head: &'a [u8],
    first: u64,
    between: &'a [u8],
    second: u64,
) -> Result<(), OutOfMemory>
    ensures { OnOk result (text.new ≡ text.old ++ concat (head.now ∷ decimal first ∷ between.now ∷ decimal second ∷ [])) }
{
    print(
        text,
        &[
            Piece::Text(head),
            Piece::Number(first),
            Piece::Text(between),
            Piece::Number(second),
        ],
    )
}

/// Prints the line for a certified chain, without its end.
fn print_certified(text: &mut Seq<u8>, links: u64, included: Option<u64>) -> Result<(), OutOfMemory>
    ensures { OnOk result (text.new ≡ text.old ++ certified_body links included) }
{
    match included {
        Some(number) => print_two(text, b"certified ", links, b" included in ", number),
        None => print(
            text,
            &[
                Piece::Text(b"certified "),
                Piece::Number(links),
                Piece::Text(b" not included"),
            ],
        ),
    }
}

#[tactic(auto, unfolding(crate::specs::Said::verdict_body))]
fn print_verdict(text: &mut Seq<u8>, verdict: Verdict) -> Result<(), OutOfMemory>
    ensures { OnOk result (text.new ≡ text.old ++ verdict_body verdict) }
{
    match verdict {
        Verdict::Certified { links, included } => print_certified(text, links, included),
        Verdict::Malformed { at, why } => {
            print_two(text, b"refused malformed at ", at, b" why ", u64::from(why))
        }
        Verdict::Bad { place, cause } => {
            print_two(text, b"refused link ", place, b" cause ", u64::from(cause))
        }
    }
}

fn print_body(text: &mut Seq<u8>, finding: Finding) -> Result<(), OutOfMemory>
    ensures { OnOk result (text.new ≡ text.old ++ finding_body finding) }
{
    match finding {
        Finding::TooLarge => text.extend(b"refused too large"),
        Finding::Judged(verdict) => print_verdict(text, verdict),
    }
}

/// The line of a finding, ended by LF.
#[tactic(auto, unfolding(crate::specs::Said::finding_text))]
fn line_of(alloc: Global, finding: Finding) -> Result<Seq<u8>, OutOfMemory>
    ensures { IfOk result (λ text. text ≡ finding_text finding) }
{
    let mut text = Seq::new(alloc);
    print_body(&mut text, finding)?;
    text.push(b'\n')?;
    Ok(text)
}

/// Writes the line of a finding.
pub(crate) fn write_finding<K: Sink>(
    alloc: Global,
    finding: Finding,
    sink: &mut K,
) -> Result<(), OutFault>
    ensures ok { OnOk result (Appends (K.held sink.old) (K.held sink.new) (finding_text finding)) }
    ensures some { AppendsFront (K.held sink.old) (K.held sink.new) (finding_text finding) }
    ensures later { K.faults sink.old ≤ K.faults sink.new }
    ensures fault { IsErrOf result out_fault.Failed → Rose (K.faults sink.old) (K.faults sink.new) }
{
    let text = line_of(alloc, finding)?;
    write_all(sink, text.as_slice())
}
