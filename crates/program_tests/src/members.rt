//! Members that are a committee by themselves, over the objects of set-up lines.

ghost use Rattle.std.specs.Prelude.{◌≡◌, IfOk, IfSome};
ghost use Rattle.world_spec.specs.Starts.{AreApart};

use chain_types::Object;
use protocol_spec::StartRefusal;
use quorum_core::{Committee, KeyedSeal};
use schedule_text::{Setup, read_schedule};
use std::alloc::Global;
use validator_core::Validator;
use wire_bcs::{OutOfMemory, Seq};
use world_lines::Directory;

/// The seals of the tests, under the program's secret.
pub(crate) fn sealer() -> KeyedSeal {
    KeyedSeal::new([90; 32])
}

/// Member 0, from at most 64 records.
fn started_from(
    alloc: Global,
    opening: &Seq<Object>,
    kept: &Seq<Seq<u8>>,
) -> Result<Validator, StartRefusal>
    requires { AreApart opening.now }
    ensures { IfOk result (λ member. member.member ≡ 0) }
{
    if kept.len() > 64 {
        return Err(StartRefusal::OutOfMemory);
    }
    let Ok(committee) = Committee::new([1].as_slice()) else {
        return Err(StartRefusal::OutOfMemory);
    };
    Validator::start(alloc, 0, &committee, opening, None, kept, &sealer())
}

/// Member 0 over the objects of set-up lines, from at most 64 records.
fn started_over(
    alloc: Global,
    setup: &Seq<Setup>,
    kept: &Seq<Seq<u8>>,
) -> Result<Validator, StartRefusal>
    ensures { IfOk result (λ member. member.member ≡ 0) }
{
    let Ok((directory, opening)) = Directory::with_opening(alloc, setup.as_slice()) else {
        return Err(StartRefusal::OutOfMemory);
    };
    drop(directory);
    started_from(alloc, &opening, kept)
}

/// Member 0 over the set-up that a text is, from at most 64 records. A text that is not a set-up starts no member, as
/// if memory were refused.
pub(crate) fn started(
    alloc: Global,
    text: &str,
    kept: &Seq<Seq<u8>>,
) -> Result<Validator, StartRefusal>
    ensures { IfOk result (λ member. member.member ≡ 0) }
{
    let Ok(schedule) = read_schedule(alloc, text.as_bytes()) else {
        return Err(StartRefusal::OutOfMemory);
    };
    let started = started_over(alloc, &schedule.setup, kept);
    drop(schedule);
    started
}

/// The member, if it starts.
pub(crate) fn member_from(alloc: Global, text: &str, kept: &Seq<Seq<u8>>) -> Option<Validator>
    ensures { IfSome result (λ member. member.member ≡ 0) }
{
    match started(alloc, text, kept) {
        Ok(member) => Some(member),
        Err(_) => None,
    }
}

/// The pieces, one after the other.
pub(crate) fn joined(alloc: Global, pieces: &[&[u8]]) -> Result<Seq<u8>, OutOfMemory> {
    let mut bytes = Vec::new(alloc);
    for piece in pieces {
        bytes.extend_from_slice(piece)?;
    }
    Ok(Seq::from_vec(bytes))
}

/// A record: bytes, and then what hexadecimal digits say.
fn record(alloc: Global, front: &[u8], digits: &str) -> Option<Seq<u8>> {
    let bytes = hex::decode(alloc, digits).ok()?;
    let pieces = [front, bytes.as_slice()];
    joined(alloc, pieces.as_slice()).ok()
}

/// Such records.
pub(crate) fn records(alloc: Global, rows: &[(&[u8], &str)]) -> Option<Seq<Seq<u8>>> {
    let mut records = Seq::new(alloc);
    for (front, digits) in rows {
        records.push(record(alloc, front, digits)?).ok()?;
    }
    Some(records)
}
