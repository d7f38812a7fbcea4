//! The origins that a false vote names, and its line.

ghost use Rattle.std.specs.Prelude.{◌≡◌, ◌∷◌, [], IfOk, OnOk, fold, map};
ghost use Rattle.report_text.specs.declared.lines.Line.TheVariants as line;
ghost use Rattle.world_spec.specs.Report.{origin_names};
ghost use Rattle.world_spec.specs.Step.{no_origins, origin_word};
ghost use Rattle.world_spec.specs.Known.{world_with};
ghost use Rattle.world_lines.specs.Pushed.{each_pushed};
ghost use Rattle.world_lines.specs.KnownRows.{made_as};
ghost use Rattle.world_lines.specs.FalseVotes.{origins_by, with_none};

use crate::runs::one_line;
use crate::said::StatementLog;
use crate::words::origin_names;
use crate::{Directory, MadeTx};
use chain_types::{Input, Transaction};
use digest_core::Digest;
use report_text::Line;
use std::alloc::Global;
use wire_bcs::{OutOfMemory, Seq};

/// Adds `None` as the origin of an input that is an object; adds nothing for any other input.
fn add_none(origins: &mut Seq<Option<Digest>>, input: &Input) -> Result<(), OutOfMemory>
    ensures { OnOk result (origins.new ≡ with_none origins.old input.now) }
{
    match input {
        Input::Pure(_) => Ok(()),
        Input::Owned(_) | Input::Immutable(_) | Input::Shared { .. } => {
            origins.push(None)?;
            Ok(())
        }
    }
}

/// Adds `None` as the origin of each input that is an object.
fn add_nones(origins: &mut Seq<Option<Digest>>, inputs: &[Input]) -> Result<(), OutOfMemory>
    ensures { OnOk result (origins.new ≡ fold with_none origins.old inputs.now) }
{
    for input in inputs {
        add_none(origins, input)?;
    }
    Ok(())
}

/// Origins that are `None` for each object of a transaction: its gas coin, and its inputs that are objects.
#[tactic(auto, using(crate::proofs::Origins::all_none))]
fn no_origins(alloc: Global, tx: &Transaction) -> Result<Seq<Option<Digest>>, OutOfMemory>
    ensures { IfOk result (λ origins. origins ≡ no_origins tx.now) }
{
    let mut origins = Seq::new(alloc);
    origins.push(None)?;
    add_nones(&mut origins, tx.inputs.as_slice())?;
    Ok(origins)
}

/// The origin that a word names. Takes no memory.
fn origin_word(directory: &Directory, word: &Option<Seq<u8>>) -> Option<Digest>
    ensures { result ≡ origin_word (world_with directory.now) word.now }
{
    match word {
        Some(name) => Some(directory.digest_named(name.as_slice())),
        None => None,
    }
}

/// Adds the origins that the words name.
fn add_words(
    directory: &Directory,
    origins: &mut Seq<Option<Digest>>,
    words: &[Option<Seq<u8>>],
) -> Result<(), OutOfMemory>
    ensures { OnOk result (origins.new ≡ each_pushed (origin_word (world_with directory.now)) origins.old words.now) }
{
    for word in words {
        let origin = origin_word(directory, word);
        origins.push(origin)?;
    }
    Ok(())
}

/// The origins that the words name.
#[tactic(auto, using(crate::proofs::Pushed::from_none))]
fn named_origins(
    directory: &Directory,
    words: &[Option<Seq<u8>>],
) -> Result<Seq<Option<Digest>>, OutOfMemory>
    ensures { IfOk result (λ origins. origins ≡ map (origin_word (world_with directory.now)) words.now) }
{
    let mut origins = Seq::new(directory.allocator());
    add_words(directory, &mut origins, words)?;
    Ok(origins)
}

/// The origins of a false vote: those that are named; if none are, those of the last vote of the first honest
/// member that has one, else none for each object.
#[tactic(auto, using(crate::proofs::Origins::words_named, crate::proofs::Origins::voted_first, crate::proofs::Origins::none_voted))]
pub fn false_origins(
    directory: &Directory,
    said: &StatementLog,
    honest: &[bool],
    made: &MadeTx,
    words: &[Option<Seq<u8>>],
) -> Result<Seq<Option<Digest>>, OutOfMemory>
    ensures { IfOk result (λ origins. origins ≡ origins_by directory.now said.now honest.now (made_as made.now) words.now) }
{
    if !words.is_empty() {
        return named_origins(directory, words);
    }
    let epoch = made.signed.value().tx.epoch;
    match said.first_vote(honest, epoch, &made.digest) {
        Some(origins) => Seq::from_slice(directory.allocator(), origins.as_slice()),
        None => no_origins(directory.allocator(), &made.signed.value().tx),
    }
}

/// The line of a `fvote` with these names of origins.
pub fn false_vote_line(
    alloc: Global,
    member: u32,
    tx: &[u8],
    origins: Seq<Option<Seq<u8>>>,
) -> Result<Seq<Line>, OutOfMemory>
    ensures { IfOk result (λ lines. lines ≡ line.Fvote member tx.now origins ∷ []) }
{
    let tx = Seq::from_slice(alloc, tx)?;
    let member = member as u64;
    one_line(
        alloc,
        Line::Fvote {
            member,
            tx,
            origins,
        },
    )
}

/// The line of a `fvote` with these origins.
pub fn false_vote_lines(
    directory: &Directory,
    member: u32,
    tx: &[u8],
    origins: &[Option<Digest>],
) -> Result<Seq<Line>, OutOfMemory>
    ensures { IfOk result (λ lines. lines ≡ line.Fvote member tx.now (origin_names (world_with directory.now) origins.now) ∷ []) }
{
    let names = origin_names(directory, origins)?;
    false_vote_line(directory.allocator(), member, tx, names)
}
