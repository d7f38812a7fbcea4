//! Answers to `object`, `version`, `effects` and `state`: what a member has.

ghost use Rattle.std.specs.Prelude.{◌≡◌, ◌+◌, ◌≤◌, IfOk, is_some, length, option_copied, option_map};
ghost use Rattle.protocol_spec.specs.Member.Calls.{effects_of};
ghost use Rattle.protocol_spec.specs.Member.Member.{live_objects};
ghost use Rattle.protocol_spec.specs.Member.Versions.{execution_of, live, object_in, version_at, versions};
ghost use Rattle.process_lines.specs.Texts.{effects_text, none_text, state_text};
ghost use Rattle.validator_process.specs.Says.{counts_of, effects_line, executed_among, object_line};

use chain_types::{Object, ObjectId, ObjectKey};
use digest_core::Digest;
use effects_core::Effects;
use process_lines::{Counts, print_effects, print_none, print_object, print_state};
use std::alloc::Global;
use validator_core::Validator;
use wire_bcs::{OutOfMemory, Seq};

/// The line for an object, or `none` if it is not there.
fn object_text(alloc: Global, object: Option<&Object>) -> Result<Seq<u8>, OutOfMemory>
    ensures { IfOk result (λ text. text ≡ object_line (option_copied object.entry)) }
{
    let mut out = Seq::new(alloc);
    match object {
        Some(object) => print_object(&mut out, object)?,
        None => print_none(&mut out)?,
    }
    Ok(out)
}

/// Answers `object ID`: the live object of this id.
pub(crate) fn object(
    alloc: Global,
    validator: &Validator,
    id: Digest,
) -> Result<Seq<u8>, OutOfMemory>
    ensures { IfOk result (λ text. text ≡ object_line (live validator.now.state.opening validator.now.state.executed (record { 0 = id }))) }
{
    object_text(alloc, validator.live(&ObjectId(id)))
}

/// Answers `version ID V`: the object at this version, which the member knows in its present epoch.
pub(crate) fn version(
    alloc: Global,
    validator: &Validator,
    id: Digest,
    version: u64,
) -> Result<Seq<u8>, OutOfMemory>
    ensures { IfOk result (λ text. text ≡ object_line (option_map object_in (version_at (versions validator.now.state.opening validator.now.state.executed) (record { id = record { 0 = id }; version = version })))) }
{
    let key = ObjectKey {
        id: ObjectId(id),
        version,
    };
    object_text(alloc, validator.object(&key))
}

/// The line for effects. A list of more than 2147483647 objects counts as running out of memory.
fn effects_text(alloc: Global, effects: &Effects) -> Result<Seq<u8>, OutOfMemory>
    ensures { IfOk result (λ text. text ≡ effects_text effects.now) }
{
    if !effects.is_short() {
        return Err(OutOfMemory);
    }
    let mut out = Seq::new(alloc);
    print_effects(&mut out, effects)?;
    Ok(out)
}

/// The line `none`.
fn none_text(alloc: Global) -> Result<Seq<u8>, OutOfMemory>
    ensures { IfOk result (λ text. text ≡ none_text) }
{
    let mut out = Seq::new(alloc);
    print_none(&mut out)?;
    Ok(out)
}

/// Answers `effects ID`: the effects of a transaction that the member has executed in its present epoch.
pub(crate) fn effects(
    alloc: Global,
    validator: &Validator,
    tx: &Digest,
) -> Result<Seq<u8>, OutOfMemory>
    ensures { IfOk result (λ text. text ≡ effects_line (option_map effects_of (execution_of validator.now.state.executed tx.now))) }
{
    match validator.effects(tx) {
        Some(effects) => effects_text(alloc, effects),
        None => none_text(alloc),
    }
}

/// How many of the held certificates are of executed transactions. Takes no memory.
fn executed_count(validator: &Validator) -> u64
    ensures { result ≡ executed_among validator.now.state 0 validator.now.state.held }
{
    let mut count = 0;
    let mut rest = validator.held();
    while let [held, after @ ..] = rest {
        if validator.executed_digest(&held.digest).is_some() {
            count += 1;
        }
        rest = after;
    }
    count
}

/// How many objects are live.
fn object_count(validator: &Validator) -> Result<u64, OutOfMemory>
    ensures { IfOk result (λ n. n ≡ length (live_objects validator.now.state)) }
{
    let objects = validator.live_list()?;
    Ok(objects.len())
}

/// The state of a member in numbers.
fn counts_of(validator: &Validator) -> Result<Counts, OutOfMemory>
    ensures { IfOk result (λ counts. counts ≡ counts_of validator.now.state) }
{
    let objects = object_count(validator)?;
    Ok(Counts {
        epoch: validator.epoch(),
        seen: validator.seen(),
        held: validator.held().len() as u64,
        executed: executed_count(validator),
        checkpoints: validator.checkpoints(),
        objects,
        halted: validator.fork().is_some(),
    })
}

/// Answers `state`: the state of the member in numbers.
pub(crate) fn state(alloc: Global, validator: &Validator) -> Result<Seq<u8>, OutOfMemory>
    ensures { IfOk result (λ text. text ≡ state_text (counts_of validator.now.state)) }
{
    let counts = counts_of(validator)?;
    let mut out = Seq::new(alloc);
    print_state(&mut out, &counts)?;
    Ok(out)
}
