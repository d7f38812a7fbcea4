//! The verdict on a member of a world: how far a follower gets with the checkpoints that the member has built.

ghost use Rattle.std.specs.Prelude.{◌≡◌, ◌↔◌, ◌++◌, ◌∷◌, [], IfOk, IsTrue, OnOk, codes, decimal, slice_get};
ghost use Rattle.world_core.specs.Looks.{transaction_of};
ghost use Rattle.committee_core.specs.Follow.{IsVerdict, IsVerdictFrom, asked_at, asked_up, verdict_status, verdict_text, verdict_words};

use crate::status::{DONE, NEGATIVE};
use chain_types::{Object, Transaction};
use checkpoint_core::Checkpoint;
use digest_core::Digest;
use follower_core::{Archive, CatchUpRefusal, Follower, catch_up};
use itoa::Buffer;
use std::alloc::Global;
use validator_core::Validator;
use wire_bcs::{OutOfMemory, Seq};
use world_core::World;

/// The verdict on a member: how far a follower gets with its checkpoints, and whether it has the member's objects.
#[derive(Clone, Copy, Debug, PartialEq, Eq)]
pub(crate) enum Verdict {
    /// The set-up makes no such member honest.
    NoHonest,
    /// It is down.
    Down,
    /// A follower is stuck at this place of the checkpoint of this number.
    Stuck {
        number: u64,
        place: u64,
    },
    /// The effects at this place of the checkpoint of this number differ.
    Differs {
        number: u64,
        place: u64,
    },
    /// The follower's live objects are not those with which the member opened its epoch.
    Unequal,
    /// The follower's live objects are those with which the member opened its epoch: the number of checkpoints that
    /// were taken, the member's epoch, and the number of these objects.
    Equal {
        checkpoints: u64,
        epoch: u64,
        objects: u64,
    },
}

/// What a member of a world has built, and the transactions that lines made.
#[derive(Drop)]
struct Built<'a> {
    world: &'a World,
    validator: &'a Validator,
}

impl Archive for Built<'_> {
    ghost use Rattle.protocol_spec.specs.Member.Member.{built};
    ghost use Rattle.world_core.specs.Looks.{transaction_of};

    ghost kept = { λ b. built b.validator.now.state };

    ghost known = { λ b tx. transaction_of b.world.now.known tx };

    fn checkpoints(&self) -> u64 {
        self.validator.checkpoints()
    }

    fn checkpoint(&self, place: u64) -> Option<&Checkpoint> {
        self.validator.checkpoint(place)
    }

    fn transaction(&self, tx: &Digest) -> Option<&Transaction> {
        self.world.transaction(tx)
    }
}

fn is_same_object(one: &Object, other: &Object) -> bool
    ensures { IsTrue result ↔ (one.now ≡ other.now) }
{
    *one == *other
}

/// Whether two lists of objects are equal.
fn are_same_objects(one: &[Object], other: &[Object]) -> bool
    ensures { IsTrue result ↔ (one.now ≡ other.now) }
{
    let mut rest = one;
    let mut others = other;
    while let [object, after @ ..] = rest {
        let [beside, behind @ ..] = others else {
            return false;
        };
        if !is_same_object(object, beside) {
            return false;
        }
        rest = after;
        others = behind;
    }
    others.is_empty()
}

/// The verdict on a member all of whose checkpoints the follower took: `Equal` or `Unequal`.
fn verdict_at(validator: &Validator, follower: &Follower) -> Result<Verdict, OutOfMemory>
    ensures { IfOk result (IsVerdictFrom validator.now.state follower.now) }
{
    let live = follower.live_list()?;
    let opening = validator.opening_list()?;
    if !are_same_objects(live.as_slice(), opening.as_slice()) {
        return Ok(Verdict::Unequal);
    }
    Ok(Verdict::Equal {
        checkpoints: follower.applied(),
        epoch: validator.epoch(),
        objects: live.len(),
    })
}

/// The verdict on a member that is honest and up.
fn verdict_on(alloc: Global, world: &World, validator: &Validator) -> Result<Verdict, OutOfMemory>
    ensures { IfOk result (IsVerdict (transaction_of world.now.known) world.now.opening (asked_up validator.now.state)) }
{
    let archive = Built { world, validator };
    match catch_up(alloc, world.opening(), &archive, validator.epoch()) {
        Ok(follower) => {
            let said = verdict_at(validator, &follower);
            drop(follower);
            said
        }
        Err(CatchUpRefusal::Stuck { number, place }) => Ok(Verdict::Stuck { number, place }),
        Err(CatchUpRefusal::Differs { number, place }) => Ok(Verdict::Differs { number, place }),
        Err(CatchUpRefusal::OutOfMemory) => Err(OutOfMemory),
    }
}

/// The verdict on a member of a world.
fn verdict_of(alloc: Global, world: &World, member: u32) -> Result<Verdict, OutOfMemory>
    ensures { IfOk result (IsVerdict (transaction_of world.now.known) world.now.opening (asked_at (slice_get world.now.posts member))) }
{
    if !world.is_honest(member) {
        return Ok(Verdict::NoHonest);
    }
    match world.member(member) {
        Some(validator) => verdict_on(alloc, world, validator),
        None => Ok(Verdict::Down),
    }
}

/// The verdict on a member of a world; the world is dropped.
pub(crate) fn verdict_behind(
    alloc: Global,
    world: World,
    member: u32,
) -> Result<Verdict, OutOfMemory>
    ensures { IfOk result (IsVerdict (transaction_of world.known) world.opening (asked_at (slice_get world.posts member))) }
{
    let said = verdict_of(alloc, &world, member);
    drop(world);
    said
}

/// The status with which a verdict ends.
pub(crate) fn verdict_status(verdict: Verdict) -> u8
    ensures { result ≡ verdict_status verdict }
{
    match verdict {
        Verdict::Equal { .. } => DONE,
        Verdict::NoHonest
        | Verdict::Down
        | Verdict::Stuck { .. }
        | Verdict::Differs { .. }
        | Verdict::Unequal => NEGATIVE,
    }
}

/// Prints a number after a text.
fn print_number(text: &mut Seq<u8>, front: &[u8], number: u64) -> Result<(), OutOfMemory>
    ensures { OnOk result (text.new ≡ text.old ++ front.now ++ decimal number) }
{
    let mut buffer = Buffer::new();
    text.extend(front)?;
    text.extend(buffer.format(number).as_bytes())
}

/// Prints two numbers, each after its text.
fn print_two(
    text: &mut Seq<u8>,
    front: &[u8],
    first: u64,
    between: &[u8],
    second: u64,
) -> Result<(), OutOfMemory>
    ensures { OnOk result (text.new ≡ text.old ++ front.now ++ decimal first ++ between.now ++ decimal second) }
{
    print_number(text, front, first)?;
    print_number(text, between, second)
}

/// Prints the words of a verdict.
fn print_verdict(text: &mut Seq<u8>, verdict: Verdict) -> Result<(), OutOfMemory>
    ensures { OnOk result (text.new ≡ text.old ++ verdict_words verdict) }
{
    match verdict {
        Verdict::NoHonest => text.extend(b"no honest member".as_slice()),
        Verdict::Down => text.extend(b"down".as_slice()),
        Verdict::Stuck { number, place } => {
            print_two(text, b"stuck ".as_slice(), number, b" ".as_slice(), place)
        }
        Verdict::Differs { number, place } => {
            print_two(text, b"differs ".as_slice(), number, b" ".as_slice(), place)
        }
        Verdict::Unequal => text.extend(b"unequal".as_slice()),
        Verdict::Equal {
            checkpoints,
            epoch,
            objects,
        } => {
            print_number(text, b"equal checkpoints ".as_slice(), checkpoints)?;
            print_two(
                text,
                b" epoch ".as_slice(),
                epoch,
                b" objects ".as_slice(),
                objects,
            )
        }
    }
}

/// The line of a verdict on the member of this number.
pub(crate) fn verdict_line(
    alloc: Global,
    member: u64,
    verdict: Verdict,
) -> Result<Seq<u8>, OutOfMemory>
    ensures { IfOk result (λ text. text ≡ verdict_text member verdict) }
{
    let mut text = Seq::new(alloc);
    print_number(&mut text, b"follow ".as_slice(), member)?;
    text.extend(b": ".as_slice())?;
    print_verdict(&mut text, verdict)?;
    text.push(b'\n')?;
    Ok(text)
}
