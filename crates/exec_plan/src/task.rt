//! The tasks of a plan: what each wants, what comes of it, and what it hands on.

ghost use Rattle.std.specs.Prelude.{◌≡◌, ◌++◌, [], IfOk, OnOk, find, map};
ghost use Rattle.std.specs.List.{list_any};
ghost use Rattle.std.specs.Option.{option_to_list};
ghost use Rattle.chain_types.specs.Digests.{consumed_keys};
ghost use Rattle.protocol_spec.specs.Chain.Keys.{object_key};
ghost use Rattle.exec_plan.specs.Books.{IsSound};
ghost use Rattle.exec_plan.specs.Drafts.{bare_task, with_give};
ghost use Rattle.exec_plan.specs.Gathering.{gathered_after, is_lacking};
ghost use Rattle.exec_plan.specs.Tasks.{carry_as, carry_of, first_carry, is_at, is_not_run, object_of, other_carries, outcome_of, outcome_with};

use chain_types::{HashedObject, Object, ObjectKey, Producer, owned_keys};
use dag_core::Job;
use digest_core::Digest;
use protocol_spec::Held;
use ptb_run::{HashedExecuted, execute_hashed, fits_hashed};
use std::alloc::Global;
use std::marker::Model;
use wire_bcs::{OutOfMemory, Seq};

/// What an edge carries for a wanted version: the object; or that the transaction that was to make it was executed and
/// did not make it (`Lacks`); or that this transaction was not executed (`NotRun`).
#[derive(Clone, Copy)]
pub enum Carry {
    Object(HashedObject),
    Lacks,
    NotRun,
}

/// The outcome of a task: the first of `Waits`, `Absent` and `Unfit` that applies, and else `Done`.
#[derive(Drop)]
pub enum Outcome {
    /// It was executed.
    Done(HashedExecuted),
    /// This is the first wanted version that is missing.
    Absent { key: ObjectKey, origin: Producer },
    /// What it wants is there and does not fit it.
    Unfit,
    /// A transaction that makes what it wants was not executed.
    Waits,
}

/// Where a wanted version comes from: it is held, an earlier task makes it, or nobody does.
#[derive(Clone, Copy)]
pub enum Slot {
    Here(HashedObject),
    Edge,
    Lacks,
}

/// A version that a task wants, and who makes it.
#[derive(Clone, Copy)]
pub struct Want {
    pub key: ObjectKey,
    pub origin: Producer,
    pub slot: Slot,
}

/// The execution of one certified transaction, whose certificate is held. Contracts see its digest, the transaction, what it
/// wants, and the keys of what it hands on, one for each outgoing edge. No task holds a result.
#[derive(Drop)]
pub struct Task<'a> {
    held: &'a Held,
    wants: Seq<Want>,
    gives: Seq<ObjectKey>,
}

impl<'a> Model for Task<'a> {
    ghost use Rattle.exec_plan.specs.Tasks.{IsSoundTask, Planned};

    ghost Value = { Planned };

    ghost view = { λ t. record { digest = t.held.now.digest; tx = t.held.now.cert.tx; wants = t.wants; gives = t.gives } };

    ghost invariant = { λ t. IsSoundTask t.held.now.cert.tx t.held.now.digest };
}

/// The objects on which a task executes, or the first wanted version for which there is none.
#[derive(Drop)]
enum Gathered {
    All(Seq<HashedObject>),
    Lacking(Want),
}

/// Whether a transaction that makes a wanted version was not executed.
fn is_not_run(carry: &Carry) -> bool
    ensures { result ≡ is_not_run carry.now }
{
    matches!(carry, Carry::NotRun)
}

/// Whether a transaction that makes one of these wanted versions was not executed.
fn any_not_run(inputs: &[Carry]) -> bool
    ensures { result ≡ list_any is_not_run inputs.now }
{
    for input in inputs {
        if is_not_run(input) {
            return true;
        }
    }
    false
}

/// What a task gets for a wanted version, and what the edges carry that are left for the next ones.
fn carry_for<'a>(slot: &Slot, inputs: &'a [Carry]) -> (Carry, &'a [Carry])
    ensures first { result.0 ≡ first_carry slot.now inputs.now }
    ensures others { result.1.now ≡ other_carries slot.now inputs.now }
{
    match slot {
        Slot::Here(object) => (Carry::Object(*object), inputs),
        Slot::Lacks => (Carry::Lacks, inputs),
        Slot::Edge => match inputs {
            [first, others @ ..] => (*first, others),
            [] => (Carry::NotRun, inputs),
        },
    }
}

/// Whether there is no object for a wanted version although its maker was executed.
fn is_lacking(carry: &Carry) -> bool
    ensures { result ≡ is_lacking carry.now }
{
    matches!(carry, Carry::Lacks)
}

/// Adds the object, if there is one.
fn add_object(objects: &mut Seq<HashedObject>, carry: &Carry) -> Result<(), OutOfMemory>
    ensures { OnOk result (objects.new ≡ objects.old ++ option_to_list (object_of carry.now)) }
{
    match carry {
        Carry::Object(object) => objects.push(*object),
        Carry::Lacks => Ok(()),
        Carry::NotRun => Ok(()),
    }
}

/// The objects of a task's wants, if its edges carry these.
fn gather(alloc: Global, wants: &[Want], inputs: &[Carry]) -> Result<Gathered, OutOfMemory>
    ensures { IfOk result (λ gathered. gathered ≡ gathered_after [] wants.now inputs.now) }
{
    let mut objects = Seq::with_room(alloc, wants.len() as u64)?;
    let mut left = inputs;
    let mut rest = wants;
    while let [want, after @ ..] = rest {
        let (carry, others) = carry_for(&want.slot, left);
        if is_lacking(&carry) {
            return Ok(Gathered::Lacking(*want));
        }
        add_object(&mut objects, &carry)?;
        left = others;
        rest = after;
    }
    Ok(Gathered::All(objects))
}

/// What an edge carries of the version with this key, after this outcome of its maker.
fn carry_of(outcome: &Outcome, key: &ObjectKey) -> Carry
    ensures { result ≡ carry_of outcome.now key.now }
{
    match outcome {
        Outcome::Done(gave) => written_at(gave.objects().as_slice(), key),
        Outcome::Absent { .. } => Carry::NotRun,
        Outcome::Unfit => Carry::NotRun,
        Outcome::Waits => Carry::NotRun,
    }
}

impl<'a> Task<'a> {
    /// The task of a held certificate that wants this, and hands on nothing yet. Takes no memory.
    pub(crate) fn bare(alloc: Global, held: &'a Held, wants: Seq<Want>) -> Task<'a>
        requires { IsSound held.now }
        ensures { result ≡ bare_task held.now wants }
    {
        Task {
            held,
            wants,
            gives: Seq::new(alloc),
        }
    }

    /// Adds a version that the task hands on.
    pub(crate) fn give(&mut self, key: ObjectKey) -> Result<(), OutOfMemory>
        ensures { OnOk result (self.new ≡ with_give self.old key) }
    {
        self.gives.push(key)
    }

    /// The versions that the task wants.
    pub(crate) fn wants(&self) -> &[Want]
        ensures { result.now ≡ self.now.wants }
    {
        self.wants.as_slice()
    }

    /// The versions that its transaction consumes.
    pub(crate) fn consumed(&self, alloc: Global) -> Result<Seq<ObjectKey>, OutOfMemory>
        ensures { IfOk result (λ keys. keys ≡ consumed_keys self.now.tx) }
    {
        owned_keys(alloc, &self.held.cert.get().tx)
    }

    /// The outcome of the task on these objects.
    fn outcome_with(
        &self,
        alloc: Global,
        objects: &Seq<HashedObject>,
    ) -> Result<Outcome, OutOfMemory>
        ensures { IfOk result (λ outcome. outcome ≡ outcome_with self.now.tx objects.now) }
    {
        let inputs = HashedObject::plain(alloc, objects.as_slice())?;
        let cert = self.held.cert.get();
        if !fits_hashed(&cert.tx, objects.as_slice(), inputs.as_slice()) {
            return Ok(Outcome::Unfit);
        }
        let gave = execute_hashed(alloc, &cert.tx, &self.held.digest, &inputs)?;
        Ok(Outcome::Done(gave))
    }

    /// The outcome of the task if its incoming edges carry these.
    #[tactic(auto, using(crate::proofs::Gathering::gathered_is))]
    fn outcome(&self, alloc: Global, inputs: &[Carry]) -> Result<Outcome, OutOfMemory>
        ensures { IfOk result (λ outcome. outcome ≡ outcome_of self.now inputs.now) }
    {
        if any_not_run(inputs) {
            return Ok(Outcome::Waits);
        }
        match gather(alloc, self.wants.as_slice(), inputs)? {
            Gathered::All(objects) => self.outcome_with(alloc, &objects),
            Gathered::Lacking(want) => Ok(Outcome::Absent {
                key: want.key,
                origin: want.origin,
            }),
        }
    }
}

/// The version that an object is.
fn key_of(object: &Object) -> ObjectKey
    ensures { result ≡ object_key object.now }
{
    ObjectKey {
        id: object.id,
        version: object.version,
    }
}

/// The object with this key, if one was written.
fn written_at(objects: &[HashedObject], key: &ObjectKey) -> Carry
    ensures { result ≡ carry_as (find (is_at key.now) objects.now) }
{
    let mut rest = objects;
    while let [object, after @ ..] = rest {
        if key_of(object.object()) == *key {
            return Carry::Object(*object);
        }
        rest = after;
    }
    Carry::Lacks
}

/// What the outgoing edges carry, one for each key.
fn carries_of(
    alloc: Global,
    outcome: &Outcome,
    keys: &[ObjectKey],
) -> Result<Seq<Carry>, OutOfMemory>
    ensures { IfOk result (λ carries. carries ≡ map (carry_of outcome.now) keys.now) }
{
    let mut carries = Seq::with_room(alloc, keys.len() as u64)?;
    let mut rest = keys;
    while let [key, after @ ..] = rest {
        carries.push(carry_of(outcome, key))?;
        rest = after;
    }
    Ok(carries)
}

impl Job for Task<'_> {
    type Value = Carry;

    type Output = (Digest, Outcome);

    ghost use Rattle.std.proofs.lemmas.List.{length-map};
    ghost use Rattle.exec_plan.specs.Tasks.{carry_of, count_given, outcome_of, output_of, takes_of, values_of};

    ghost takes = { takes_of };

    ghost gives = { count_given };

    ghost output = { output_of };

    ghost values = { values_of };

    ghost sized = { λ task inputs _. length-map task.gives (carry_of (outcome_of task inputs)) };

    fn run(
        &self,
        alloc: Global,
        inputs: &Seq<Carry>,
    ) -> Result<((Digest, Outcome), Seq<Carry>), OutOfMemory> {
        let outcome = self.outcome(alloc, inputs.as_slice())?;
        let carries = carries_of(alloc, &outcome, self.gives.as_slice())?;
        Ok(((self.held.digest, outcome), carries))
    }
}
