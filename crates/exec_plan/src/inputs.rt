//! The versions that a certificate's inputs want.

ghost use Rattle.std.specs.Prelude.{◌≡◌, ◌∷◌, [], MatchOption, None, Some, filter, find, map, option_copied, true};
ghost use Rattle.chain_types.specs.Digests.{is_object};
ghost use Rattle.protocol_spec.specs.Chain.Keys.{has_shared_input, is_shared_input};
ghost use Rattle.protocol_spec.specs.Chain.Words.{first_of};
ghost use Rattle.protocol_spec.specs.Member.Admission.{assigned_of};
ghost use Rattle.protocol_spec.specs.Member.Rounds.{assigned_id, found, is_of_id, missing, producer_of, wanted_as, wants_of};
ghost use Rattle.exec_plan.specs.Books.{is_let};
ghost use Rattle.exec_plan.specs.Wants.{named_in, named_left, want_of};
ghost use Rattle.version_store.specs.Stores.{held_in};

use chain_types::{HashedObject, Input, ObjectId, ObjectKey, Producer, Transaction};
use digest_core::Digest;
use protocol_spec::{Assigned, Held};
use std::marker::Model;
use version_assign::Admission;
use version_store::Store;

/// Whether the input names an object.
fn is_object(input: &Input) -> bool
    ensures { result ≡ is_object input.now }
{
    !matches!(input, Input::Pure(_))
}

/// Whether the input is a shared object.
fn is_shared_input(input: &Input) -> bool
    ensures { result ≡ is_shared_input input.now }
{
    matches!(input, Input::Shared { .. })
}

/// Whether a transaction names a shared object.
fn has_shared_input(tx: &Transaction) -> bool
    ensures { result ≡ has_shared_input tx.now }
{
    for input in tx.inputs.as_slice() {
        if is_shared_input(input) {
            return true;
        }
    }
    false
}

/// Whether a certificate names no shared object, or is admitted.
#[tactic(auto, using(crate::proofs::Growing::assigned_is))]
pub(crate) fn is_let(admission: &Admission, held: &Held) -> bool
    ensures { result ≡ is_let admission.now.admission held.now }
{
    !has_shared_input(&held.cert.get().tx) || admission.assigned(&held.digest).is_some()
}

/// An object that a transaction names: a version, or a shared object and where it begins.
#[derive(Clone, Copy)]
pub(crate) enum Named {
    Version(ObjectKey),
    Shared { id: ObjectId, initial: u64 },
}

/// What a transaction wants: a version, and who made it; nobody, if a shared object was not assigned.
/// Contracts see the definitions' record of it.
#[derive(Drop)]
pub(crate) struct Want {
    key: ObjectKey,
    maker: Option<Producer>,
}

impl Model for Want {
    ghost use Rattle.protocol_spec.specs.Member.Rounds.{Wanted};

    ghost Value = { Wanted };

    ghost view = { λ w. record { key = w.key; producer = w.maker } };
}

impl Want {
    /// The key of the version.
    pub(crate) fn key(&self) -> ObjectKey
        ensures { result ≡ self.now.key }
    {
        self.key
    }

    /// Who made the version.
    pub(crate) fn maker(&self) -> Option<Producer>
        ensures { result ≡ self.now.producer }
    {
        self.maker
    }
}

/// The object that an input names.
fn name_of(input: &Input) -> Named
    requires { is_object input.now ≡ true }
    ensures { result ≡ named_in input.now }
{
    match input {
        Input::Owned(reference) => Named::Version(reference.key()),
        Input::Immutable(reference) => Named::Version(reference.key()),
        Input::Shared { id, initial, .. } => Named::Shared {
            id: *id,
            initial: *initial,
        },
        Input::Pure(_) => unreachable!(),
    }
}

/// The first object that inputs name, and the inputs after it.
fn next_object<'a>(inputs: &'a [Input]) -> Option<(Named, &'a [Input])>
    ensures { MatchOption result (map named_in (filter is_object inputs.now) ≡ []) (λ found. map named_in (filter is_object inputs.now) ≡ found.0 ∷ map named_in (filter is_object found.1.now)) }
{
    let mut rest = inputs;
    while let [input, after @ ..] = rest {
        if is_object(input) {
            return Some((name_of(input), after));
        }
        rest = after;
    }
    None
}

/// Takes the first named object off: the gas coin, unless it was taken before, else the first that the inputs name;
/// and the inputs after it.
fn split_named<'a>(gas: Option<ObjectKey>, inputs: &'a [Input]) -> Option<(Named, &'a [Input])>
    ensures { MatchOption result (named_left gas inputs.now ≡ []) (λ found. named_left gas inputs.now ≡ found.0 ∷ named_left None found.1.now) }
{
    match gas {
        Some(key) => Some((Named::Version(key), inputs)),
        None => next_object(inputs),
    }
}

/// Who made a version of this origin.
fn maker_of(origin: Option<Digest>) -> Producer
    ensures { result ≡ producer_of origin }
{
    match origin {
        Some(tx) => Producer::Tx(tx),
        None => Producer::Opening,
    }
}

/// The assigned version of this object.
fn with_id(assigned: &[Assigned], id: &ObjectId) -> Option<Assigned>
    ensures { result ≡ find (is_of_id id.now) assigned.now }
{
    let mut rest = assigned;
    while let [one, after @ ..] = rest {
        if one.id == *id {
            return Some(*one);
        }
        rest = after;
    }
    None
}

/// The version of a shared object that was assigned to a transaction.
fn assigned_version(admission: &Admission, tx: &Digest, id: &ObjectId) -> Option<Assigned>
    ensures { result ≡ assigned_id (assigned_of admission.now.admission tx.now) id.now }
{
    match admission.assigned(tx) {
        Some(assigned) => with_id(assigned.as_slice(), id),
        None => None,
    }
}

/// What is wanted of a shared object: the assigned version of its writer.
fn want_shared(id: ObjectId, initial: u64, assigned: Option<Assigned>) -> Want
    ensures { result ≡ wanted_as id initial assigned }
{
    match assigned {
        Some(assigned) => Want {
            key: ObjectKey {
                id,
                version: assigned.version,
            },
            maker: Some(assigned.writer),
        },
        None => Want {
            key: ObjectKey {
                id,
                version: initial,
            },
            maker: None,
        },
    }
}

/// What a transaction wants of an object of this origin.
fn want_of(admission: &Admission, tx: &Digest, named: Named, origin: Option<Digest>) -> Want
    ensures { result ≡ want_of (assigned_of admission.now.admission tx.now) named origin }
{
    match named {
        Named::Version(key) => Want {
            key,
            maker: Some(maker_of(origin)),
        },
        Named::Shared { id, initial } => {
            want_shared(id, initial, assigned_version(admission, tx, &id))
        }
    }
}

/// What a certificate's transaction still wants. Contracts see the list of it.
#[derive(Drop)]
pub(crate) struct Wants<'a> {
    admission: &'a Admission,
    tx: &'a Digest,
    /// The version of the gas coin, until it is taken.
    gas: Option<ObjectKey>,
    /// The inputs and origins that are left.
    inputs: &'a [Input],
    origins: &'a [Option<Digest>],
}

impl<'a> Model for Wants<'a> {
    ghost use Rattle.std.specs.Prelude.{List};
    ghost use Rattle.protocol_spec.specs.Member.Admission.{assigned_of};
    ghost use Rattle.protocol_spec.specs.Member.Rounds.{Wanted};
    ghost use Rattle.exec_plan.specs.Wants.{named_left, wants_left};

    ghost Value = { List Wanted };

    ghost view = { λ w. wants_left (assigned_of w.admission.now.admission w.tx.now) (named_left w.gas w.inputs.now) w.origins.now };
}

impl<'a> Wants<'a> {
    /// What a certificate's transaction wants, gas first: each named version of its origin, and of a shared object
    /// the assigned version of its writer. Takes no memory.
    #[tactic(auto, using(crate::proofs::Joined::wants_are))]
    pub(crate) fn of(admission: &'a Admission, held: &'a Held) -> Wants<'a>
        ensures { result ≡ wants_of admission.now.admission held.now }
    {
        let cert = held.cert.get();
        Wants {
            admission,
            tx: &held.digest,
            gas: Some(cert.tx.gas.key()),
            inputs: cert.tx.inputs.as_slice(),
            origins: cert.origins.as_slice(),
        }
    }

    /// Takes out the first of what is wanted. Takes no memory.
    pub(crate) fn take_next(&mut self) -> Option<Want>
        ensures { MatchOption result (self.old ≡ []) (λ want. self.old ≡ want ∷ self.new) }
    {
        let Some((named, inputs)) = split_named(self.gas, self.inputs) else {
            return None;
        };
        let [origin, others @ ..] = self.origins else {
            return None;
        };
        let want = want_of(self.admission, self.tx, named, *origin);
        self.gas = None;
        self.inputs = inputs;
        self.origins = others;
        Some(want)
    }
}

/// The object that is wanted, if it is held.
pub(crate) fn found<'a>(store: &'a Store, want: &Want) -> Option<&'a HashedObject>
    ensures { option_copied result ≡ found (held_in store.now) want.now }
{
    match want.maker() {
        Some(maker) => store.found(&want.key(), &maker),
        None => None,
    }
}

/// The first version that a certificate's transaction wants and that is not held.
pub(crate) fn first_missing(store: &Store, admission: &Admission, held: &Held) -> Option<ObjectKey>
    ensures { result ≡ first_of (missing (held_in store.now)) (wants_of admission.now.admission held.now) }
{
    let mut wants = Wants::of(admission, held);
    while let Some(want) = wants.take_next() {
        if found(store, &want).is_none() {
            return Some(want.key());
        }
    }
    None
}
