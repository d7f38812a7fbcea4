//! The execution of a transaction, with the digests of what it gives.

ghost use Rattle.std.specs.Prelude.{◌≡◌, None, IfOk, map, true};
ghost use Rattle.chain_types.specs.Digests.{transaction_digest};
ghost use Rattle.protocol_spec.specs.Block.Execution.{execution, written_of};
ghost use Rattle.protocol_spec.specs.Chain.Keys.{fits};
ghost use Rattle.protocol_spec.specs.Chain.Shape.{shape_fault};

use crate::execution::execute;
use chain_types::{HashedObject, Object, Transaction};
use digest_core::Digest;
use effects_core::{HashedEffects, Written};
use protocol_spec::Executed;
use std::alloc::Global;
use std::marker::Model;
use wire_bcs::{OutOfMemory, Seq};

/// What the execution of a transaction leaves: its effects and the objects that they list, each with its digest.
/// Contracts see an [`Executed`].
#[derive(Drop)]
pub struct HashedExecuted {
    effects: HashedEffects,
    objects: Seq<HashedObject>,
}

impl Model for HashedExecuted {
    ghost use Rattle.protocol_spec.specs.declared.pieces.Executed.{Executed as TheExecuted};

    ghost Value = { TheExecuted };

    ghost view = { λ x. record { effects = x.effects; objects = x.objects } };
}

impl HashedExecuted {
    /// The effects.
    pub fn effects(&self) -> &HashedEffects
        ensures { result.now ≡ self.now.effects }
    {
        &self.effects
    }

    /// The objects.
    pub fn objects(&self) -> &Seq<HashedObject>
        ensures { result.now ≡ self.now.objects }
    {
        &self.objects
    }

    /// The effects and the objects. Takes no memory.
    pub fn into_parts(self) -> (HashedEffects, Seq<HashedObject>)
        ensures effects { result.0 ≡ self.effects }
        ensures objects { result.1 ≡ self.objects }
    {
        let HashedExecuted { effects, objects } = self;
        (effects, objects)
    }
}

/// The objects, each with the digest that the effects list.
fn listed(
    alloc: Global,
    objects: &[Object],
    written: &[Written],
) -> Result<Seq<HashedObject>, OutOfMemory>
    requires { written.now ≡ map written_of objects.now }
    ensures { IfOk result (λ hashed. hashed ≡ objects.now) }
{
    let mut hashed = Seq::with_room(alloc, objects.len() as u64)?;
    let mut rest = objects;
    let mut left = written;
    while let [object, after @ ..] = rest {
        let [one, others @ ..] = left else {
            unreachable!();
        };
        hashed.push(HashedObject::known(*object, one.digest))?;
        rest = after;
        left = others;
    }
    Ok(hashed)
}

/// What [`execute`] gives, with the digests: each object's is the one that the effects list.
#[tactic(auto, using(crate::proofs::Listed::lists_written))]
pub fn execute_hashed(
    alloc: Global,
    tx: &Transaction,
    digest: &Digest,
    inputs: &Seq<Object>,
) -> Result<HashedExecuted, OutOfMemory>
    requires shape { shape_fault tx.now ≡ None }
    requires fit { fits tx.now inputs.now ≡ true }
    requires digest { digest.now ≡ transaction_digest tx.now }
    ensures { IfOk result (λ executed. executed ≡ execution tx.now inputs.now) }
{
    let gave = execute(alloc, tx, digest, inputs)?;
    let objects = listed(
        alloc,
        gave.objects.as_slice(),
        gave.effects.written.as_slice(),
    )?;
    let effects = HashedEffects::new(alloc, gave.effects)?;
    Ok(HashedExecuted { effects, objects })
}
