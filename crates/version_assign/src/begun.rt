//! What the shared inputs of a certificate are assigned if it is the first to name their objects.

ghost use Rattle.std.specs.Prelude.{◌≡◌, ◌++◌, ◌∷◌, [], IfOk, Some, None, map};
ghost use Rattle.chain_types.specs.Digests.{is_object};
ghost use Rattle.protocol_spec.specs.Member.Admission.{begins};
ghost use Rattle.version_assign.specs.Books.{IsOpening, begun_of, object_in};
ghost use Rattle.version_assign.specs.Lines.{begun, begun_after, begun_behind};

use chain_messages::Certificate;
use chain_types::{Input, Object, ObjectId, Producer};
use digest_core::Digest;
use indexmap::IndexMap;
use protocol_spec::Assigned;
use std::alloc::Global;
use wire_bcs::OutOfMemory;

/// Whether the input names an object.
fn is_object(input: &Input) -> bool
    ensures { result ≡ is_object input.now }
{
    !matches!(input, Input::Pure(_))
}

/// The version at which a shared object begins.
fn begins(
    opening: &IndexMap<ObjectId, Object>,
    id: &ObjectId,
    initial: u64,
    origin: Option<Digest>,
) -> (u64, Producer)
    requires { IsOpening opening.now.entries }
    ensures { result ≡ begins (map object_in opening.now.entries) id.now initial origin }
{
    match origin {
        Some(tx) => (initial, Producer::Tx(tx)),
        None => match opening.get(id) {
            Some(object) => (object.version, Producer::Opening),
            None => (0, Producer::Opening),
        },
    }
}

/// What a shared input is assigned if its certificate is the first to name the object.
fn begun(
    opening: &IndexMap<ObjectId, Object>,
    input: &Input,
    origin: Option<Digest>,
) -> Option<Assigned>
    requires { IsOpening opening.now.entries }
    ensures { result ≡ begun (map object_in opening.now.entries) (input.now, origin) }
{
    match input {
        Input::Shared {
            id,
            initial,
            mutable,
        } => {
            let (version, writer) = begins(opening, id, *initial, origin);
            Some(Assigned {
                id: *id,
                version,
                writer,
                mutable: *mutable,
            })
        }
        Input::Owned(_) | Input::Immutable(_) | Input::Pure(_) => None,
    }
}

/// Adds what the shared ones of these inputs are assigned, each with its origin, to those collected.
fn begun_after(
    opening: &IndexMap<ObjectId, Object>,
    all: Vec<Assigned>,
    inputs: &[Input],
    origins: &[Option<Digest>],
) -> Result<Vec<Assigned>, OutOfMemory>
    requires { IsOpening opening.now.entries }
    ensures { IfOk result (λ more. more.items ≡ begun_after (map object_in opening.now.entries) all.items inputs.now origins.now) }
{
    let mut all = all;
    let mut left = inputs;
    let mut rest = origins;
    while let [input, after @ ..] = left {
        if is_object(input) {
            let [origin, others @ ..] = rest else {
                return Ok(all);
            };
            if let Some(one) = begun(opening, input, *origin) {
                all.push(one)?;
            }
            rest = others;
        }
        left = after;
    }
    Ok(all)
}

/// What the shared inputs of a certificate are assigned, in input order, if it is the first to name their objects.
pub(crate) fn all_begun(
    alloc: Global,
    opening: &IndexMap<ObjectId, Object>,
    cert: &Certificate,
) -> Result<Vec<Assigned>, OutOfMemory>
    requires { IsOpening opening.now.entries }
    ensures { IfOk result (λ all. all.items ≡ begun_behind (map object_in opening.now.entries) cert.now.tx.inputs cert.now.origins) }
{
    match cert.origins.as_slice() {
        [_, origins @ ..] => begun_after(
            opening,
            Vec::new(alloc),
            cert.tx.inputs.as_slice(),
            origins,
        ),
        [] => Ok(Vec::new(alloc)),
    }
}
