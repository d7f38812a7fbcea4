//! Objects with their digest.

ghost use Rattle.std.specs.Prelude.{◌≡◌, IfOk};
ghost use Rattle.chain_types.specs.Digests.{digest_of_object};

use crate::digests::object_digest;
use crate::objects::Object;
use digest_core::Digest;
use std::alloc::Global;
use std::marker::Model;
use wire_bcs::{OutOfMemory, Seq};

/// An object with its digest: asking for it hashes nothing. Contracts see the object.
#[derive(Clone, Copy, Debug)]
pub struct HashedObject {
    object: Object,
    digest: Digest,
}

impl Model for HashedObject {
    ghost use Rattle.std.specs.Prelude.{◌≡◌};
    ghost use Rattle.std.proofs.Common.{ap, sym};
    ghost use Rattle.digest_core.specs.declared.Digest.{Digest as TheDigest};
    ghost use Rattle.chain_types.specs.Digests.{digest_of_object};
    ghost use Rattle.chain_types.specs.declared.objects.Object.{Object as TheObject};

    ghost Value = { TheObject };

    ghost view = { λ h. h.object };

    ghost invariant = { λ h. h.digest ≡ digest_of_object h.object };

    ghost inverse = { λ o. record { object = o; digest = digest_of_object o } };

    ghost inverse_ok = { λ h digest. sym (ap (λ (d : TheDigest). record { object = h.object; digest = d }) digest) };
}

impl HashedObject {
    /// Takes the digest of an object. Takes no memory.
    pub fn new(object: Object) -> HashedObject
        ensures { result ≡ object }
    {
        let digest = object_digest(&object);
        HashedObject { object, digest }
    }

    /// An object whose digest is known. Takes no memory.
    pub fn known(object: Object, digest: Digest) -> HashedObject
        requires { digest ≡ digest_of_object object }
        ensures { result ≡ object }
    {
        HashedObject { object, digest }
    }

    /// Takes the digest of each of these objects.
    pub fn all(alloc: Global, objects: &[Object]) -> Result<Seq<HashedObject>, OutOfMemory>
        ensures { IfOk result (λ hashed. hashed ≡ objects.now) }
    {
        let mut hashed = Seq::new(alloc);
        for object in objects {
            hashed.push(HashedObject::new(*object))?;
        }
        Ok(hashed)
    }

    /// These objects without their digests.
    pub fn plain(alloc: Global, hashed: &[HashedObject]) -> Result<Seq<Object>, OutOfMemory>
        ensures { IfOk result (λ objects. objects ≡ hashed.now) }
    {
        let mut objects = Seq::new(alloc);
        for one in hashed {
            objects.push(*one.object())?;
        }
        Ok(objects)
    }

    /// The object. Takes no memory.
    pub fn object(&self) -> &Object
        ensures { result.now ≡ self.now }
    {
        &self.object
    }

    /// Its digest. Takes no memory.
    pub fn digest(&self) -> Digest
        ensures { result ≡ digest_of_object self.now }
    {
        self.digest
    }
}
