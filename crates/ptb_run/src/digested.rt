//! Objects that know their digest.

ghost use Rattle.std.specs.Prelude.{◌≡◌};
ghost use Rattle.chain_types.specs.Digests.{digest_of_object};

use chain_types::{HashedObject, Object, object_digest};
use digest_core::Digest;

/// An object that knows its digest. Contracts see the object.
pub(crate) trait Digested {
    ghost use Rattle.chain_types.specs.declared.objects.Object.{Object as TheObject};

    ghost seen: { Self → TheObject };

    /// The object.
    fn as_object(&self) -> &Object
        ensures { result.now ≡ Self.seen self.now };

    /// Its digest.
    fn to_digest(&self) -> Digest
        ensures { result ≡ digest_of_object (Self.seen self.now) };
}

/// The digest of a plain object is taken at each call.
impl Digested for Object {
    ghost seen = { λ o. o };

    fn as_object(&self) -> &Object {
        self
    }

    fn to_digest(&self) -> Digest {
        object_digest(self)
    }
}

/// The digest is the one that is kept beside the object.
impl Digested for HashedObject {
    ghost seen = { λ o. o };

    fn as_object(&self) -> &Object {
        self.object()
    }

    fn to_digest(&self) -> Digest {
        self.digest()
    }
}
