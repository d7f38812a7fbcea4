//! Whether objects would be new versions.

ghost use Rattle.std.specs.Prelude.{◌≡◌, ◌++◌, ◌∷◌, [], IfOk, OnOk, false, map};
ghost use Rattle.std.specs.List.{list_any};
ghost use Rattle.chain_types.specs.Equal.{key_eq};
ghost use Rattle.protocol_spec.specs.Chain.Tests.{has_key};
ghost use Rattle.protocol_spec.specs.Chain.Keys.{object_key};
ghost use Rattle.protocol_spec.specs.Member.Rounds.{holds_key};
ghost use Rattle.version_store.specs.Stores.{are_new, held_in};
ghost use Rattle.version_store.specs.Fresh.{all_fresh};

use crate::store::Store;
use chain_types::{HashedObject, Object, ObjectKey};
use indexmap::IndexSet;
use wire_bcs::{OutOfMemory, Seq};

/// The version that an object is.
pub(crate) fn key_of(object: &Object) -> ObjectKey
    ensures { result ≡ object_key object.now }
{
    ObjectKey {
        id: object.id,
        version: object.version,
    }
}

/// Adds a key that is not there.
fn insert_new_key(seen: &mut IndexSet<ObjectKey>, key: ObjectKey) -> Result<(), OutOfMemory>
    requires { has_key seen.old.keys key ≡ false }
    ensures { OnOk result (seen.new.keys ≡ seen.old.keys ++ key ∷ []) }
{
    seen.insert(key)?;
    Ok(())
}

/// Whether one of the objects is this version. Takes no memory.
fn is_among(key: &ObjectKey, objects: &[HashedObject]) -> bool
    ensures { result ≡ list_any (key_eq key.now) (map object_key objects.now) }
{
    let mut rest = objects;
    while let [object, after @ ..] = rest {
        if *key == key_of(object.object()) {
            return true;
        }
        rest = after;
    }
    false
}

impl Store {
    /// Whether the version is held. Takes no memory.
    fn holds(&self, key: &ObjectKey) -> bool
        ensures { result ≡ holds_key (held_in self.now) key.now }
    {
        self.get(key).is_some()
    }

    /// Whether few objects are new: each is compared with those after it. Takes no memory; the time is quadratic.
    #[tactic(auto, using(crate::proofs::News::twice_old))]
    fn few_are_new(&self, objects: &[HashedObject]) -> bool
        ensures { result ≡ are_new (held_in self.now) objects.now }
    {
        let mut rest = objects;
        while let [object, after @ ..] = rest {
            let key = key_of(object.object());
            if self.holds(&key) || is_among(&key, after) {
                return false;
            }
            rest = after;
        }
        true
    }

    /// Whether many objects are new.
    #[tactic(auto, using(crate::proofs::News::fresh_is_new))]
    fn many_are_new(&self, objects: &[HashedObject]) -> Result<bool, OutOfMemory>
        ensures { IfOk result (λ new. new ≡ are_new (held_in self.now) objects.now) }
    {
        let mut seen = IndexSet::new(self.alloc);
        let mut rest = objects;
        while let [object, after @ ..] = rest {
            let key = key_of(object.object());
            if self.holds(&key) || seen.contains(&key) {
                return Ok(false);
            }
            insert_new_key(&mut seen, key)?;
            rest = after;
        }
        Ok(true)
    }

    /// Whether each of these objects is a version that is not held, and no version comes twice: what [`Store::write`]
    /// requires of them.
    pub fn are_new(&self, objects: &Seq<HashedObject>) -> Result<bool, OutOfMemory>
        ensures { IfOk result (λ new. new ≡ are_new (held_in self.now) objects.now) }
    {
        if objects.len() <= 8 {
            return Ok(self.few_are_new(objects.as_slice()));
        }
        self.many_are_new(objects.as_slice())
    }
}
