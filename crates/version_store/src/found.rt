//! The version of a key that a certain producer made.

ghost use Rattle.std.specs.Prelude.{◌≡◌, None, option_copied, if◌then◌else◌};
ghost use Rattle.std.specs.Map.{lookup};
ghost use Rattle.indexmap.specs.IndexMap.{IsUnique};
ghost use Rattle.chain_types.specs.declared.objects.Producer.TheVariants as producers;
ghost use Rattle.chain_types.specs.Equal.{id_eq, key_eq};
ghost use Rattle.protocol_spec.specs.Chain.Tests.{producer_eq};
ghost use Rattle.protocol_spec.specs.Member.Rounds.{found};
ghost use Rattle.version_store.specs.Bases.{at_version};
ghost use Rattle.version_store.specs.Makers.{made_by};
ghost use Rattle.version_store.specs.Stores.{held_in, wanted_of};

use crate::base::at_version;
use crate::maps::Kept;
use crate::store::Store;
use chain_types::{HashedObject, ObjectId, ObjectKey, Producer};
use indexmap::IndexMap;

/// Whether both producers are the same: the opening, or one transaction.
fn is_producer(made: &Producer, wanted: &Producer) -> bool
    ensures { result ≡ producer_eq made.now wanted.now }
{
    *made == *wanted
}

/// The object of this version, if it is an opening object, and one is asked for.
fn found_opening<'a>(
    base: &'a IndexMap<ObjectId, HashedObject>,
    key: &ObjectKey,
    producer: &Producer,
) -> Option<&'a HashedObject>
    ensures { option_copied result ≡ (if producer_eq producers.Opening producer.now then at_version key.now.version (lookup (id_eq key.now.id) base.now.entries) else None) }
{
    if is_producer(&Producer::Opening, producer) {
        at_version(base, key)
    } else {
        None
    }
}

/// The object of this version, if the map has it of this producer.
fn found_among<'a>(
    versions: &'a IndexMap<ObjectKey, Kept>,
    key: &ObjectKey,
    producer: &Producer,
) -> Option<&'a HashedObject>
    ensures made { option_copied result ≡ made_by producer.now (lookup (key_eq key.now) versions.now.entries) }
    ensures unique { IsUnique key_eq versions.now }
{
    // A map's count says that no key comes twice.
    let _held = versions.len();
    match versions.get(key) {
        Some(kept) => {
            if is_producer(&kept.producer, producer) {
                Some(&kept.object)
            } else {
                None
            }
        }
        None => None,
    }
}

impl Store {
    /// The object of this version, if it is held and this producer made it; none exactly if it is not
    /// held, or another producer made it. Takes no memory.
    pub fn found(&self, key: &ObjectKey, producer: &Producer) -> Option<&HashedObject>
        ensures { option_copied result ≡ found (held_in self.now) (wanted_of key.now producer.now) }
    {
        match found_opening(&self.base, key, producer) {
            Some(object) => Some(object),
            None => found_among(&self.maps.versions, key, producer),
        }
    }
}
