//! Digests of objects, taken without memory: the hasher is fed the encoding piece by piece.

ghost use Rattle.std.specs.Prelude.{◌≡◌, ◌<◌};
ghost use Rattle.wire_bcs.specs.Uleb.{uleb};
ghost use Rattle.wire_bcs.specs.Items.{number_spell};
ghost use Rattle.wire_bcs.specs.Digests.{digest as digest_codec};
ghost use Rattle.chain_types.specs.Objects as codecs;
ghost use Rattle.chain_types.specs.Digests.{digest_of_object};
ghost use Rattle.chain_types.specs.Feeding.{Feeds};

use crate::objects::{Content, Object, Owner};
use digest_core::{Digest, Hasher, TAG_OBJECT};

/// The digest of an object. Takes no memory.
pub fn object_digest(object: &Object) -> Digest
    ensures { result ≡ digest_of_object object.now }
{
    let mut hasher = Hasher::begin(TAG_OBJECT);
    feed_object(&mut hasher, object);
    hasher.end()
}

#[tactic(auto, using(crate::specs::Feeding::feeds_then), unfolding(crate::specs::Objects::object, crate::specs::Objects::object_id))]
fn feed_object(hasher: &mut Hasher, object: &Object)
    ensures { Feeds hasher.old hasher.new (codecs.object.spell object.now) }
{
    feed_digest(hasher, &object.id.0);
    feed_number(hasher, object.version);
    feed_owner(hasher, &object.owner);
    feed_content(hasher, &object.content);
}

fn feed_digest(hasher: &mut Hasher, digest: &Digest)
    ensures { Feeds hasher.old hasher.new (digest_codec.spell digest.now) }
{
    hasher.add(&digest.0);
}

fn feed_number(hasher: &mut Hasher, number: u64)
    ensures { Feeds hasher.old hasher.new (number_spell 8 number) }
{
    hasher.add(number.to_le_bytes().as_slice());
}

fn feed_tag(hasher: &mut Hasher, tag: u8)
    requires { tag < 128 }
    ensures { Feeds hasher.old hasher.new (uleb tag) }
{
    hasher.add([tag].as_slice());
}

#[tactic(auto, using(crate::specs::Feeding::feeds_then), unfolding(crate::specs::Objects::owner, crate::specs::Objects::address))]
fn feed_owner(hasher: &mut Hasher, owner: &Owner)
    ensures { Feeds hasher.old hasher.new (codecs.owner.spell owner.now) }
{
    match owner {
        Owner::Address(address) => {
            feed_tag(hasher, 0);
            feed_digest(hasher, &address.0);
        }
        Owner::Shared(initial) => {
            feed_tag(hasher, 1);
            feed_number(hasher, *initial);
        }
        Owner::Immutable => feed_tag(hasher, 2),
    }
}

#[tactic(auto, using(crate::specs::Feeding::feeds_then), unfolding(crate::specs::Objects::content, crate::specs::Objects::object_id))]
fn feed_content(hasher: &mut Hasher, content: &Content)
    ensures { Feeds hasher.old hasher.new (codecs.content.spell content.now) }
{
    match content {
        Content::Coin { currency, balance } => {
            feed_tag(hasher, 0);
            feed_number(hasher, *currency);
            feed_number(hasher, *balance);
        }
        Content::Cap { currency, supply } => {
            feed_tag(hasher, 1);
            feed_number(hasher, *currency);
            feed_number(hasher, *supply);
        }
        Content::Counter { value } => {
            feed_tag(hasher, 2);
            feed_number(hasher, *value);
        }
        Content::Vault { currency, balance } => {
            feed_tag(hasher, 3);
            feed_number(hasher, *currency);
            feed_number(hasher, *balance);
        }
        Content::VaultKey { vault } => {
            feed_tag(hasher, 4);
            feed_digest(hasher, &vault.0);
        }
        Content::Limit { value } => {
            feed_tag(hasher, 5);
            feed_number(hasher, *value);
        }
    }
}
