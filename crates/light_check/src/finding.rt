//! A transaction in a chain.

ghost use Rattle.std.specs.Prelude.{◌≡◌, option_map};
ghost use Rattle.light_check.specs.Found.{found, found_in, item_with};

use crate::chain::{Chain, Link};
use checkpoint_core::Item;
use digest_core::Digest;

/// The item that lists the transaction; none if no item does.
fn item_with(items: &[Item], tx: &Digest) -> Option<Item>
    ensures { result ≡ item_with tx.now items.now }
{
    let mut rest = items;
    while let [item, after @ ..] = rest {
        if item.tx == *tx {
            return Some(*item);
        }
        rest = after;
    }
    None
}

/// The number of the checkpoint and the digest of the effects, if the link lists the transaction.
fn found_in(link: &Link, tx: &Digest) -> Option<(u64, Digest)>
    ensures { result ≡ found_in tx.now link.now }
{
    match item_with(link.checkpoint.items.as_slice(), tx) {
        Some(item) => Some((link.checkpoint.number, item.effects)),
        None => None,
    }
}

/// The number of the first checkpoint that lists the transaction, and the digest of its effects there; none exactly
/// if none does. Takes no memory.
#[tactic(auto, unfolding(crate::specs::Found::found))]
pub fn find(chain: &Chain, tx: &Digest) -> Option<(u64, Digest)>
    ensures { result ≡ found tx.now chain.now.links }
{
    let mut rest = chain.links.as_slice();
    while let [link, after @ ..] = rest {
        if let Some(at) = found_in(link, tx) {
            return Some(at);
        }
        rest = after;
    }
    None
}
