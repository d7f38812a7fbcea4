//! Natives that give an object to everyone.

ghost use Rattle.std.specs.Prelude.{◌≡◌};
ghost use Rattle.protocol_spec.specs.Block.Natives.{share, owned_by_all};
ghost use Rattle.chain_types.specs.declared.objects.Owner.TheVariants as owner;
ghost use Rattle.native_calls.specs.Sites.{site_of};

use crate::contents::may_be_shared;
use crate::gives::gives_owner;
use crate::place::Place;
use chain_types::Owner;
use protocol_spec::{Gave, Item};
use std::alloc::Global;

/// Shares an object from the version of the transaction on. Aborts with 1 if this block did not
/// create it, with 2 if it is neither a counter nor a vault.
pub(crate) fn share(alloc: Global, place: &Place, item: &Item) -> Gave
    ensures { result ≡ share (site_of place.now) item.now }
{
    if !item.fresh {
        return Gave::Abort(1);
    }
    if !may_be_shared(&item.content) {
        return Gave::Abort(2);
    }
    gives_owner(alloc, place, *item, Owner::Shared(place.version))
}

/// Makes an object immutable.
pub(crate) fn freeze(alloc: Global, place: &Place, item: &Item) -> Gave
    ensures { result ≡ owned_by_all (site_of place.now) item.now owner.Immutable }
{
    gives_owner(alloc, place, *item, Owner::Immutable)
}
