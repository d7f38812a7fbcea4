//! Natives on counters and limits.

ghost use Rattle.std.specs.Prelude.{◌≡◌, ◌∷◌, [], None, IfOk};
ghost use Rattle.chain_types.specs.declared.objects.Content.TheVariants as contents;
ghost use Rattle.protocol_spec.specs.Block.Natives.{counter_add, counter_require, counter_add_limited, gives};
ghost use Rattle.native_calls.specs.Sites.{site_of};

use crate::contents::{amount_of, holding};
use crate::gives::{gives_new, gives_nothing};
use crate::place::Place;
use chain_types::Content;
use protocol_spec::{Gave, Item};
use std::alloc::Global;
use wire_bcs::OutOfMemory;

/// Makes a counter of a value.
pub(crate) fn counter_new(alloc: Global, place: &Place, value: u64) -> Result<Gave, OutOfMemory>
    ensures { IfOk result (λ gave. gave ≡ gives (site_of place.now) (contents.Counter value ∷ []) None) }
{
    gives_new(alloc, place, Content::Counter { value }, None)
}

/// Makes a limit of a value.
pub(crate) fn limit_new(alloc: Global, place: &Place, value: u64) -> Result<Gave, OutOfMemory>
    ensures { IfOk result (λ gave. gave ≡ gives (site_of place.now) (contents.Limit value ∷ []) None) }
{
    gives_new(alloc, place, Content::Limit { value }, None)
}

/// Raises a counter. Aborts with 1 if the sum is not an amount.
pub(crate) fn counter_add(alloc: Global, place: &Place, counter: &Item, amount: u64) -> Gave
    ensures { result ≡ counter_add (site_of place.now) counter.now amount }
{
    let Some(sum) = amount_of(&counter.content).checked_add(amount) else {
        return Gave::Abort(1);
    };
    gives_nothing(alloc, place, Some(holding(sum, counter)))
}

/// Aborts with 1 if the counter is below a number.
pub(crate) fn counter_require(alloc: Global, place: &Place, counter: &Item, least: u64) -> Gave
    ensures { result ≡ counter_require (site_of place.now) counter.now least }
{
    if amount_of(&counter.content) < least {
        return Gave::Abort(1);
    }
    gives_nothing(alloc, place, None)
}

/// Raises a counter up to a limit. Aborts with 1 if the sum is not an amount, with 2 if it is above the limit.
pub(crate) fn counter_add_limited(
    alloc: Global,
    place: &Place,
    counter: &Item,
    amount: u64,
    limit: &Item,
) -> Gave
    ensures { result ≡ counter_add_limited (site_of place.now) counter.now amount limit.now }
{
    let Some(sum) = amount_of(&counter.content).checked_add(amount) else {
        return Gave::Abort(1);
    };
    if amount_of(&limit.content) < sum {
        return Gave::Abort(2);
    }
    gives_nothing(alloc, place, Some(holding(sum, counter)))
}
