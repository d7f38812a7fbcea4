//! Natives on coins and caps.

ghost use Rattle.std.specs.Prelude.{◌≡◌, ◌+◌, ◌<◌, ◌^◌, ◌∷◌, [], None, IfOk, SomeIff, sum_by};
ghost use Rattle.std.specs.List.{list_any};
ghost use Rattle.chain_types.specs.declared.objects.Content.TheVariants as contents;
ghost use Rattle.protocol_spec.specs.Block.Natives.{coin_mint, coin_burn, gives, joined, amount_of, other_currency};
ghost use Rattle.native_calls.specs.Sites.{site_of};

use crate::contents::{amount_of, currency_of, holding, other_currency};
use crate::gives::{gives_new, gives_nothing, one};
use crate::place::Place;
use chain_types::Content;
use protocol_spec::{Gave, Item};
use std::alloc::Global;
use wire_bcs::OutOfMemory;

/// Makes an empty coin of a currency.
pub(crate) fn coin_zero(alloc: Global, place: &Place, currency: u64) -> Result<Gave, OutOfMemory>
    ensures { IfOk result (λ gave. gave ≡ gives (site_of place.now) (contents.Coin currency 0 ∷ []) None) }
{
    let coin = Content::Coin {
        currency,
        balance: 0,
    };
    gives_new(alloc, place, coin, None)
}

/// Makes a coin of the cap's currency. Aborts with 1 if the supply would not be an amount.
pub(crate) fn coin_mint(
    alloc: Global,
    place: &Place,
    cap: &Item,
    amount: u64,
) -> Result<Gave, OutOfMemory>
    ensures { IfOk result (λ gave. gave ≡ coin_mint (site_of place.now) cap.now amount) }
{
    let Some(supply) = amount_of(&cap.content).checked_add(amount) else {
        return Ok(Gave::Abort(1));
    };
    let coin = Content::Coin {
        currency: currency_of(&cap.content),
        balance: amount,
    };
    gives_new(alloc, place, coin, Some(holding(supply, cap)))
}

/// Deletes a coin of the cap's currency. Aborts with 1 if the currencies differ, with 2 if the
/// supply is below the balance.
pub(crate) fn coin_burn(alloc: Global, place: &Place, cap: &Item, coin: &Item) -> Gave
    ensures { result ≡ coin_burn (site_of place.now) cap.now coin.now }
{
    if other_currency(cap, coin) {
        return Gave::Abort(1);
    }
    let (supply, balance) = (amount_of(&cap.content), amount_of(&coin.content));
    if supply < balance {
        return Gave::Abort(2);
    }
    gives_nothing(alloc, place, Some(holding(supply - balance, cap)))
}

/// Whether one of the coins has another currency than the first.
fn any_other_currency(first: &Item, coins: &[Item]) -> bool
    ensures { result ≡ list_any (other_currency first.now) coins.now }
{
    for coin in coins {
        if other_currency(first, coin) {
            return true;
        }
    }
    false
}

/// The sum of the balances, if it is an amount.
fn sum_from(start: u64, coins: &[Item]) -> Option<u64>
    ensures { let total = start + sum_by (λ i. amount_of i.content) coins.now in SomeIff result (total < 2 ^ 64) total }
{
    let mut sum = start;
    let mut rest = coins;
    while let [coin, after @ ..] = rest {
        sum = sum.checked_add(amount_of(&coin.content))?;
        rest = after;
    }
    Some(sum)
}

/// Joins coins to the first of them. Aborts with 1 if there is none, with 2 if the currencies
/// differ, with 3 if the sum is not an amount.
pub(crate) fn coin_join_all(
    alloc: Global,
    place: &Place,
    coins: &[Item],
) -> Result<Gave, OutOfMemory>
    ensures { IfOk result (λ gave. gave ≡ joined (site_of place.now) coins.now) }
{
    let [first, others @ ..] = coins else {
        return Ok(Gave::Abort(1));
    };
    if any_other_currency(first, others) {
        return Ok(Gave::Abort(2));
    }
    let Some(sum) = sum_from(amount_of(&first.content), others) else {
        return Ok(Gave::Abort(3));
    };
    Ok(Gave::Done {
        results: one(alloc, holding(sum, first))?,
        changed: None,
        placed: None,
        made: place.made,
    })
}
