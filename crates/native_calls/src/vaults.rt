//! Natives on vaults.

ghost use Rattle.std.specs.Prelude.{◌≡◌, IfOk};
ghost use Rattle.protocol_spec.specs.Block.Natives.{vault_new, vault_deposit, vault_withdraw};
ghost use Rattle.native_calls.specs.Sites.{site_of};

use crate::contents::{amount_of, currency_of, holding, names_vault, other_currency};
use crate::gives::{gives_new, gives_nothing, new_item, one};
use crate::place::Place;
use chain_types::Content;
use protocol_spec::{Gave, Item};
use std::alloc::Global;
use wire_bcs::OutOfMemory;

/// A new empty vault, and after it the key that names it.
pub(crate) fn vault_new(alloc: Global, place: &Place, currency: u64) -> Result<Gave, OutOfMemory>
    ensures { IfOk result (λ gave. gave ≡ vault_new (site_of place.now) currency) }
{
    let vault = new_item(
        place,
        0,
        Content::Vault {
            currency,
            balance: 0,
        },
    );
    let mut results = one(alloc, vault)?;
    results.push(new_item(place, 1, Content::VaultKey { vault: vault.id }))?;
    Ok(Gave::Done {
        results,
        changed: None,
        placed: None,
        made: place.made + 2,
    })
}

/// Puts a coin into a vault. Aborts with 1 if the currencies differ, with 2 if the sum is not an amount.
pub(crate) fn vault_deposit(alloc: Global, place: &Place, vault: &Item, coin: &Item) -> Gave
    ensures { result ≡ vault_deposit (site_of place.now) vault.now coin.now }
{
    if other_currency(vault, coin) {
        return Gave::Abort(1);
    }
    let Some(sum) = amount_of(&vault.content).checked_add(amount_of(&coin.content)) else {
        return Gave::Abort(2);
    };
    gives_nothing(alloc, place, Some(holding(sum, vault)))
}

/// Takes a coin out of a vault. Aborts with 1 if the key names another vault, with 2 if the
/// vault has less.
pub(crate) fn vault_withdraw(
    alloc: Global,
    place: &Place,
    vault: &Item,
    key: &Item,
    amount: u64,
) -> Result<Gave, OutOfMemory>
    ensures { IfOk result (λ gave. gave ≡ vault_withdraw (site_of place.now) vault.now key.now amount) }
{
    if !names_vault(&vault.id, &key.content) {
        return Ok(Gave::Abort(1));
    }
    let balance = amount_of(&vault.content);
    if balance < amount {
        return Ok(Gave::Abort(2));
    }
    let coin = Content::Coin {
        currency: currency_of(&vault.content),
        balance: amount,
    };
    gives_new(alloc, place, coin, Some(holding(balance - amount, vault)))
}
