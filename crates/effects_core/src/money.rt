//! Sums of a currency.

ghost use Rattle.std.specs.Prelude.{◌≡◌};
ghost use Rattle.effects_core.specs.Money as money;

use chain_types::{Content, Object};
use wire_bcs::Seq;

/// What a content holds of a currency, as a coin or in a vault.
fn held(content: &Content, wanted: u64) -> u64
    ensures { result ≡ money.money_of wanted content.now }
{
    match content {
        Content::Coin { currency, balance } | Content::Vault { currency, balance } => {
            if *currency == wanted { *balance } else { 0 }
        }
        Content::Cap { .. }
        | Content::Counter { .. }
        | Content::VaultKey { .. }
        | Content::Limit { .. } => 0,
    }
}

/// The sum of a currency over these objects, in its units: the balances of its coins and of its vaults. No
/// list is long enough for the sum to pass 2^128 - 1. Takes no memory.
#[tactic(auto, unfolding(crate::specs::Money::currency_sum))]
pub fn currency_sum(objects: &Seq<Object>, currency: u64) -> u128
    ensures { result ≡ money.currency_sum objects.now currency }
{
    let mut sum = 0;
    for object in objects.as_slice() {
        sum += held(&object.content, currency) as u128;
    }
    sum
}
