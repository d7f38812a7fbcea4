//! What the contents of objects hold.

ghost use Rattle.std.specs.Prelude.{◌≡◌};
ghost use Rattle.protocol_spec.specs.Block.Natives.{kind_of, currency_of, amount_of, with_amount, names_vault, may_be_shared, holding, other_currency};

use chain_types::{Content, Kind, ObjectId};
use protocol_spec::Item;

/// The kind of a content.
pub fn kind_of(content: &Content) -> Kind
    ensures { result ≡ kind_of content.now }
{
    match content {
        Content::Coin { .. } => Kind::Coin,
        Content::Cap { .. } => Kind::Cap,
        Content::Counter { .. } => Kind::Counter,
        Content::Vault { .. } => Kind::Vault,
        Content::VaultKey { .. } => Kind::VaultKey,
        Content::Limit { .. } => Kind::Limit,
    }
}

/// The currency of a coin, a cap or a vault; 0 of others.
pub fn currency_of(content: &Content) -> u64
    ensures { result ≡ currency_of content.now }
{
    match content {
        Content::Coin { currency, .. } => *currency,
        Content::Cap { currency, .. } => *currency,
        Content::Vault { currency, .. } => *currency,
        Content::Counter { .. } | Content::VaultKey { .. } | Content::Limit { .. } => 0,
    }
}

/// The balance, the supply or the value that a content holds; 0 of a key.
pub fn amount_of(content: &Content) -> u64
    ensures { result ≡ amount_of content.now }
{
    match content {
        Content::Coin { balance, .. } => *balance,
        Content::Cap { supply, .. } => *supply,
        Content::Counter { value } => *value,
        Content::Vault { balance, .. } => *balance,
        Content::VaultKey { .. } => 0,
        Content::Limit { value } => *value,
    }
}

/// The same content with another amount.
pub fn with_amount(amount: u64, content: &Content) -> Content
    ensures { result ≡ with_amount amount content.now }
{
    match content {
        Content::Coin { currency, .. } => Content::Coin {
            currency: *currency,
            balance: amount,
        },
        Content::Cap { currency, .. } => Content::Cap {
            currency: *currency,
            supply: amount,
        },
        Content::Counter { .. } => Content::Counter { value: amount },
        Content::Vault { currency, .. } => Content::Vault {
            currency: *currency,
            balance: amount,
        },
        Content::VaultKey { vault } => Content::VaultKey { vault: *vault },
        Content::Limit { .. } => Content::Limit { value: amount },
    }
}

/// The item with another amount.
pub fn holding(amount: u64, item: &Item) -> Item
    ensures { result ≡ holding amount item.now }
{
    Item {
        id: item.id,
        content: with_amount(amount, &item.content),
        fresh: item.fresh,
    }
}

/// Whether two items are of different currencies.
pub(crate) fn other_currency(a: &Item, b: &Item) -> bool
    ensures { result ≡ other_currency a.now b.now }
{
    currency_of(&a.content) != currency_of(&b.content)
}

/// Whether a key names the vault of this id.
pub(crate) fn names_vault(id: &ObjectId, content: &Content) -> bool
    ensures { result ≡ names_vault id.now content.now }
{
    match content {
        Content::VaultKey { vault } => *vault == *id,
        Content::Coin { .. }
        | Content::Cap { .. }
        | Content::Counter { .. }
        | Content::Vault { .. }
        | Content::Limit { .. } => false,
    }
}

/// Whether an object with this content may be shared: only counters and vaults may.
pub(crate) fn may_be_shared(content: &Content) -> bool
    ensures { result ≡ may_be_shared content.now }
{
    match content {
        Content::Counter { .. } | Content::Vault { .. } => true,
        Content::Coin { .. }
        | Content::Cap { .. }
        | Content::VaultKey { .. }
        | Content::Limit { .. } => false,
    }
}
