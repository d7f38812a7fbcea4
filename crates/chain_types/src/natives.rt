//! The natives: functions that stand in for published code, which a block may call.

use crate::objects::Kind;

/// How a native takes a parameter.
#[derive(Clone, Copy, Debug, PartialEq, Eq)]
pub enum Mode {
    /// Pure bytes of a u64.
    Number,
    /// The object itself, of this kind or of any.
    ByValue(Option<Kind>),
    /// An object that is changed in place.
    ByMut(Kind),
    /// An object that is only read.
    ByRef(Kind),
    /// A vector of coins, by value.
    Coins,
}

/// What is known of a native before it is called: its name in a schedule, and how it takes each of its
/// parameters.
pub type Native = (&'static [u8], &'static [Mode]);

/// The number of the last native.
pub const LAST_NATIVE: u8 = 13;

/// The natives, by number. A comment says of each, between bars: what it takes, what it gives, and
/// why it aborts with 1, 2 and so on. `tools/pages` writes the manual's table from here.
pub static NATIVES: [Native; 14] = [
    // a currency | an empty coin
    (b"coin_zero", &[Mode::Number]),
    // a cap, an amount | a coin of the cap's currency; the supply rises | supply above 64 bits
    (b"coin_mint", &[Mode::ByMut(Kind::Cap), Mode::Number]),
    // a cap, a coin | nothing; the coin is gone, the supply falls
    // | another currency than the cap | supply below the coin
    (
        b"coin_burn",
        &[Mode::ByMut(Kind::Cap), Mode::ByValue(Some(Kind::Coin))],
    ),
    // a vector of coins | the first of them, with the sum of all
    // | no coins | two currencies | sum above 64 bits
    (b"coin_join_all", &[Mode::Coins]),
    // a value | a counter
    (b"counter_new", &[Mode::Number]),
    // a counter, an amount | nothing | sum above 64 bits
    (b"counter_add", &[Mode::ByMut(Kind::Counter), Mode::Number]),
    // a counter, the least value | nothing | the counter has less
    (
        b"counter_require",
        &[Mode::ByRef(Kind::Counter), Mode::Number],
    ),
    // a currency | an empty vault, and its key
    (b"vault_new", &[Mode::Number]),
    // a vault, a coin | nothing; the coin is gone
    // | another currency than the vault | sum above 64 bits
    (
        b"vault_deposit",
        &[Mode::ByMut(Kind::Vault), Mode::ByValue(Some(Kind::Coin))],
    ),
    // a vault, its key, an amount | a coin | the key of another vault | the vault has less
    (
        b"vault_withdraw",
        &[
            Mode::ByMut(Kind::Vault),
            Mode::ByRef(Kind::VaultKey),
            Mode::Number,
        ],
    ),
    // a counter or vault of this block | nothing; anybody may name it from now on
    // | not created in this block | neither a counter nor a vault
    (b"share", &[Mode::ByValue(None)]),
    // any object | nothing; it is immutable from now on
    (b"freeze", &[Mode::ByValue(None)]),
    // a value | a limit
    (b"limit_new", &[Mode::Number]),
    // a counter, an amount, a limit | nothing | sum above 64 bits | sum above the limit
    (
        b"counter_add_limited",
        &[
            Mode::ByMut(Kind::Counter),
            Mode::Number,
            Mode::ByRef(Kind::Limit),
        ],
    ),
];
