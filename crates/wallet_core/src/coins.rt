//! Coins of a first epoch.

ghost use Rattle.std.specs.Prelude.{◌≡◌};
ghost use Rattle.digest_core.specs.Tagged.{address_of_name, genesis_id_of};
ghost use Rattle.chain_types.specs.declared.objects.Owner.TheVariants as owner;
ghost use Rattle.chain_types.specs.declared.objects.Content.TheVariants as content;

use chain_types::{Address, Content, Object, ObjectId, Owner};
use digest_core::{address_of, genesis_id};

/// The coin of this number that a first epoch opens with: this many units of currency 0, which pays gas, of the user of this name.
pub fn coin_of(name: &[u8], number: u64, balance: u64) -> Object
    ensures { result ≡ record { id = record { 0 = genesis_id_of number }; version = 1; owner = owner.Address (record { 0 = address_of_name name.now }); content = content.Coin 0 balance } }
{
    Object {
        id: ObjectId(genesis_id(number)),
        version: 1,
        owner: Owner::Address(Address(address_of(name))),
        content: Content::Coin {
            currency: 0,
            balance,
        },
    }
}
