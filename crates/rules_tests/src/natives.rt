//! What no block can show of the natives: how they take their arguments, and a cap whose supply is below a coin of its
//! currency.

ghost use Rattle.std.specs.Prelude.{◌≡◌, ◌∷◌, [], IfOk};

use crate::same::same;
use chain_types::{Content, Kind, ObjectId};
use digest_core::Digest;
use native_calls::{call, mode};
use protocol_spec::{Gave, Given, Item, Mode};
use std::alloc::Global;
use wire_bcs::{OutOfMemory, Seq};

#[test]
fn tells_modes(rt: HostRuntime) {
    same(&rt, mode(13, 2), Some(Mode::ByRef(Kind::Limit)));
    same(&rt, mode(13, 3), None);
    same(&rt, mode(10, 0), Some(Mode::ByValue(None)));
    same(&rt, mode(3, 0), Some(Mode::Coins));
    same(&rt, mode(8, 1), Some(Mode::ByValue(Some(Kind::Coin))));
    same(&rt, mode(9, 0), Some(Mode::ByMut(Kind::Vault)));
}

/// An object of this number that the block did not create.
fn old(number: u8, content: Content) -> Item {
    Item {
        id: ObjectId(Digest([number; 32])),
        content,
        fresh: false,
    }
}

/// Two arguments.
fn two(alloc: Global, first: Item, second: Item) -> Result<Seq<Given>, OutOfMemory>
    ensures { IfOk result (λ args. args ≡ Given.Item first ∷ Given.Item second ∷ []) }
{
    let mut args = Seq::new(alloc);
    args.push(Given::Item(first))?;
    args.push(Given::Item(second))?;
    Ok(args)
}

/// The code with which a burn of a coin of 5 under a cap of currency 2 aborts, 0 if it does not.
fn burned(alloc: Global, supply: u64, currency: u64) -> Result<u8, OutOfMemory> {
    let cap = Content::Cap {
        currency: 2,
        supply,
    };
    let coin = Content::Coin {
        currency,
        balance: 5,
    };
    let args = two(alloc, old(1, cap), old(2, coin))?;
    let gave = call(alloc, 2, &Digest([17; 32]), 9, 3, args)?;
    let code = match &gave {
        Gave::Abort(code) => *code,
        Gave::Done { .. } => 0,
    };
    drop(gave);
    Ok(code)
}

#[test]
fn burns_no_more_than_the_supply(rt: HostRuntime) {
    same(&rt, burned(rt.alloc(), 9, 3), Ok(1));
    same(&rt, burned(rt.alloc(), 4, 3), Ok(1));
    same(&rt, burned(rt.alloc(), 4, 2), Ok(2));
    same(&rt, burned(rt.alloc(), 5, 2), Ok(0));
}
