//! A committee of two members, of which the second is faulty, that opens with no object.

ghost use Rattle.std.specs.Prelude.{◌≡◌, IfOk, length};

use crate::members::sealer;
use crate::same::same;
use chain_types::{ObjectId, ObjectKey};
use digest_core::Digest;
use outside::{Keeper, MemKeeper};
use quorum_core::Committee;
use std::alloc::Global;
use std::process::Abort;
use std::test::Fail;
use wire_bcs::{OutOfMemory, Seq};
use world_core::{RestartFault, Seats, Terms};
use world_lines::HeldDigests;

fn seats(alloc: Global) -> Result<Seats, Fail>
    ensures { IfOk result (λ seats. length seats.posts ≡ 2) }
{
    let Ok(committee) = Committee::new([1, 1].as_slice()) else {
        return Err(Fail::new("two stakes are a committee"));
    };
    let terms = Terms {
        committee,
        writers: None,
    };
    let opening = Seq::new(alloc);
    let honest = [true, false];
    Ok(Seats::new(alloc, &terms, honest.as_slice(), &opening, &sealer())?)
}

/// A keeper of two lists that never fails.
fn keeper(alloc: Global) -> Result<MemKeeper, Fail>
    ensures { IfOk result (λ keeper. length keeper.lists ≡ 2) }
{
    Ok(MemKeeper::new(alloc, 2, [].as_slice())?)
}

/// The epoch that a member shows, if it shows one.
fn shown(seats: &Seats, member: u32) -> Result<Option<u64>, OutOfMemory> {
    match seats.show(member)? {
        Some((epoch, objects)) => {
            drop(objects);
            Ok(Some(epoch))
        }
        None => Ok(None),
    }
}

/// Tests what the seats know of their members.
fn expect_members(rt: &impl Abort, seats: &Seats) {
    same(rt, seats.len(), 2);
    same(rt, seats.flags(), [true, false].as_slice());
    same(rt, seats.committee().total(), 2);
    let key = ObjectKey {
        id: ObjectId(Digest([1; 32])),
        version: 1,
    };
    same(rt, seats.held_digest(&key), None);
    same(rt, shown(seats, 1), Ok(Some(0)));
    same(rt, shown(seats, 2), Ok(None));
    let honest = (
        seats.honest(0).is_some(),
        seats.honest(1).is_some(),
        seats.honest(2).is_some(),
    );
    same(rt, honest, (true, false, false));
}

#[test]
fn knows_its_members(rt: HostRuntime) -> Result<(), Fail> {
    let seats = seats(rt.alloc())?;
    expect_members(&rt, &seats);
    drop(seats);
    Ok(())
}

/// Member 1 starts again over an opening with no object.
fn restarts(alloc: Global, seats: &mut Seats, keeper: &mut MemKeeper) -> Result<u64, RestartFault>
    requires posts { length seats.old.posts ≡ 2 }
    requires lists { length keeper.old.lists ≡ 2 }
    ensures posts { length seats.new.posts ≡ 2 }
    ensures lists { length keeper.new.lists ≡ 2 }
{
    let opening = Seq::new(alloc);
    let restarted = seats.restart(alloc, keeper, &sealer(), &opening, 1);
    drop(opening);
    restarted
}

/// Tests starts from no record and from a bad one.
fn expect_starts(rt: &impl Abort, alloc: Global, seats: &mut Seats, keeper: &mut MemKeeper)
    requires posts { length seats.old.posts ≡ 2 }
    requires lists { length keeper.old.lists ≡ 2 }
{
    seats.arm(0, true);
    same(rt, restarts(alloc, seats, keeper), Ok(0));
    if keeper.members() == 2 && keeper.append(1, [255].as_slice()).is_ok() {
        let bad = restarts(alloc, seats, keeper);
        same(rt, bad, Err(RestartFault::BadRecord { place: 0 }));
    }
}

#[test]
fn starts_from_its_records(rt: HostRuntime) -> Result<(), Fail> {
    let alloc = rt.alloc();
    let mut keeper = keeper(alloc)?;
    let mut seats = seats(alloc)?;
    expect_starts(&rt, alloc, &mut seats, &mut keeper);
    drop(seats);
    Ok(())
}
