//! What a world says after the lines of a schedule: the sums of its members, worked by hand from the rules, and the seal of a
//! transaction, of an independent SHA-256.

use crate::members::sealer;
use crate::same::same;
use digest_core::Digest;
use outside::{Keeper, MemKeeper};
use schedule_text::{Event, Schedule, read_schedule};
use std::alloc::Global;
use std::thread::Threads;
use wire_bcs::OutOfMemory;
use world_core::{Sums, World, WorldFault};

/// A faulty member, and one that is honest.
const OPENING: &str = "member 1 faulty\nmember 3 honest\ncoin g0 alice 10000\ncoin g1 bob 500\n\
counter c0 7\ncap k0 bob 5\n";

/// A transfer by a committee of one.
const TRANSFER: &str = "member 1 honest\ncoin g0 alice 10000\n\
tx t1 alice 0 g0@1 2000 a:bob transfer(gas,i0)\nvote 0 t1\ncert t1 0\nsend 0 t1\nrun 0 1\n";

/// A member that stops at the record of its vote.
const STOPPED: &str = "member 1 honest\ncoin g0 alice 10000\n\
tx t1 alice 0 g0@1 2000 a:bob transfer(gas,i0)\nstop 0 kept\nvote 0 t1\n";

/// A member that stops at the record of its vote, and is started again.
const RESTARTED: &str = "member 1 honest\ncoin g0 alice 10000\n\
tx t1 alice 0 g0@1 2000 a:bob transfer(gas,i0)\nstop 0 kept\nvote 0 t1\nrestart 0\n";

/// Alice's seal of t1.
const SEAL: [u8; 32] = [
    9, 70, 46, 27, 58, 226, 202, 116, 213, 56, 168, 32, 229, 59, 2, 26, 197, 150, 88, 49, 79, 169,
    217, 226, 234, 137, 255, 71, 214, 106, 142, 2,
];

/// A transaction under a spoiled seal.
const SPOILED: &str = "member 1 honest\ncoin g0 alice 10000\n\
tx t1 alice? 0 g0@1 2000 a:bob transfer(gas,i0)\n";

/// The seal with the last bit of its first byte turned.
fn spoiled() -> Option<Digest> {
    let mut bytes = SEAL;
    bytes[0] = 8;
    Some(Digest(bytes))
}

/// Runs a line, if the keeper has a list for each member.
fn step<R: Threads + Sync>(
    rt: &R,
    world: &mut World,
    keeper: &mut MemKeeper,
    event: &Event,
) -> Result<(), WorldFault> {
    if world.members() > keeper.members() {
        return Err(WorldFault::OutOfMemory);
    }
    let lines = world.step(rt, keeper, &sealer(), event)?;
    drop(lines);
    Ok(())
}

/// The sums of a member, and the seal of the first transaction.
type Told = (Option<Sums>, Option<Digest>);

/// Those in a world.
fn told_in(world: &World, member: u32) -> Result<Told, OutOfMemory> {
    let seal = match world.signed(0) {
        Some(signed) => Some(signed.seal),
        None => None,
    };
    Ok((world.sums(member)?, seal))
}

/// The world after the lines of a schedule.
pub(crate) fn world_after<R: Threads + Sync>(
    rt: &R,
    alloc: Global,
    schedule: &Schedule,
) -> Option<World> {
    let mut keeper = MemKeeper::new(alloc, 64, [].as_slice()).ok()?;
    let Ok(mut world) = World::new(alloc, schedule.setup.as_slice(), &sealer()) else {
        return None;
    };
    for event in schedule.events.as_slice() {
        step(rt, &mut world, &mut keeper, event).ok()?;
    }
    Some(world)
}

/// Those after the lines of a schedule.
fn told<R: Threads + Sync>(rt: &R, alloc: Global, text: &str, member: u32) -> Option<Told> {
    let schedule = read_schedule(alloc, text.as_bytes()).ok()?;
    let world = world_after(rt, alloc, &schedule)?;
    drop(schedule);
    let told = told_in(&world, member);
    drop(world);
    told.ok()
}

/// A member that has built no checkpoint.
fn holding(objects: u64, sum: u128) -> Option<Sums> {
    Some(Sums {
        transactions: 0,
        checkpoints: 0,
        objects,
        sum,
    })
}

/// There are no sums of a faulty member, of one that is not there and of one that is down.
#[test]
fn sums_are_those_of_honest_members_that_are_up(rt: HostRuntime) {
    let seal = Some(Digest(SEAL));
    let rows = [
        (OPENING, 0, None, None),
        (OPENING, 1, holding(4, 10500), None),
        (OPENING, 2, None, None),
        (TRANSFER, 0, holding(1, 8900), seal),
        (STOPPED, 0, None, seal),
        (RESTARTED, 0, holding(1, 10000), seal),
        (SPOILED, 0, holding(1, 10000), spoiled()),
    ];
    for (text, member, sums, seal) in rows {
        let wanted = (sums, seal);
        same(&rt, told(&rt, rt.alloc(), text, member), Some(wanted));
    }
}
