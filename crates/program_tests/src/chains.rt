//! How a chain agrees with what the members of a world have built. The links are encoded and sealed by the functions of
//! `conformance/chains.py`.

use crate::members::sealer;
use crate::same::same;
use crate::sums::world_after;
use committee_core::{Agreement, agrees};
use light_check::{ChainRefusal, decode_chain};
use schedule_text::read_schedule;
use std::alloc::Global;
use std::thread::Threads;
use world_core::World;

/// Two honest members execute nothing and end epoch 0: each builds checkpoint 0, which is empty and the epoch's last.
const ENDED: &str = "member 1 faulty\nmember 3 honest\nmember 3 honest\n\
close 1\nclose 2\nend 1\nend 2\norder end 1\norder end 2\nsee 1 2\nsee 2 2\n";

/// They end epoch 1 too: each builds checkpoint 1, which is like the first.
const ENDED_TWICE: &str = "member 1 faulty\nmember 3 honest\nmember 3 honest\n\
close 1\nclose 2\nend 1\nend 2\norder end 1\norder end 2\nsee 1 2\nsee 2 2\n\
turn 1\nturn 2\nclose 1\nclose 2\nend 1\nend 2\norder end 1\norder end 2\nsee 1 2\nsee 2 2\n";

/// And then member 1 stops when it turns to epoch 2.
const STOPPED: &str = "member 1 faulty\nmember 3 honest\nmember 3 honest\n\
close 1\nclose 2\nend 1\nend 2\norder end 1\norder end 2\nsee 1 2\nsee 2 2\n\
turn 1\nturn 2\nclose 1\nclose 2\nend 1\nend 2\norder end 1\norder end 2\nsee 1 2\nsee 2 2\n\
stop 1 kept\nturn 1\n";

/// The two checkpoints that they build, sealed by both.
const BUILT: &str =
    "0200000000000000000000000000000000000000000000000000000000000000000000000000000000000000\
000000000000010201000000452d15540aa66c09cc05af4bb4185f17062048f9bb9e664a154954f8c76c7af5\
02000000414a6426c3f066c62f390ca525e9c0fc051f2f1484ac9f2faee6780459833b760100000000000000\
0100000000000000063a52a0c270d2f786c3a183f6bafe2690a0de40ac7256105ffe1f76d7edf33000010201\
000000f37dfbdcb081936b698c8592f9d86feedbb2802180d4269787ce9201dd11748b020000009e8ece3b3d\
e7110793a0846c4329a46bbc81f3eaa1eab862db8411e4a636bdb4";

/// The second one is not its epoch's last.
const OTHER_SECOND: &str =
    "0200000000000000000000000000000000000000000000000000000000000000000000000000000000000000\
000000000000010201000000452d15540aa66c09cc05af4bb4185f17062048f9bb9e664a154954f8c76c7af5\
02000000414a6426c3f066c62f390ca525e9c0fc051f2f1484ac9f2faee6780459833b760100000000000000\
0100000000000000063a52a0c270d2f786c3a183f6bafe2690a0de40ac7256105ffe1f76d7edf33000000201\
0000008760fa57422bb2ebb06236729a464c8af2d096efc0e41494b98edd6bca1f46820200000009a7d5810a\
3f29df3cb2bfdd76952b0c764a346285fa278b6611d051a7e379f3";

/// The first one is not its epoch's last.
const OTHER_FIRST: &str =
    "0100000000000000000000000000000000000000000000000000000000000000000000000000000000000000\
0000000000000002010000008ea96f70a4b2906558a8f406281ce6654398125a42de1c8e832a266859300a08\
02000000763d5b1a513b31ac9ca9d44c7490a828169ea617aa41de7d57681e011d34f6f9";

/// The first one, sealed by members 0 and 2 only, who have four of seven.
const FEW: &str =
    "0100000000000000000000000000000000000000000000000000000000000000000000000000000000000000\
000000000000010200000000751c807a67de23d3e40c711843e30d5db3396e8a49a0e3ea9c88d515f0b82529\
02000000414a6426c3f066c62f390ca525e9c0fc051f2f1484ac9f2faee6780459833b76";

/// How the chain that hexadecimal digits encode agrees with a world; none if there is no answer.
fn said_in(alloc: Global, world: &World, digits: &str) -> Option<Agreement> {
    let bytes = hex::decode(alloc, digits).ok()?;
    let Ok(chain) = decode_chain(alloc, bytes.as_slice()) else {
        return None;
    };
    agrees(alloc, world, &chain, &sealer()).ok()
}

/// The same after the lines of a schedule.
fn said_after<R: Threads + Sync>(
    rt: &R,
    alloc: Global,
    text: &str,
    digits: &str,
) -> Option<Agreement> {
    let schedule = read_schedule(alloc, text.as_bytes()).ok()?;
    let world = world_after(rt, alloc, &schedule)?;
    drop(schedule);
    let said = said_in(alloc, &world, digits);
    drop(world);
    said
}

/// A link counts as differing only if an honest member that is up has built another checkpoint with its number.
#[test]
fn a_chain_is_compared_with_what_members_built(rt: HostRuntime) {
    let rows = [
        (ENDED, BUILT, Agreement::Agrees),
        (ENDED, OTHER_SECOND, Agreement::Agrees),
        (
            ENDED,
            OTHER_FIRST,
            Agreement::Differs {
                place: 0,
                member: 1,
            },
        ),
        (
            ENDED,
            FEW,
            Agreement::Refused(ChainRefusal::Bad { place: 0, cause: 5 }),
        ),
        (ENDED_TWICE, BUILT, Agreement::Agrees),
        (
            ENDED_TWICE,
            OTHER_SECOND,
            Agreement::Differs {
                place: 1,
                member: 1,
            },
        ),
        (
            STOPPED,
            OTHER_SECOND,
            Agreement::Differs {
                place: 1,
                member: 2,
            },
        ),
    ];
    for (text, digits, agreement) in rows {
        same(
            &rt,
            said_after(&rt, rt.alloc(), text, digits),
            Some(agreement),
        );
    }
}
