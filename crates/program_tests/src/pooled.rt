//! Runs by workers in threads, which no report tells apart from runs by one.

ghost use Rattle.std.specs.Prelude.{◌≡◌, ◌<◌, ◌≤◌};

use crate::members::{member_from, records};
use crate::same::{holds, same};
use dag_pool::{Gate, OpenGate};
use digest_core::Digest;
use effects_core::{HashedEffects, Status};
use outside::{Keeper, MemKeeper};
use std::alloc::Global;
use std::sync::atomic::{AtomicU64, Ordering};
use std::thread;
use std::thread::Threads;
use validator_core::Validator;
use wire_bcs::OutOfMemory;

/// Three coins of alice's, and a counter.
const SETUP: &str = "member 1 honest\ncoin g0 alice 10000\ncoin g1 alice 10000\n\
coin g2 alice 10000\ncounter c0 5\n";

/// The certificate of a transfer of g0 to bob.
const FIRST: &str =
    "00000000000000008664e69e5d6097e16cbe321bca1759cc2f4e908a4045089a58592cfd335e41f0805c8476ced89a9d1feb\
86c99137b7049dcfc88a198c062a07a3458d16584c40010000000000000072955c7862d0b42671fb1238e910ac9487c4625b\
bd99f82a2164c99dfbca6b39d0070000000000000100204e7030e3beadedd34c6d94354b55086f5e4d975eb9c716a3e984be\
a4947768da0101010001000001000100000000a850e1bcc4e98703a09e5f6a85f145a8e6d784c070cf18b73619d7340a8f7e\
73";

/// The certificate of a transfer of g1 to bob.
const SECOND: &str =
    "00000000000000008664e69e5d6097e16cbe321bca1759cc2f4e908a4045089a58592cfd335e41f0149f36fc3da79e5c2dae\
7bee0159e895a6f55337c617168971bad72176bd10040100000000000000ced9e277c301dee218a21317f273a08f9689b2e6\
8a748ad6be86e87ddff9c244d0070000000000000100204e7030e3beadedd34c6d94354b55086f5e4d975eb9c716a3e984be\
a4947768da01010100010000010001000000006f608ed44284d0b276e42f69acf467b23a46a5f9cfa8f1143e79456270b932\
f7";

/// The certificate of a transaction that pays with g0 and adds 10 to the counter.
const ADD_TEN: &str =
    "00000000000000008664e69e5d6097e16cbe321bca1759cc2f4e908a4045089a58592cfd335e41f0805c8476ced89a9d1feb\
86c99137b7049dcfc88a198c062a07a3458d16584c40010000000000000072955c7862d0b42671fb1238e910ac9487c4625b\
bd99f82a2164c99dfbca6b39d0070000000000000200080a0000000000000003c0e825e1a8acf28eb4bf0986fa08d05afd5e\
d74be998093115ae8587c81f330a0100000000000000010100050201010001000002000001000000006bdae899d2f93f1525\
d9cc153f9ca19ebb01d18ef0677660333af4907c7d948c";

/// The digest of the transaction of `ADD_TEN`.
const ADD_TEN_DIGEST: [u8; 32] = [
    208, 168, 11, 209, 71, 103, 180, 236, 117, 183, 120, 169, 7, 123, 41, 10, 104, 208, 109, 116,
    5, 254, 16, 235, 222, 92, 3, 190, 155, 233, 119, 47,
];

/// The certificate of a transaction that pays with g1 and requires 16 of the counter.
const LOOK: &str =
    "00000000000000008664e69e5d6097e16cbe321bca1759cc2f4e908a4045089a58592cfd335e41f0149f36fc3da79e5c2dae\
7bee0159e895a6f55337c617168971bad72176bd10040100000000000000ced9e277c301dee218a21317f273a08f9689b2e6\
8a748ad6be86e87ddff9c244d007000000000000020008100000000000000003c0e825e1a8acf28eb4bf0986fa08d05afd5e\
d74be998093115ae8587c81f330a01000000000000000001000602010100010000020000010000000015d0944a40dcc051c6\
dcf3b0de41a0b1ece8d7d40948ece9b8ccebaffbf1483b";

/// The digest of the transaction of `LOOK`.
const LOOK_DIGEST: [u8; 32] = [
    220, 145, 228, 46, 6, 246, 181, 130, 47, 249, 159, 220, 242, 154, 245, 227, 47, 101, 54, 28,
    216, 159, 152, 216, 27, 225, 33, 201, 46, 10, 234, 190,
];

/// The certificate of a transaction that pays with g2 and adds 1 to the counter.
const ADD_ONE: &str =
    "00000000000000008664e69e5d6097e16cbe321bca1759cc2f4e908a4045089a58592cfd335e41f085c6496e7cc34c00c45a\
df9f63574aad691e7933ba6498d043cebd9f49c4d2780100000000000000ae4b19cf918b6181f25e9492311e40dc4497287b\
fd25ea1e256201c13d547c9ed007000000000000020008010000000000000003c0e825e1a8acf28eb4bf0986fa08d05afd5e\
d74be998093115ae8587c81f330a010000000000000001010005020101000100000200000100000000fbade1962bd124e809\
252b5af869510f383be236d8349fceb81a565cce90e3e3";

/// The digest of the transaction of `ADD_ONE`.
const ADD_ONE_DIGEST: [u8; 32] = [
    198, 67, 16, 94, 252, 26, 162, 104, 110, 162, 243, 214, 161, 9, 234, 163, 233, 106, 253, 96,
    31, 142, 104, 33, 161, 10, 168, 12, 206, 74, 80, 222,
];

/// The bytes before the certificate in the record of one that is newly held.
const HELD: &[u8] = &[1];

/// The bytes before the certificate in the record of an entry of 224 bytes that orders it.
const SEEN: &[u8] = &[2, 224, 1, 0];

/// The outcome of a transaction: its digest, the status of its effects, their version and the gas.
type Outcome = (Digest, Status, u64, u64);

/// The outcome of each.
fn outcomes(alloc: Global, effects: &[HashedEffects]) -> Result<Vec<Outcome>, OutOfMemory> {
    let mut all = Vec::new(alloc);
    for one in effects {
        let one = one.effects();
        all.push((one.tx, one.status, one.version, one.gas))?;
    }
    Ok(all)
}

/// The outcomes of what a run by this many workers executes.
fn runs<R: Threads + Sync, G: Gate + Sync>(
    rt: &R,
    alloc: Global,
    member: &mut Validator,
    keeper: &mut MemKeeper,
    workers: u32,
    gate: &G,
) -> Option<Vec<Outcome>>
    requires number { member.old.member ≡ 0 }
    requires workers { (0 < workers) × (workers ≤ 16) }
{
    if keeper.members() == 0 {
        return None;
    }
    match member.run(rt, keeper, workers, gate) {
        Ok(ran) => outcomes(alloc, ran.executed.as_slice()).ok(),
        Err(_) => None,
    }
}

/// The outcomes of what a run by this many workers executes at a member that starts from these records, each given as
/// the bytes before a certificate and the certificate.
fn runs_from<R: Threads + Sync, G: Gate + Sync>(
    rt: &R,
    alloc: Global,
    kept: &[(&[u8], &str)],
    workers: u32,
    gate: &G,
) -> Option<Vec<Outcome>>
    requires workers { (0 < workers) × (workers ≤ 16) }
{
    let mut keeper = MemKeeper::new(alloc, 1, [].as_slice()).ok()?;
    let kept = records(alloc, kept)?;
    let mut member = member_from(alloc, SETUP, &kept)?;
    let ran = runs(rt, alloc, &mut member, &mut keeper, workers, gate);
    drop(member);
    ran
}

/// Lets no task run before two have come, or the turns run out.
#[derive(Drop)]
struct Meeting {
    entered: AtomicU64,
    late: AtomicU64,
}

impl Gate for Meeting {
    fn enter(&self, _task: u32) {
        self.entered.fetch_add(1, Ordering::SeqCst);
        for _ in 0..10_000_000u32 {
            if self.entered.load(Ordering::SeqCst) >= 2 {
                return;
            }
            thread::yield_now();
        }
        self.late.fetch_add(1, Ordering::SeqCst);
    }

    fn leave(&self, _task: u32) {}
}

/// How many of two transfers are executed by two workers.
fn runs_two<R: Threads + Sync>(rt: &R, alloc: Global, gate: &Meeting) -> Option<usize> {
    let kept = [(HELD, FIRST), (HELD, SECOND)];
    let ran = runs_from(rt, alloc, kept.as_slice(), 2, gate)?;
    Some(ran.len())
}

#[test]
fn two_certificates_are_executed_at_once(rt: HostRuntime) {
    let meeting = Meeting {
        entered: AtomicU64::new(0),
        late: AtomicU64::new(0),
    };
    same(&rt, runs_two(&rt, rt.alloc(), &meeting), Some(2));
    same(&rt, meeting.entered.load(Ordering::SeqCst), 2);
    same(&rt, meeting.late.load(Ordering::SeqCst), 0);
}

/// Whether a run by this many workers, of which the reader was held last, has these outcomes, in this order.
fn comes_to<R: Threads + Sync>(rt: &R, alloc: Global, workers: u32, wanted: &[Outcome]) -> bool
    requires { (0 < workers) × (workers ≤ 16) }
{
    let kept = [
        (HELD, ADD_TEN),
        (HELD, ADD_ONE),
        (HELD, LOOK),
        (SEEN, ADD_TEN),
        (SEEN, LOOK),
        (SEEN, ADD_ONE),
    ];
    match runs_from(rt, alloc, kept.as_slice(), workers, &OpenGate) {
        Some(ran) => ran.as_slice() == wanted,
        None => false,
    }
}

/// The reader was held last and is executed last, and reads what it was assigned: 15, not 16.
#[test]
fn workers_read_assigned_versions(rt: HostRuntime) {
    let refused = Status::Aborted {
        command: 0,
        code: 1,
    };
    let wanted = [
        (Digest(ADD_TEN_DIGEST), Status::Done, 2, 1100),
        (Digest(ADD_ONE_DIGEST), Status::Done, 3, 1100),
        (Digest(LOOK_DIGEST), refused, 3, 1100),
    ];
    for workers in [1, 2, 4, 16] {
        holds(&rt, comes_to(&rt, rt.alloc(), workers, wanted.as_slice()));
    }
}
